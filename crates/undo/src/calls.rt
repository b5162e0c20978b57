// The undo store as a database.
ghost use Rattle.std.specs.Prelude.{◌≡◌, true, false, length, is_ok, IfOk, MatchResult, nat_le};
ghost use Rattle.database.specs.Databases.{PinsLatest, Unpins, UnpinsAll, Asks, Writes, Written};
ghost use Rattle.database.specs.Writes.{refusal};
ghost use Rattle.undo.specs.Soundness;
ghost use Rattle.undo.specs.Stores.{in_range, Refused, store_of, meaning, empty_at, pinned, unpinned, unpinned_all, written, validity};

use crate::entry::Entry;
use crate::ledger::Ledger;
use crate::store::UndoStore;
use database::snapshots::Snapshots;
use database::{Answer, Database};
use line::Line;
use std::alloc::Global;
use terms::{Change, Fault, Moment, Query};

// The most rows of a store.
const MOST: usize = 4096;

// Whether a store may have so many rows: decided here, where no proof is written out.
fn is_size(rows: usize) -> bool
    ensures { result ≡ nat_le rows 4096 }
{
    rows <= MOST
}

impl<'a> UndoStore<'a> {
    // A store that keeps its entries in this journal, empty at its first moment. Its size is the journal's length.
    pub fn new(
        heap: Global,
        journal: &'a mut [Entry],
        first: Moment,
    ) -> Result<UndoStore<'a>, Fault>
        ensures { MatchResult result (λ s. (in_range (length journal.old) first ≡ true) × (store_of s ≡ empty_at (length journal.old) first)) (λ fault. Refused (length journal.old) first fault) }
    {
        let size = journal.len();
        if !is_size(size) {
            return Err(Fault::OutOfRange);
        }
        let line = Line::new(size).ok_or(Fault::OutOfRange)?;
        let snapshots = Snapshots::new(heap, first)?;
        let present = Vec::with_capacity(heap, size)?;
        Ok(UndoStore {
            snapshots,
            floor: first,
            ledger: Ledger {
                present,
                journal,
                line,
            },
        })
    }

    // Makes changes that are not refused at the moment after the latest, and answers it.
    fn commit(&mut self, changes: &[Change]) -> Moment
        requires { refusal (meaning (store_of self.old)).latest (meaning (store_of self.old)).free changes.now ≡ None }
        ensures means { Written (meaning (store_of self.old)) changes.now result (meaning (store_of self.new)) }
        ensures keeps { store_of self.new ≡ written changes.now (store_of self.old) }
    {
        let lowest = self.snapshots.lowest();
        let needed = self.ledger.needed(lowest);
        self.ledger.keep(needed);
        let moment = self.snapshots.advance();
        self.ledger.change_all(moment, changes);
        self.floor = lowest;
        moment
    }
}

// Its moments are those of `snapshots`, to which four calls hand on in a line each, as the version store's do:
// a body in the trait could not reach the field without a method more in every database. A write is the trait's check and then
// a commit, which requires what the check has found: no method of the trait may require.
impl Database for UndoStore<'_> {
    ghost view = { λ s. meaning (store_of s) };

    ghost sound = { λ x. Soundness.sound (store_of x) (Soundness.good x) };

    fn latest(&self) -> Moment {
        self.snapshots.latest()
    }

    // `as`, since a usize has no From to u64.
    fn free(&self) -> u64 {
        self.ledger.free(self.snapshots.lowest()) as u64
    }

    fn pin(&mut self) -> Result<Moment, Fault>
        ensures means { PinsLatest (meaning (store_of self.old)) result (meaning (store_of self.new)) }
        ensures keeps { is_ok result ≡ true → store_of self.new ≡ pinned (store_of self.old) }
        ensures same { is_ok result ≡ false → store_of self.new ≡ store_of self.old }
    {
        self.snapshots.pin()
    }

    fn unpin(&mut self, moment: Moment)
        ensures means { Unpins (meaning (store_of self.old)) moment (meaning (store_of self.new)) }
        ensures keeps { store_of self.new ≡ unpinned moment (store_of self.old) }
    {
        self.snapshots.unpin(moment);
    }

    fn unpin_all(&mut self)
        ensures means { UnpinsAll (meaning (store_of self.old)) (meaning (store_of self.new)) }
        ensures keeps { store_of self.new ≡ unpinned_all (store_of self.old) }
    {
        self.snapshots.unpin_all();
    }

    fn ask(&self, moment: Moment, query: Query) -> Result<Answer, Fault>
        ensures means { Asks (meaning (store_of self.now)) moment query result }
        ensures exact { IfOk result (λ answer. answer.interval ≡ validity (store_of self.now) moment query) }
    {
        if !self.snapshots.holds(moment) {
            return Err(Fault::NotHeld { frames: 0 });
        }
        let scan = self.ledger.scan(self.floor, moment, query);
        Ok(scan.answer(self.latest()))
    }

    fn write(&mut self, changes: &[Change]) -> Result<Moment, Fault>
        ensures means { Writes (meaning (store_of self.old)) changes.now result (meaning (store_of self.new)) }
        ensures keeps { is_ok result ≡ true → store_of self.new ≡ written changes.now (store_of self.old) }
        ensures same { is_ok result ≡ false → store_of self.new ≡ store_of self.old }
    {
        self.check(changes)?;
        Ok(self.commit(changes))
    }
}
