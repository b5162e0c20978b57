// The version store as a database.
ghost use Rattle.std.specs.Prelude.{◌≡◌, true, false, is_ok, IfOk, MatchResult};
ghost use Rattle.database.specs.Databases.{PinsLatest, Unpins, UnpinsAll, Asks, Writes, Written};
ghost use Rattle.database.specs.Writes.{refusal};
ghost use Rattle.versions.specs.Stores.{in_range, Refused, store_of, meaning, empty_at, pinned, unpinned, unpinned_all, written, answer_at};
ghost use Rattle.versions.specs.Soundness;

use crate::store::VersionStore;
use crate::walks::{change_all, count_needed, discard, scan_all};
use database::snapshots::Snapshots;
use database::{Answer, Database};
use std::alloc::Global;
use terms::{Change, Fault, Moment, Query};

// The most places of a store.
const MOST: usize = 4096;

impl VersionStore {
    // A store with this many places, empty at its first moment.
    pub fn new(heap: Global, places: usize, first: Moment) -> Result<VersionStore, Fault>
        ensures { MatchResult result (λ s. (in_range places first ≡ true) × (store_of s ≡ empty_at places first)) (λ fault. Refused places first fault) }
    {
        if places == 0 || places > MOST {
            return Err(Fault::OutOfRange);
        }
        let snapshots = Snapshots::new(heap, first)?;
        let versions = Vec::with_capacity(heap, places)?;
        Ok(VersionStore {
            places,
            snapshots,
            versions,
        })
    }

    // Makes changes that are not refused at the moment after the latest, and answers it.
    fn commit(&mut self, changes: &[Change]) -> Moment
        requires { refusal (meaning (store_of self.old)).latest (meaning (store_of self.old)).free changes.now ≡ None }
        ensures means { Written (meaning (store_of self.old)) changes.now result (meaning (store_of self.new)) }
        ensures keeps { store_of self.new ≡ written changes.now (store_of self.old) }
    {
        discard(&mut self.versions, &self.snapshots);
        let moment = self.snapshots.advance();
        change_all(&mut self.versions, moment, changes);
        moment
    }
}

// Its moments are those of `snapshots`, to which four calls hand on in a line each, as the undo store's do:
// a body in the trait could not reach the field without a method more in every database. A write is the trait's check and then
// a commit, which requires what the check has found: no method of the trait may require.
impl Database for VersionStore {
    ghost view = { λ s. meaning (store_of s) };

    ghost sound = { λ x. Soundness.sound (store_of x) (Soundness.good x) };

    fn latest(&self) -> Moment {
        self.snapshots.latest()
    }

    // `as`, since a usize has no From to u64.
    #[tactic(auto, using(database::proofs::Sets::length_kept))]
    fn free(&self) -> u64 {
        (self.places - count_needed(&self.versions, &self.snapshots)) as u64
    }

    fn pin(&mut self) -> Result<Moment, Fault>
        ensures means { PinsLatest (meaning (store_of self.old)) result (meaning (store_of self.new)) }
        ensures keeps { is_ok result ≡ true → store_of self.new ≡ pinned (store_of self.old) }
        ensures same { is_ok result ≡ false → store_of self.new ≡ store_of self.old }
    {
        self.snapshots.pin()
    }

    fn unpin(&mut self, moment: Moment)
        ensures means { Unpins (meaning (store_of self.old)) moment (meaning (store_of self.new)) }
        ensures keeps { store_of self.new ≡ unpinned moment (store_of self.old) }
    {
        self.snapshots.unpin(moment);
    }

    fn unpin_all(&mut self)
        ensures means { UnpinsAll (meaning (store_of self.old)) (meaning (store_of self.new)) }
        ensures keeps { store_of self.new ≡ unpinned_all (store_of self.old) }
    {
        self.snapshots.unpin_all();
    }

    fn ask(&self, moment: Moment, query: Query) -> Result<Answer, Fault>
        ensures means { Asks (meaning (store_of self.now)) moment query result }
        ensures exact { IfOk result (λ answer. answer ≡ answer_at (store_of self.now) moment query) }
    {
        if !self.snapshots.holds(moment) {
            return Err(Fault::NotHeld { frames: 0 });
        }
        Ok(scan_all(&self.versions, moment, query).answer(self.latest()))
    }

    fn write(&mut self, changes: &[Change]) -> Result<Moment, Fault>
        ensures means { Writes (meaning (store_of self.old)) changes.now result (meaning (store_of self.new)) }
        ensures keeps { is_ok result ≡ true → store_of self.new ≡ written changes.now (store_of self.old) }
        ensures same { is_ok result ≡ false → store_of self.new ≡ store_of self.old }
    {
        self.check(changes)?;
        Ok(self.commit(changes))
    }
}
