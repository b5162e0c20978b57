// What a database means, for every kind of database.
#![tactic(auto)]

ghost use Rattle.std.specs.Prelude.{◌≡◌};
ghost use Rattle.database.specs.Writes.{refusal, Refuses};
ghost use Rattle.database.specs.Databases.{Db, Sound, PinsLatest, Unpins, UnpinsAll, Asks, Writes};

pub mod agree;
pub mod pins;
pub mod queries;
pub mod snapshots;
pub mod writes;

use crate::writes::check_write;
use terms::{Change, Fault, Interval, Moment, Query, Reading, Tag};

// What a query reads at a moment, the tag it rests on, and for how long it is right.
#[derive(Clone, Copy)]
pub struct Answer {
    pub reading: Reading,
    pub tag: Tag,
    pub interval: Interval,
}

// A versioned database. What is left to each kind is its free number and how wide its intervals are.
pub trait Database {
    // what it means
    ghost view: { Self → Db };

    // The latest moment.
    fn latest(&self) -> Moment
        ensures { result ≡ (view self.now).latest };

    // How many changes a write may still have.
    fn free(&self) -> u64
        ensures { result ≡ (view self.now).free };

    // Pins the latest moment.
    fn pin(&mut self) -> Result<Moment, Fault>
        ensures { PinsLatest (view self.old) result (view self.new) };

    // Unpins a moment, or does nothing where it is not pinned.
    fn unpin(&mut self, moment: Moment)
        ensures { Unpins (view self.old) moment (view self.new) };

    fn unpin_all(&mut self)
        ensures { UnpinsAll (view self.old) (view self.new) };

    // Reads a query at a held moment. The two are no struct: a caller has a moment for many queries, and a query for many moments.
    fn ask(&self, moment: Moment, query: Query) -> Result<Answer, Fault>
        ensures { Asks (view self.now) moment query result };

    // Refuses changes that a write would refuse.
    fn check(&self, changes: &[Change]) -> Result<(), Fault>
        ensures { Refuses (refusal (view self.now).latest (view self.now).free changes.now) result }
    {
        check_write(self.latest(), self.free(), changes)
    }

    // Makes the changes at the moment after the latest, and answers it.
    fn write(&mut self, changes: &[Change]) -> Result<Moment, Fault>
        ensures { Writes (view self.old) changes.now result (view self.new) };

    ghost sound: { (x : Self) → Sound (view x) };
}
