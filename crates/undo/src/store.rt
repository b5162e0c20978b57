// The undo store, as it lies in memory.
ghost use Rattle.std.specs.Prelude.{◌≡◌, ℕ, ◌≤◌, true, ◌∷◌, vec_len, nat_le};
ghost use Rattle.std.specs.List.{list_all};
ghost use Rattle.database.specs.Rows.{unique};
ghost use Rattle.line.specs.Rings.{waiting};
ghost use Rattle.undo.specs.Journals.{rows_of, ascending};
ghost use Rattle.validity.specs.Versions.{dated};
ghost use Rattle.undo.specs.Versions.{versions, rightly, is_shown};

use crate::ledger::Ledger;
use database::snapshots::Snapshots;
use terms::Moment;

// A database of as many present records, and as many entries, as its journal has places. The room of the records is reserved at the making.
#[derive(Drop)]
pub struct UndoStore<'a> {
    pub(crate) snapshots: Snapshots,
    // entries with a commit up to here have been discarded
    pub(crate) floor: Moment,
    pub(crate) ledger: Ledger<'a>,
    ghost size: { ledger.line.size ≤ 4096 },
    ghost rows: { vec_len ledger.present ≤ ledger.line.size },
    // no held moment is below the floor
    ghost kept: { list_all (λ moment. nat_le floor moment) (snapshots.latest ∷ snapshots.pins.moments.items) ≡ true },
    // no record is present twice
    ghost single: { unique (rows_of ledger.present.items) ≡ true },
    // the commits of the entries ascend, up to the latest moment
    ghost ascends: { ascending (waiting ledger.line ledger.journal.now) ≡ true },
    ghost commits: { list_all (λ entry. nat_le entry.commit snapshots.latest) (waiting ledger.line ledger.journal.now) ≡ true },
    ghost dates: { list_all (dated snapshots.latest) (versions ledger.present.items (waiting ledger.line ledger.journal.now)) ≡ true },
    // a kept entry tells a made moment exactly if it is above the floor
    ghost told: { list_all (rightly floor (waiting ledger.line ledger.journal.now)) (versions ledger.present.items (waiting ledger.line ledger.journal.now)) ≡ true },
    // of a record the versions visible at a moment from the floor on are the one that it holds there, or none
    ghost apart: { ((m t k : ℕ) → is_shown floor ledger.present.items (waiting ledger.line ledger.journal.now) m t k ≡ true) },
}
