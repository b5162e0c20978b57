// The version store, as it lies in memory.
ghost use Rattle.std.specs.Prelude.{◌≡◌, ℕ, ◌≤◌, true, vec_len, vec_capacity};
ghost use Rattle.std.specs.List.{list_all};
ghost use Rattle.database.specs.Rows.{unique};
ghost use Rattle.validity.specs.Versions.{rows_at, dated};

use database::snapshots::Snapshots;
use validity::Version;

// A database of up to `places` versions. Their room is reserved at the making.
#[derive(Drop)]
pub struct VersionStore {
    pub(crate) places: usize,
    pub(crate) snapshots: Snapshots,
    pub(crate) versions: Vec<Version>,
    ghost size: { places ≤ 4096 },
    ghost fits: { vec_len versions ≤ places },
    ghost room: { places ≤ vec_capacity versions },
    // no version was made or replaced after the latest moment
    ghost dated: { list_all (dated snapshots.latest) versions.items ≡ true },
    // no two versions of a record are visible at one moment
    ghost apart: { ((m : ℕ) → unique (rows_at m versions.items) ≡ true) },
}
