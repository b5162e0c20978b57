// Walks over lists of versions.
ghost use Rattle.std.specs.Prelude.{◌≡◌, ◌+◌, ◌<◌, ◌≤◌, length, vec_len, vec_capacity, filter};
ghost use Rattle.std.specs.List.{list_any};
ghost use Rattle.validity.specs.Versions.{visible};
ghost use Rattle.validity.specs.Scans.{found};
ghost use Rattle.versions.specs.Versions.{needed, retired, changed_by, changed_by_all};

use database::snapshots::Snapshots;
use terms::{Change, Moment, Query, RecordId, Row};
use validity::{Scan, Version};

// Whether the version is visible at one of the moments.
fn is_seen(version: Version, moments: &[Moment]) -> bool
    ensures { result ≡ list_any (λ moment. visible moment version) moments.now }
{
    moments.iter().any(|moment| version.is_visible(*moment))
}

// Whether the version is visible at a held moment.
fn is_needed(version: Version, snapshots: &Snapshots) -> bool
    ensures { result ≡ needed snapshots.now.latest snapshots.now.pins.moments.items version }
{
    version.is_visible(snapshots.latest()) || is_seen(version, snapshots.pins())
}

// How many versions are visible at a held moment. Counted by hand: the count of a filter took half as long again (DESIGN-PASS.md).
pub(crate) fn count_needed(versions: &[Version], snapshots: &Snapshots) -> usize
    ensures { result ≡ length (filter (needed snapshots.now.latest snapshots.now.pins.moments.items) versions.now) }
{
    let mut needed = 0;
    for version in versions {
        if is_needed(*version, snapshots) {
            needed += 1;
        }
    }
    needed
}

// Lets go of the versions that are visible at no held moment.
// That the room stays is said here and of each change: between the steps of a write the list stands without the store, whose type says it.
pub(crate) fn discard(versions: &mut Vec<Version>, snapshots: &Snapshots)
    ensures items { versions.new.items ≡ filter (needed snapshots.now.latest snapshots.now.pins.moments.items) versions.old.items }
    ensures capacity { vec_capacity versions.new ≡ vec_capacity versions.old }
{
    versions.retain(|version| is_needed(*version, snapshots));
}

// The version as it is after its record was changed at a moment.
fn retire(version: Version, moment: Moment, id: RecordId) -> Version
    ensures { result ≡ retired moment id version }
{
    if version.replaced.is_none() && id == version.row.id {
        Version {
            replaced: Some(moment),
            ..version
        }
    } else {
        version
    }
}

// One change: the present version of its record ends, and a set makes one. Moment and change are no struct: a write has one for many.
#[tactic(auto, using(crate::proofs::Maps::map_at, crate::proofs::Maps::map_all))]
fn change_one(versions: &mut Vec<Version>, moment: Moment, change: Change)
    requires { vec_len versions.old + 1 ≤ vec_capacity versions.old }
    ensures items { versions.new.items ≡ changed_by moment change versions.old.items }
    ensures capacity { vec_capacity versions.new ≡ vec_capacity versions.old }
    ensures len { vec_len versions.new ≤ vec_len versions.old + 1 }
{
    let changed = change.id();
    for version in versions.iter_mut() {
        *version = retire(*version, moment, changed);
    }
    if let Change::Set { id, value } = change {
        versions.push_reserved(Version {
            row: Row { id, value },
            made: moment,
            replaced: None,
        });
    }
}

// All changes, one after the other.
pub(crate) fn change_all(versions: &mut Vec<Version>, moment: Moment, changes: &[Change])
    requires { vec_len versions.old + length changes.now ≤ vec_capacity versions.old }
    ensures items { versions.new.items ≡ changed_by_all moment changes.now versions.old.items }
    ensures capacity { vec_capacity versions.new ≡ vec_capacity versions.old }
    ensures len { vec_len versions.new ≤ vec_len versions.old + length changes.now }
{
    for change in changes {
        change_one(versions, moment, *change);
    }
}

// What the versions tell of a query at a moment, in one pass.
pub(crate) fn scan_all(versions: &[Version], moment: Moment, query: Query) -> Scan
    requires { length versions.now < 4294967295 }
    ensures { result ≡ found None moment query versions.now }
{
    Scan::new(None, moment, query).with_all(versions)
}
