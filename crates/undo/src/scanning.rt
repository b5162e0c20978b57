// The pass over present records and entries that answers a query.
ghost use Rattle.std.specs.Prelude.{◌≡◌, ◌+◌, ◌≤◌, map, vec_len};
ghost use Rattle.std.specs.List.{flat_map};
ghost use Rattle.line.specs.Rings.{waiting};
ghost use Rattle.validity.specs.Scans.{scanned_all, found};
ghost use Rattle.undo.specs.Versions.{current, replaced_by, versions};

use crate::entry::{Entry, Present};
use crate::ledger::Ledger;
use terms::{Moment, Query, Row};
use validity::{Scan, Version};

// The scan with the version that an entry tells.
fn scan_entry(scan: Scan, entry: Entry) -> Scan
    ensures { result ≡ scanned_all (replaced_by entry) scan }
{
    entry.former.map_or(scan, |held| {
        scan.with(Version {
            row: Row {
                id: entry.id,
                value: held.value,
            },
            made: held.made,
            replaced: Some(entry.commit),
        })
    })
}

// The scan with the versions that present records are. A `for` each for these and for entries, which tell a version or none:
// in a fold's closure the search does not see through a pass.
fn scan_present(scan: Scan, present: &[Present]) -> Scan
    ensures { result ≡ scanned_all (map current present.now) scan }
{
    let mut scan = scan;
    for p in present {
        scan = scan.with(Version::from(*p));
    }
    scan
}

// The scan with the versions that entries tell.
fn scan_entries(scan: Scan, entries: &[Entry]) -> Scan
    ensures { result ≡ scanned_all (flat_map replaced_by entries.now) scan }
{
    let mut scan = scan;
    for entry in entries {
        scan = scan_entry(scan, *entry);
    }
    scan
}

impl Ledger<'_> {
    // What present records and entries tell of a query at a moment, where made moments up to the floor are not told: one pass over each.
    pub(crate) fn scan(&self, floor: Moment, moment: Moment, query: Query) -> Scan
        requires { vec_len self.now.present + self.now.line.len ≤ 4294967295 }
        ensures { result ≡ found (Some floor) moment query (versions self.now.present.items (waiting self.now.line self.now.journal.now)) }
    {
        let (older, newer) = self.line.as_slices(self.journal);
        let scan = scan_present(Scan::new(Some(floor), moment, query), &self.present);
        scan_entries(scan_entries(scan, older), newer)
    }
}
