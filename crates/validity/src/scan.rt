// One pass over versions, which answers a query at a moment.
ghost use Rattle.std.specs.Prelude.{◌≡◌, []};
ghost use Rattle.validity.specs.Scans.{counts, summary, turned_by, read_more, read_by, scanned, scanned_all, scan_answer};

use crate::version::Version;
use database::Answer;
use database::queries::{matches_row, rests_on};
use terms::record::reading_of;
use terms::{Interval, Moment, Query, Reading, Row};

// The reading, and the made and replaced moments next to the moment asked: the greatest up to it, and the smallest above it.
#[derive(Clone, Copy)]
pub struct Scan {
    pub query: Query,
    pub moment: Moment,
    // made moments up to here are not told; where there is no floor, all are
    pub floor: Option<Moment>,
    pub reading: Reading,
    pub first: Moment,
    pub end: Option<Moment>,
}

// The reading with one more record that the query reads.
fn read_more(query: Query, reading: Reading, row: Row) -> Reading
    ensures { result ≡ read_more query reading row }
{
    match query {
        Query::Get { .. } => reading.or(reading_of(Some(row.value))),
        Query::Tally { .. } => Some(reading.map_or((1, row.id.key), |(count, least)| {
            (count.saturating_add(1), least.min(row.id.key))
        })),
    }
}

impl Scan {
    // Nothing has been read yet.
    pub fn new(floor: Option<Moment>, moment: Moment, query: Query) -> Scan
        ensures { result ≡ summary floor moment query [] [] }
    {
        Scan {
            query,
            moment,
            floor,
            reading: None,
            first: 0,
            end: None,
        }
    }

    // The scan with one more made or replaced moment.
    pub fn turned(self, turn: Moment) -> Scan
        ensures { result ≡ turned_by turn self }
    {
        if turn <= self.moment {
            return Scan {
                first: self.first.max(turn),
                ..self
            };
        }
        Scan {
            end: Some(self.end.map_or(turn, |end| end.min(turn))),
            ..self
        }
    }

    // The scan with one more record that the query reads.
    pub fn read(self, row: Row) -> Scan
        ensures { result ≡ read_by row self }
    {
        Scan {
            reading: read_more(self.query, self.reading, row),
            ..self
        }
    }

    // Whether the made moment of a version counts.
    fn is_told(self, version: Version) -> bool
        ensures { result ≡ counts self.floor version }
    {
        self.floor.is_none_or(|floor| floor < version.made)
    }

    // The scan with one more version. Inlined, so that a pass keeps its scan in registers.
    #[inline]
    pub fn with(self, version: Version) -> Scan
        ensures { result ≡ scanned version self }
    {
        if !matches_row(self.query, version.row) {
            return self;
        }
        let mut scan = self;
        if self.is_told(version) {
            scan = scan.turned(version.made);
        }
        if let Some(replaced) = version.replaced {
            scan = scan.turned(replaced);
        }
        if version.is_visible(self.moment) {
            scan = scan.read(version.row);
        }
        scan
    }

    // The scan with some more versions. A `for`, and no fold: the search does not see through a pass in a fold's closure.
    // What does not match is passed over here already, so that it is not copied.
    pub fn with_all(self, versions: &[Version]) -> Scan
        ensures { result ≡ scanned_all versions.now self }
    {
        let mut scan = self;
        for version in versions {
            if matches_row(scan.query, version.row) {
                scan = scan.with(*version);
            }
        }
        scan
    }

    // The answer of a store with this latest moment.
    pub fn answer(self, latest: Moment) -> Answer
        ensures { result ≡ scan_answer latest self }
    {
        let interval = match self.end {
            Some(end) => Interval::ended(self.first, end),
            None => Interval::open(self.first, latest),
        };
        Answer {
            reading: self.reading,
            tag: rests_on(self.query),
            interval,
        }
    }
}
