// The line at the two types that it is for: entries of a lent journal, and rows in a table of its owner's.
ghost use Rattle.std.specs.Prelude.{◌≡◌, true, [], ◌∷◌, ◌++◌, length, drop, is_ok};
ghost use Rattle.std.specs.List.{slice_get};
ghost use Rattle.line.specs.Rings.{waiting, admission};

use crate::{Line, Refusal};
use std::test::Fail;

#[derive(Clone, Copy)]
struct Entry {
    commit: u64,
    former: Option<u32>,
}

#[derive(Drop)]
struct Journal<'a> {
    entries: &'a mut [Entry],
    line: Line,
}

impl Journal<'_> {
    fn keep(&mut self, entry: Entry) -> Result<(), Refusal>
        ensures answer { result ≡ admission self.old.line self.old.entries.now }
        ensures kept { is_ok result ≡ true → waiting self.new.line self.new.entries.now ≡ waiting self.old.line self.old.entries.now ++ entry ∷ [] }
    {
        self.line.push(self.entries, entry)
    }

    fn forget(&mut self) -> Option<Entry>
        ensures first { result ≡ slice_get (waiting self.old.line self.old.entries.now) 0 }
        ensures rest { waiting self.new.line self.new.entries.now ≡ drop 1 (waiting self.old.line self.old.entries.now) }
    {
        // a field that is a `&mut` is lent for reading from a variable
        let entries = &mut *self.entries;
        let mut line = self.line;
        let oldest = line.pop(entries);
        self.line = line;
        oldest
    }

    fn entry(&self, i: usize) -> Option<Entry>
        ensures { result ≡ slice_get (waiting self.now.line self.now.entries.now) i }
    {
        self.line.get(self.entries, i)
    }
}

#[derive(Clone, Copy)]
struct Row {
    moment: u64,
    table: u8,
}

#[derive(Drop)]
struct Stream {
    rows: [Row; 8],
    line: Line,
    ghost whole: { length rows ≡ 8 },
}

impl Stream {
    fn new(size: usize) -> Option<Stream> {
        let empty = Row {
            moment: 0,
            table: 0,
        };
        let line = Line::new(size)?;
        Some(Stream {
            rows: [empty; 8],
            line,
        })
    }

    fn note(&mut self, row: Row) -> Result<(), Refusal>
        ensures kept { is_ok result ≡ true → waiting self.new.line self.new.rows ≡ waiting self.old.line self.old.rows ++ row ∷ [] }
    {
        self.line.push(&mut self.rows, row)
    }

    fn deliver(&mut self) -> Option<Row>
        ensures first { result ≡ slice_get (waiting self.old.line self.old.rows) 0 }
        ensures rest { waiting self.new.line self.new.rows ≡ drop 1 (waiting self.old.line self.old.rows) }
    {
        self.line.pop(&self.rows)
    }
}

fn entry_of(commit: u64) -> Entry {
    Entry {
        commit,
        former: None,
    }
}

#[test]
fn entries_wait_past_the_wrap(rt: HostRuntime) -> Result<(), Fail> {
    let mut places = [entry_of(0); 4];
    let line = Line::new(3).ok_or("a line")?;
    let mut journal = Journal {
        entries: &mut places,
        line,
    };
    for commit in 1..4 {
        assert!(rt; journal.keep(entry_of(commit)).is_ok());
    }
    assert!(rt; journal.keep(entry_of(9)).is_err(), "full");
    for commit in 4..9 {
        assert_eq!(rt; journal.forget().ok_or("the oldest")?.commit, commit - 3);
        assert!(rt; journal.keep(entry_of(commit)).is_ok());
    }
    for (i, commit) in (6..9).enumerate() {
        assert_eq!(rt; journal.entry(i).ok_or("an entry")?.commit, commit);
    }
    assert!(rt; journal.entry(3).is_none());
    assert_eq!(rt; places[3].commit, 0, "past the line's last place");
    Ok(())
}

#[test]
fn rows_wait_past_the_wrap(rt: HostRuntime) -> Result<(), Fail> {
    let mut stream = Stream::new(5).ok_or("a stream")?;
    for moment in 1..20 {
        assert!(rt; stream.note(Row { moment, table: 1 }).is_ok());
        assert!(rt; stream.note(Row { moment, table: 2 }).is_ok());
        let first = stream.deliver().ok_or("the first row")?;
        let second = stream.deliver().ok_or("the second row")?;
        assert_eq!(rt; (first.moment, first.table), (moment, 1));
        assert_eq!(rt; (second.moment, second.table), (moment, 2));
    }
    assert!(rt; stream.deliver().is_none());
    Ok(())
}

#[test]
fn a_short_slice_is_refused(rt: HostRuntime) -> Result<(), Fail> {
    let mut places = [7u8, 8];
    let mut more = [0u8; 3];
    let mut line = Line::new(3).ok_or("a line")?;
    assert!(rt; matches!(line.push(&mut places, 9), Err(Refusal::Short)));
    assert!(rt; line.push(&mut more, 1).is_ok());
    assert!(rt; line.push(&mut more, 2).is_ok());
    assert_eq!(rt; line.pop(&places), None);
    assert_eq!(rt; (line.count(&places), line.count(&more)), (0, 2));
    line.skip(1);
    assert_eq!(rt; line.front(&more), Some(2));
    line.clear();
    assert!(rt; line.is_empty());
    assert!(rt; Line::new(0).is_none());
    Ok(())
}
