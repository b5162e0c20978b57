// How records, changes, queries, readings, intervals, tags, keys and faults are written. These are the words of one program
// (a door, a ticket), so they stand here and not in the crates of the types, and a trait of another crate needs a type of this one.
use cache::{Entry, Key};
use database::Answer;
use std::fmt;
use terms::{Change, Fault, Interval, Query, Reading, RecordId, Tag, Until, Value};

// A value that is to be written.
#[derive(Clone, Copy)]
pub struct Shown<T>(pub T);

impl fmt::Display for Shown<Reading> {
    fn fmt<W: fmt::Write>(&self, f: &mut fmt::Formatter<W>) -> fmt::Result {
        match self.0 {
            Some((one, other)) => write!(f, "({one}, {other})"),
            None => write!(f, "none"),
        }
    }
}

impl fmt::Display for Shown<Value> {
    fn fmt<W: fmt::Write>(&self, f: &mut fmt::Formatter<W>) -> fmt::Result {
        let Value { state, word } = self.0;
        write!(f, "({state}, {word})")
    }
}

impl fmt::Display for Shown<RecordId> {
    fn fmt<W: fmt::Write>(&self, f: &mut fmt::Formatter<W>) -> fmt::Result {
        let RecordId { table, key } = self.0;
        match table {
            0 => write!(f, "door {key}"),
            1 => write!(f, "ticket {key}"),
            _ => write!(f, "record {key} of table {table}"),
        }
    }
}

impl fmt::Display for Shown<Change> {
    fn fmt<W: fmt::Write>(&self, f: &mut fmt::Formatter<W>) -> fmt::Result {
        match self.0 {
            Change::Set { id, value } => write!(f, "{} becomes {}", Shown(id), Shown(value)),
            Change::Delete { id } => write!(f, "{} goes", Shown(id)),
        }
    }
}

impl fmt::Display for Shown<Query> {
    fn fmt<W: fmt::Write>(&self, f: &mut fmt::Formatter<W>) -> fmt::Result {
        match self.0 {
            Query::Get { id } => write!(f, "{}", Shown(id)),
            Query::Tally { table: 0, state: 0 } => write!(f, "free doors"),
            Query::Tally { table: 0, state: 1 } => write!(f, "taken doors"),
            Query::Tally { table, state } => write!(f, "state {state} of table {table}"),
        }
    }
}

impl fmt::Display for Shown<Interval> {
    fn fmt<W: fmt::Write>(&self, f: &mut fmt::Formatter<W>) -> fmt::Result {
        let first = self.0.first;
        match self.0.until {
            Until::Ended { end } => write!(f, "from {first}, end {end}"),
            Until::Open { through } => write!(f, "from {first}, open through {through}"),
        }
    }
}

// A table and a key, or a star for all of the table.
impl fmt::Display for Shown<Tag> {
    fn fmt<W: fmt::Write>(&self, f: &mut fmt::Formatter<W>) -> fmt::Result {
        let table = self.0.table;
        match self.0.key {
            Some(key) => write!(f, "{table}:{key}"),
            None => write!(f, "{table}:*"),
        }
    }
}

impl fmt::Display for Shown<Fault> {
    fn fmt<W: fmt::Write>(&self, f: &mut fmt::Formatter<W>) -> fmt::Result {
        let number = self.0.number();
        let place = self.0.place();
        write!(f, "refused, {number} at place {place}")
    }
}

impl fmt::Display for Shown<Answer> {
    fn fmt<W: fmt::Write>(&self, f: &mut fmt::Formatter<W>) -> fmt::Result {
        let reading = Shown(self.0.reading);
        let interval = Shown(self.0.interval);
        let tag = Shown(self.0.tag);
        write!(f, "{reading}, {interval}, tag {tag}")
    }
}

impl fmt::Display for Shown<Key> {
    fn fmt<W: fmt::Write>(&self, f: &mut fmt::Formatter<W>) -> fmt::Result {
        let Key { sheet, argument } = self.0;
        write!(f, "sheet {sheet} of {argument}")
    }
}

// The entry that a look-up gave, or a miss.
impl fmt::Display for Shown<Option<Entry>> {
    fn fmt<W: fmt::Write>(&self, f: &mut fmt::Formatter<W>) -> fmt::Result {
        match self.0 {
            Some(entry) => write!(f, "{}, {}", Shown(entry.reading), Shown(entry.interval)),
            None => write!(f, "miss"),
        }
    }
}
