// Records, changes to them and queries over them.
ghost use Rattle.std.specs.Prelude.{◌≡◌};
ghost use Rattle.terms.specs.Records.{one_tag, shown, change_id, change_value, change_tag, query_tag, known_table};

use crate::tag::Tag;

// The name of a record: its table, 0 to 7, and its key. A table from outside may be any byte.
#[derive(Clone, Copy, PartialEq, Eq, Default)]
pub struct RecordId {
    pub table: u8,
    pub key: u32,
}

// What a record holds where it is not absent.
#[derive(Clone, Copy, PartialEq, Eq)]
pub struct Value {
    pub state: u8,
    pub word: u32,
}

// A record that is present, with what it holds.
#[derive(Clone, Copy, PartialEq, Eq)]
pub struct Row {
    pub id: RecordId,
    pub value: Value,
}

// Absent, or a pair of numbers.
pub type Reading = Option<(u32, u32)>;

#[derive(Clone, Copy, PartialEq, Eq)]
pub enum Change {
    Set { id: RecordId, value: Value },
    Delete { id: RecordId },
}

// A get reads one record. A tally counts the records of a table in a state, and tells their smallest key.
#[derive(Clone, Copy, PartialEq, Eq)]
pub enum Query {
    Get { id: RecordId },
    Tally { table: u8, state: u8 },
}

// Whether a table is one of the eight.
pub fn is_table(table: u8) -> bool
    ensures { result ≡ known_table table }
{
    table < 8
}

impl RecordId {
    // Whether the table is one of the eight.
    pub fn is_known(self) -> bool
        ensures { result ≡ known_table self.table }
    {
        is_table(self.table)
    }

    pub fn tag(self) -> Tag
        ensures { result ≡ one_tag self }
    {
        Tag {
            table: self.table,
            key: Some(self.key),
        }
    }
}

// A value as a pair of numbers, its state first.
impl From<Value> for (u32, u32) {
    ghost from_gives = { λ value pair. pair ≡ record { 0 = value.state; 1 = value.word } };

    fn from(value: Value) -> (u32, u32) {
        (u32::from(value.state), value.word)
    }
}

// What a get reads of a record.
pub fn reading_of(found: Option<Value>) -> Reading
    ensures { result ≡ shown found }
{
    found.map(<(u32, u32)>::from)
}

impl Change {
    pub fn id(self) -> RecordId
        ensures { result ≡ change_id self }
    {
        match self {
            Change::Set { id, .. } => id,
            Change::Delete { id } => id,
        }
    }

    // What the record holds after the change.
    pub fn value(self) -> Option<Value>
        ensures { result ≡ change_value self }
    {
        match self {
            Change::Set { value, .. } => Some(value),
            Change::Delete { .. } => None,
        }
    }

    pub fn tag(self) -> Tag
        ensures { result ≡ change_tag self }
    {
        self.id().tag()
    }
}

impl Query {
    pub fn tag(self) -> Tag
        ensures { result ≡ query_tag self }
    {
        match self {
            Query::Get { id } => id.tag(),
            Query::Tally { table, .. } => Tag { table, key: None },
        }
    }
}
