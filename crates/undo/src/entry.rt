// What the undo store keeps of records.
ghost use Rattle.std.specs.Prelude.{◌≡◌};
ghost use Rattle.undo.specs.Versions.{current};

use terms::{Moment, RecordId, Row, Value};
use validity::Version;

// A value of a record, with the moment at which it was made.
#[derive(Clone, Copy, PartialEq, Eq)]
pub struct Held {
    pub value: Value,
    pub made: Moment,
}

// A present record, with the moment at which its value was made.
#[derive(Clone, Copy, PartialEq, Eq)]
pub struct Present {
    pub row: Row,
    pub made: Moment,
}

// What is held of a present record.
impl From<Present> for Held {
    ghost from_gives = { λ present held. held ≡ record { value = present.row.value; made = present.made } };

    fn from(present: Present) -> Held {
        Held {
            value: present.row.value,
            made: present.made,
        }
    }
}

// An entry of the journal: what a record held, if it was present, before a commit changed it.
#[derive(Clone, Copy, PartialEq, Eq, Default)]
pub struct Entry {
    pub commit: Moment,
    pub id: RecordId,
    pub former: Option<Held>,
}

// A present record is a version that has not been replaced.
impl From<Present> for Version {
    ghost from_gives = { λ p version. version ≡ current p };

    fn from(p: Present) -> Version {
        Version {
            row: p.row,
            made: p.made,
            replaced: None,
        }
    }
}
