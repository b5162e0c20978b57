// What the trials share: changes, a day of a store, and answers as plain values that can be compared.
use database::{Answer, Database};
use std::process::Abort;
use terms::{Change, Fault, Moment, Query, Reading, RecordId, Until, Value};

pub fn set(table: u8, key: u32, state: u8, word: u32) -> Change {
    Change::Set {
        id: RecordId { table, key },
        value: Value { state, word },
    }
}

pub fn delete(table: u8, key: u32) -> Change {
    Change::Delete {
        id: RecordId { table, key },
    }
}

pub fn get(table: u8, key: u32) -> Query {
    Query::Get {
        id: RecordId { table, key },
    }
}

pub fn tally(table: u8, state: u8) -> Query {
    Query::Tally { table, state }
}

// The number and place of a refusal, or 0 and 0: the tests keep their values, and a case table names refusals by number.
pub fn fault_of<T: Drop>(res: Result<T, Fault>) -> (u8, usize) {
    match res {
        Ok(_) => (0, 0),
        Err(fault) => (fault.number(), fault.place()),
    }
}

// A reading, its first moment, and its end or its through; a table of cases says it in one line, as it did before.
pub type Read = (Reading, Moment, (&'static str, u64));

pub fn read_of(res: Result<Answer, Fault>) -> Read {
    match res {
        Ok(answer) => {
            let until = match answer.interval.until {
                Until::Ended { end } => ("end", end),
                Until::Open { through } => ("through", through),
            };
            (answer.reading, answer.interval.first, until)
        }
        Err(_) => (None, 0, ("refused", 0)),
    }
}

// Pins the latest moment, and makes changes.
fn pin_and_write<D: Database>(rt: &impl Abort, store: &mut D, changes: &[Change]) {
    assert!(rt; store.pin().is_ok());
    assert!(rt; store.write(changes).is_ok());
}

// The day of a store that starts at 10: door 5 comes in, is taken with ticket 900, and is given back. 10 to 13 are pinned.
pub fn spend_day<D: Database>(rt: &impl Abort, store: &mut D) {
    pin_and_write(rt, store, &[set(0, 5, 0, 0)]);
    pin_and_write(rt, store, &[set(1, 900, 1, 5), set(0, 5, 1, 900)]);
    pin_and_write(rt, store, &[delete(1, 900), set(0, 5, 0, 0)]);
    assert!(rt; store.pin().is_ok());
}
