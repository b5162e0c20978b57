// One line, or a few, for each call of a database. What prints and the store stand before it in each: a struct of the two
// would say no more, and the calls that follow each other would lend it one by one.
ghost use Rattle.std.specs.Prelude.{◌≡◌};
ghost use Rattle.terms.specs.declared.record.Change.TheVariants.{Set};
ghost use Rattle.terms.specs.declared.record.Query.TheVariants.{Tally};

use crate::shown::Shown;
use database::Database;
use database::agree::agree;
use std::io;
use terms::{Change, Fault, Moment, Query, Reading, RecordId, Value};

const DOORS: u8 = 0;

const TICKETS: u8 = 1;

pub fn door(key: u32) -> RecordId
    ensures { result ≡ record { table = 0; key = key } }
{
    RecordId { table: DOORS, key }
}

pub fn ticket(key: u32) -> RecordId
    ensures { result ≡ record { table = 1; key = key } }
{
    RecordId {
        table: TICKETS,
        key,
    }
}

pub fn set(id: RecordId, state: u8, word: u32) -> Change
    ensures { result ≡ Set id (record { state = state; word = word }) }
{
    Change::Set {
        id,
        value: Value { state, word },
    }
}

// The doors in a state.
pub fn doors(state: u8) -> Query
    ensures { result ≡ Tally 0 state }
{
    Query::Tally {
        table: DOORS,
        state,
    }
}

pub fn tell_free<D: Database>(rt: &impl Print, store: &D) -> io::Result<()> {
    let free = store.free();
    println!(rt; "free number {free}")
}

// Pins the latest moment.
pub fn tell_pin<D: Database>(rt: &impl Print, store: &mut D) -> io::Result<()> {
    match store.pin() {
        Ok(moment) => println!(rt; "{moment} is pinned, free number {}", store.free()),
        Err(fault) => println!(rt; "a pin: {}", Shown(fault)),
    }
}

// Makes changes, each of which has a line.
pub fn tell_write<D: Database>(
    rt: &impl Print,
    store: &mut D,
    changes: &[Change],
) -> io::Result<()> {
    match store.write(changes) {
        Ok(moment) => {
            for change in changes {
                println!(rt; "at {moment} {}", Shown(*change))?;
            }
            Ok(())
        }
        Err(fault) => println!(rt; "a write: {}", Shown(fault)),
    }
}

pub fn tell_ask<D: Database>(
    rt: &impl Print,
    store: &D,
    moment: Moment,
    query: Query,
) -> io::Result<()> {
    print!(rt; "{} at {moment}: ", Shown(query))?;
    match store.ask(moment, query) {
        Ok(answer) => println!(rt; "{}", Shown(answer)),
        Err(fault) => println!(rt; "{}", Shown(fault)),
    }
}

// What a sheet is worth at a moment.
pub fn tell_sheet(
    rt: &impl Print,
    name: &str,
    moment: Moment,
    worth: Result<Reading, Fault>,
) -> io::Result<()> {
    match worth {
        Ok(reading) => println!(rt; "{name} at {moment}: {}", Shown(reading)),
        Err(fault) => println!(rt; "{name} at {moment}: {}", Shown(fault)),
    }
}

// Whether two databases read a query alike at a moment.
pub fn tell_agreement<A: Database, B: Database>(
    rt: &impl Print,
    one: &A,
    other: &B,
    moment: Moment,
    query: Query,
) -> io::Result<()> {
    match agree(one, other, moment, query) {
        Ok(true) => println!(rt; "{} at {moment}: read alike", Shown(query)),
        Ok(false) => println!(rt; "{} at {moment}: read otherwise", Shown(query)),
        Err(fault) => println!(rt; "{} at {moment}: {}", Shown(query), Shown(fault)),
    }
}
