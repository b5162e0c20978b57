// One refusal of each kind that a store can give, with its number and place.
use crate::shown::Shown;
use crate::telling::{door, set, tell_ask, tell_pin, ticket};
use database::Database;
use std::io;
use terms::{Change, Fault, Query, RecordId};

// A write that is to be refused.
fn tell_refused<D: Database>(
    rt: &impl Print,
    store: &mut D,
    name: &str,
    changes: &[Change],
) -> io::Result<()> {
    match store.write(changes) {
        Ok(moment) => println!(rt; "{name}: written at {moment}"),
        Err(fault) => println!(rt; "{name}: {}", Shown(fault)),
    }
}

fn tell_writes<D: Database>(rt: &impl Print, store: &mut D) -> io::Result<()> {
    let one = set(door(7), 0, 0);
    let two = set(door(8), 0, 0);
    let nowhere = Change::Delete {
        id: RecordId { table: 8, key: 7 },
    };
    tell_refused(rt, store, "no change", &[])?;
    tell_refused(rt, store, "17 changes", &[one; 17])?;
    tell_refused(rt, store, "door 7, door 8, door 7", &[one, two, one])?;
    tell_refused(rt, store, "door 7, door 8, table 8", &[one, two, nowhere])?;
    let five = [
        one,
        two,
        set(door(9), 0, 0),
        set(door(10), 0, 0),
        set(door(11), 0, 0),
    ];
    tell_refused(rt, store, "5 changes", &five)
}

// Pins 32 moments, between which a ticket goes that is not there, and then one more.
fn tell_pins<D: Database>(rt: &impl Print, store: &mut D) -> io::Result<()> {
    for _ in 0..32 {
        let _ = store.pin();
        let _ = store.write(&[Change::Delete { id: ticket(1) }]);
    }
    println!(rt; "32 moments are pinned, each while it is the latest")?;
    tell_pin(rt, store)
}

// For a store after its day.
pub fn tell_refusals<D: Database>(rt: &impl Print, store: &mut D) -> io::Result<()> {
    println!(rt; "What is refused")?;
    tell_ask(rt, store, 11, Query::Get { id: door(5) })?;
    tell_writes(rt, store)?;
    let latest = store.latest();
    println!(rt;
        "and nothing has changed: the latest moment is {latest}, free number {}",
        store.free()
    )?;
    tell_pins(rt, store)
}

// For a store at the highest moment.
pub fn tell_end<D: Database>(rt: &impl Print, store: &mut D) -> io::Result<()> {
    tell_refused(
        rt,
        store,
        "a write at the highest moment",
        &[set(door(7), 0, 0)],
    )
}

// The making of a store.
pub fn tell_making<S: Drop>(
    rt: &impl Print,
    name: &str,
    store: Result<S, Fault>,
) -> io::Result<()> {
    match store {
        Ok(_) => println!(rt; "a store with {name}: made"),
        Err(fault) => println!(rt; "a store with {name}: {}", Shown(fault)),
    }
}
