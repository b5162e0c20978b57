// The day of a store: what happened, what is read at each moment, what the sheets are worth, and what is reclaimed.
use crate::telling::{
    door, doors, set, tell_agreement, tell_ask, tell_free, tell_pin, tell_sheet, tell_write, ticket,
};
use database::Database;
use recipe::{claim_sheet, counts_sheet, tally_sheet};
use std::io;
use terms::{Change, Query, RecordId};

// Door 5 comes in, is taken with ticket 900, and is given back; each moment is pinned while it is the latest.
fn tell_changes<D: Database>(rt: &impl Print, store: &mut D) -> io::Result<()> {
    tell_pin(rt, store)?;
    tell_write(rt, store, &[set(door(5), 0, 0)])?;
    tell_pin(rt, store)?;
    tell_write(rt, store, &[set(ticket(900), 1, 5), set(door(5), 1, 900)])?;
    tell_pin(rt, store)?;
    tell_write(
        rt,
        store,
        &[Change::Delete { id: ticket(900) }, set(door(5), 0, 0)],
    )?;
    tell_pin(rt, store)
}

// A query at each moment of the day.
fn tell_query<D: Database>(rt: &impl Print, store: &D, query: Query) -> io::Result<()> {
    for moment in 10..14 {
        tell_ask(rt, store, moment, query)?;
    }
    Ok(())
}

fn tell_readings<D: Database>(rt: &impl Print, store: &D) -> io::Result<()> {
    println!(rt; "What is read")?;
    tell_query(rt, store, Query::Get { id: door(5) })?;
    tell_query(rt, store, Query::Get { id: ticket(900) })?;
    tell_query(rt, store, doors(0))?;
    tell_query(rt, store, doors(1))?;
    let nowhere = RecordId { table: 8, key: 5 };
    tell_ask(rt, store, 13, Query::Get { id: nowhere })
}

// The claim of ticket 900 and the board, at each moment of the day.
fn tell_sheets<D: Database>(rt: &impl Print, store: &D) -> io::Result<()> {
    println!(rt; "What the sheets are worth")?;
    for moment in 10..14 {
        tell_sheet(rt, "claim 900", moment, claim_sheet(store, moment, 900))?;
        tell_sheet(
            rt,
            "board, free doors",
            moment,
            tally_sheet(store, moment, 0),
        )?;
        tell_sheet(
            rt,
            "board, taken doors",
            moment,
            tally_sheet(store, moment, 1),
        )?;
        tell_sheet(rt, "board, counts", moment, counts_sheet(store, moment))?;
    }
    Ok(())
}

// What no held moment shows is let go by the next write, and no sooner.
fn tell_reclaim<D: Database>(rt: &impl Print, store: &mut D) -> io::Result<()> {
    println!(rt; "What is let go")?;
    let get = Query::Get { id: door(5) };
    store.unpin(11);
    println!(rt; "11 is pinned no longer")?;
    tell_free(rt, store)?;
    tell_ask(rt, store, 10, get)?;
    tell_write(rt, store, &[set(door(6), 0, 0)])?;
    tell_free(rt, store)?;
    tell_ask(rt, store, 10, get)?;
    tell_ask(rt, store, 14, doors(0))?;
    store.unpin_all();
    println!(rt; "no moment is pinned")?;
    tell_free(rt, store)?;
    tell_write(rt, store, &[set(door(5), 0, 0)])?;
    tell_free(rt, store)?;
    tell_ask(rt, store, 15, get)
}

// For any kind of database that starts empty at 10.
pub fn tell_day<D: Database>(rt: &impl Print, store: &mut D) -> io::Result<()> {
    tell_changes(rt, store)?;
    tell_readings(rt, store)?;
    tell_sheets(rt, store)?;
    tell_reclaim(rt, store)
}

// Two databases of any kinds that start empty at 10, through the changes of the day.
pub fn tell_both<A: Database, B: Database>(
    rt: &impl Print,
    one: &mut A,
    other: &mut B,
) -> io::Result<()> {
    tell_changes(rt, one)?;
    tell_changes(rt, other)?;
    for moment in 10..14 {
        tell_agreement(rt, one, other, moment, Query::Get { id: door(5) })?;
        tell_agreement(rt, one, other, moment, Query::Get { id: ticket(900) })?;
        tell_agreement(rt, one, other, moment, doors(0))?;
        tell_agreement(rt, one, other, moment, doors(1))?;
    }
    Ok(())
}
