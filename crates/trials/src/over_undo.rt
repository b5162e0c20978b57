// The trials over the undo store: the same tables, and where it differs from the version store.
use crate::hall::{delete, fault_of, get, read_of, set, spend_day, tally};
use crate::sheets::{boards, claims};
use crate::stores::{refuses, refuses_at_the_end, refuses_pins, tallies, tells_intervals};
use database::Database;
use database::agree::agree;
use terms::{Fault, HIGHEST};
use undo::{Entry, UndoStore};
use versions::VersionStore;

#[test]
fn undo_sizes(rt: HostRuntime) {
    let mut none = [Entry::default(); 0];
    let mut one = [Entry::default(); 1];
    let mut many = [Entry::default(); 4097];
    assert_eq!(rt;
        fault_of(UndoStore::new(rt.alloc(), &mut none, 10)),
        (61, 0)
    );
    assert_eq!(rt;
        fault_of(UndoStore::new(rt.alloc(), &mut many, 10)),
        (61, 0)
    );
    assert_eq!(rt;
        fault_of(UndoStore::new(rt.alloc(), &mut one, HIGHEST + 1)),
        (61, 0)
    );
}

#[test]
fn undo_faults(rt: HostRuntime) -> Result<(), Fault> {
    let mut six = [Entry::default(); 6];
    let mut last = [Entry::default(); 1];
    let mut one = [Entry::default(); 1];
    refuses(&rt, &mut UndoStore::new(rt.alloc(), &mut six, 10)?);
    refuses_at_the_end(&rt, &mut UndoStore::new(rt.alloc(), &mut last, HIGHEST)?);
    refuses_pins(&rt, &mut UndoStore::new(rt.alloc(), &mut one, 10)?);
    Ok(())
}

#[test]
fn undo_intervals(rt: HostRuntime) -> Result<(), Fault> {
    let mut six = [Entry::default(); 6];
    let mut more = [Entry::default(); 6];
    tells_intervals(&rt, &mut UndoStore::new(rt.alloc(), &mut six, 10)?);
    let mut store = UndoStore::new(rt.alloc(), &mut more, 10)?;
    tallies(&rt, &mut store);
    // made at 11, which no kept entry tells at 12
    assert_eq!(rt;
        read_of(store.ask(12, get(1, 9))),
        (Some((1, 5)), 0, ("through", 12))
    );
    Ok(())
}

// An entry is needed while its commit is above the lowest held moment; an unpin between others frees none.
#[test]
fn entries_that_are_let_go(rt: HostRuntime) -> Result<(), Fault> {
    let mut six = [Entry::default(); 6];
    let mut store = UndoStore::new(rt.alloc(), &mut six, 10)?;
    spend_day(&rt, &mut store);
    assert_eq!(rt; store.free(), 1, "five of six entries are needed");
    store.unpin(11);
    assert_eq!(rt; store.free(), 1, "10 is still the lowest");
    store.unpin(10);
    assert_eq!(rt; store.free(), 4, "two entries are above 12");
    assert_eq!(rt; fault_of(store.write(&[])), (41, 0));
    assert_eq!(rt;
        read_of(store.ask(12, tally(0, 1))),
        (Some((1, 5)), 12, ("end", 13))
    );
    assert_eq!(rt; fault_of(store.write(&[delete(0, 9)])), (0, 0));
    assert_eq!(rt;
        read_of(store.ask(12, tally(0, 1))),
        (Some((1, 5)), 0, ("end", 13)),
        "the entries of 12 are gone"
    );
    assert_eq!(rt; fault_of(store.write(&[set(0, 5, 0, 0)])), (0, 0));
    assert_eq!(rt; store.free(), 3, "an equal value leaves an entry");
    Ok(())
}

#[test]
fn stores_agree(rt: HostRuntime) -> Result<(), Fault> {
    let mut six = [Entry::default(); 6];
    let mut undo = UndoStore::new(rt.alloc(), &mut six, 10)?;
    let mut versions = VersionStore::new(rt.alloc(), 6, 10)?;
    spend_day(&rt, &mut undo);
    spend_day(&rt, &mut versions);
    for moment in 10..14u64 {
        for query in [get(0, 5), get(1, 900), tally(0, 0), tally(0, 1)] {
            assert!(rt; matches!(agree(&undo, &versions, moment, query), Ok(true)));
        }
    }
    claims(&rt, &undo);
    boards(&rt, &undo);
    Ok(())
}
