// The trials over the version store.
use crate::hall::{delete, fault_of, get, read_of, set, spend_day};
use crate::sheets::{boards, claims, claims_of_others, odd_recipes, unknown_before_deep};
use crate::stores::{refuses, refuses_at_the_end, refuses_pins, tallies, tells_intervals};
use database::Database;
use terms::{Fault, HIGHEST};
use versions::VersionStore;

#[test]
fn sizes_and_first_moments(rt: HostRuntime) {
    let cases = [
        (0, 10, (61, 0)),
        (4097, 10, (61, 0)),
        (usize::MAX, 10, (61, 0)),
        (6, HIGHEST + 1, (61, 0)),
        (6, u64::MAX, (61, 0)),
        (1, HIGHEST, (0, 0)),
        (4096, 0, (0, 0)),
    ];
    for (places, first, wanted) in cases {
        assert_eq!(rt;
            fault_of(VersionStore::new(rt.alloc(), places, first)),
            wanted
        );
    }
}

#[test]
fn faults(rt: HostRuntime) -> Result<(), Fault> {
    refuses(&rt, &mut VersionStore::new(rt.alloc(), 6, 10)?);
    refuses_at_the_end(&rt, &mut VersionStore::new(rt.alloc(), 1, HIGHEST)?);
    refuses_pins(&rt, &mut VersionStore::new(rt.alloc(), 1, 10)?);
    Ok(())
}

#[test]
fn intervals(rt: HostRuntime) -> Result<(), Fault> {
    tells_intervals(&rt, &mut VersionStore::new(rt.alloc(), 6, 10)?);
    let mut store = VersionStore::new(rt.alloc(), 6, 10)?;
    tallies(&rt, &mut store);
    // made at 11, which the store still tells at 12
    assert_eq!(rt;
        read_of(store.ask(12, get(1, 9))),
        (Some((1, 5)), 11, ("through", 12))
    );
    Ok(())
}

// A version that no held moment shows is counted no longer at once, and is let go by the next accepted write.
#[test]
fn versions_that_are_let_go(rt: HostRuntime) -> Result<(), Fault> {
    let mut store = VersionStore::new(rt.alloc(), 6, 10)?;
    spend_day(&rt, &mut store);
    assert_eq!(rt; store.free(), 2);
    store.unpin(11);
    assert_eq!(rt; store.free(), 3);
    assert_eq!(rt; fault_of(store.write(&[])), (41, 0));
    assert_eq!(rt; read_of(store.ask(10, get(0, 5))), (None, 0, ("end", 11)));
    assert_eq!(rt; fault_of(store.write(&[delete(0, 9)])), (0, 0));
    assert_eq!(rt; read_of(store.ask(10, get(0, 5))), (None, 0, ("end", 12)));
    assert_eq!(rt;
        store.free(),
        3,
        "deleting an absent record leaves no trace"
    );
    assert_eq!(rt; fault_of(store.write(&[set(0, 5, 0, 0)])), (0, 0));
    assert_eq!(rt; store.free(), 2, "an equal value makes a version");
    store.unpin_all();
    assert_eq!(rt; store.free(), 5);
    Ok(())
}

#[test]
fn values_of_sheets(rt: HostRuntime) -> Result<(), Fault> {
    let mut store = VersionStore::new(rt.alloc(), 6, 10)?;
    spend_day(&rt, &mut store);
    claims(&rt, &store);
    boards(&rt, &store);
    odd_recipes(&rt, &store);
    unknown_before_deep(&rt, &store);
    claims_of_others(&rt, &mut VersionStore::new(rt.alloc(), 6, 10)?);
    Ok(())
}
