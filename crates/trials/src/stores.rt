// What every store refuses, and for how long its readings are right.
use crate::hall::{delete, fault_of, get, read_of, set, spend_day, tally};
use database::Database;
use std::process::Abort;
use terms::{Change, HIGHEST};

// For a store without records at 10, in which six changes fit.
pub fn refuses<D: Database>(rt: &impl Abort, store: &mut D) {
    let one = set(0, 7, 0, 0);
    let two = set(0, 8, 0, 0);
    let nowhere = set(8, 9, 0, 0);
    let seven = [
        one,
        two,
        set(0, 9, 0, 0),
        set(1, 7, 0, 0),
        set(1, 8, 0, 0),
        set(1, 9, 0, 0),
        set(2, 7, 0, 0),
    ];
    let cases: [(&[Change], (u8, usize)); 9] = [
        (&[], (41, 0)),
        (&[one; 17], (42, 0)),
        (&[nowhere; 17], (42, 0)),
        (&[one, two, nowhere, one], (44, 2)),
        (&[one, two, one, nowhere], (43, 2)),
        (&[one, delete(0, 7)], (43, 1)),
        (&[set(255, 7, 0, 0), one], (44, 0)),
        (&[one; 16], (43, 1)),
        (&seven, (47, 0)),
    ];
    for (changes, wanted) in cases {
        assert_eq!(rt; fault_of(store.write(changes)), wanted);
        assert_eq!(rt; (store.latest(), store.free()), (10, 6));
    }
    // a key in two tables is two records
    assert_eq!(rt; fault_of(store.write(&seven[0..6])), (0, 0));
    assert_eq!(rt; (store.latest(), store.free()), (11, 0));
    assert_eq!(rt; fault_of(store.write(&[delete(3, 1)])), (47, 0));
}

// For a store at the highest moment, in which one change fits.
pub fn refuses_at_the_end<D: Database>(rt: &impl Abort, store: &mut D) {
    let one = set(0, 7, 0, 0);
    let cases: [(&[Change], (u8, usize)); 4] = [
        (&[], (41, 0)),
        (&[one, one], (43, 1)),
        (&[one], (45, 0)),
        (&[one, set(0, 8, 0, 0)], (45, 0)),
    ];
    for (changes, wanted) in cases {
        assert_eq!(rt; fault_of(store.write(changes)), wanted);
    }
    assert_eq!(rt; store.latest(), HIGHEST);
    assert_eq!(rt;
        read_of(store.ask(HIGHEST, get(0, 7))),
        (None, 0, ("through", HIGHEST))
    );
}

// For a store without records at 10, in which a change fits.
pub fn refuses_pins<D: Database>(rt: &impl Abort, store: &mut D) {
    for _ in 0..32 {
        assert_eq!(rt; fault_of(store.write(&[delete(0, 7)])), (0, 0));
        assert_eq!(rt; fault_of(store.pin()), (0, 0));
    }
    assert_eq!(rt;
        fault_of(store.pin()),
        (0, 0),
        "the latest is one of the 32"
    );
    assert_eq!(rt; fault_of(store.write(&[delete(0, 7)])), (0, 0));
    assert_eq!(rt; fault_of(store.pin()), (31, 0));
    assert_eq!(rt;
        fault_of(store.ask(42, get(0, 7))),
        (0, 0),
        "a refused pin lets none go"
    );
    store.unpin(10);
    assert_eq!(rt; fault_of(store.pin()), (31, 0), "10 was not pinned");
    store.unpin(11);
    assert_eq!(rt; fault_of(store.ask(11, get(0, 7))), (32, 0));
    assert_eq!(rt; fault_of(store.pin()), (0, 0));
}

// For a store without records at 10, in which six changes fit.
pub fn tells_intervals<D: Database>(rt: &impl Abort, store: &mut D) {
    spend_day(rt, store);
    let door = get(0, 5);
    let ticket = get(1, 900);
    let cases = [
        (10, door, (None, 0, ("end", 11))),
        (11, door, (Some((0, 0)), 11, ("end", 12))),
        (12, door, (Some((1, 900)), 12, ("end", 13))),
        (13, door, (Some((0, 0)), 13, ("through", 13))),
        (11, ticket, (None, 0, ("end", 12))),
        (12, ticket, (Some((1, 5)), 12, ("end", 13))),
        (13, ticket, (None, 13, ("through", 13))),
        (11, tally(0, 0), (Some((1, 5)), 11, ("end", 12))),
        (12, tally(0, 0), (None, 12, ("end", 13))),
        (13, tally(0, 0), (Some((1, 5)), 13, ("through", 13))),
        (10, tally(0, 1), (None, 0, ("end", 12))),
        (13, tally(0, 2), (None, 0, ("through", 13))),
        (12, get(255, 5), (None, 0, ("through", 13))),
        (12, tally(255, 0), (None, 0, ("through", 13))),
        (12, get(8, 5), (None, 0, ("through", 13))),
    ];
    for (moment, query, wanted) in cases {
        assert_eq!(rt; read_of(store.ask(moment, query)), wanted);
    }
    for moment in [0, 9, 14, HIGHEST, HIGHEST + 1, u64::MAX] {
        assert_eq!(rt; fault_of(store.ask(moment, door)), (32, 0));
    }
}

// For a store without records at 10, in which six changes fit: the count and smallest key of a tally, and an equal value set again.
pub fn tallies<D: Database>(rt: &impl Abort, store: &mut D) {
    assert_eq!(rt;
        fault_of(store.write(&[set(1, 9, 1, 5), set(1, 3, 1, 6), set(2, 1, 1, 0)])),
        (0, 0)
    );
    assert_eq!(rt;
        read_of(store.ask(11, tally(1, 1))),
        (Some((2, 3)), 11, ("through", 11))
    );
    assert_eq!(rt; fault_of(store.write(&[set(1, 3, 1, 6)])), (0, 0));
    assert_eq!(rt;
        read_of(store.ask(12, tally(1, 1))),
        (Some((2, 3)), 12, ("through", 12))
    );
    assert_eq!(rt;
        read_of(store.ask(12, get(1, 3))),
        (Some((1, 6)), 12, ("through", 12))
    );
}
