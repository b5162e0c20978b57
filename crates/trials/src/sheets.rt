// What sheets are worth over a store, and which have no value.
use crate::hall::{fault_of, set, tally};
use crate::odd::{Patient, Stubborn};
use database::Database;
use recipe::evaluate::evaluate;
use recipe::{Ask, Attendant, Board};
use std::process::Abort;
use terms::{Fault, Reading};

// A reading, or the number of a refusal: the tests keep their values.
fn worth_of(res: Result<Reading, Fault>) -> (Reading, u8) {
    match res {
        Ok(reading) => (reading, 0),
        Err(fault) => (None, fault.number()),
    }
}

// For a store after its day.
pub fn claims<D: Database>(rt: &impl Abort, store: &D) {
    let cases = [
        (10, 900, (None, 0)),
        (11, 900, (None, 0)),
        (12, 900, (Some((1, 5)), 0)),
        (13, 900, (None, 0)),
        (12, 5, (None, 0)),
        (14, 900, (None, 32)),
    ];
    for (moment, ticket, wanted) in cases {
        assert_eq!(rt;
            worth_of(evaluate(store, &Attendant, moment, 0, ticket, 0)),
            wanted
        );
    }
    assert_eq!(rt;
        worth_of(evaluate(store, &Attendant, 12, 1, 900, 0)),
        (None, 21)
    );
}

// For a store after its day.
pub fn boards<D: Database>(rt: &impl Abort, store: &D) {
    // moment, sheet, argument, depth
    let cases = [
        ((10, 0, 0), 0, (None, 0)),
        ((11, 0, 0), 0, (Some((1, 5)), 0)),
        ((12, 0, 0), 0, (None, 0)),
        ((12, 0, 1), 0, (Some((1, 5)), 0)),
        ((12, 0, 255), 0, (None, 0)),
        ((12, 0, 257), 0, (None, 0)),
        ((10, 1, 0), 1, (Some((0, 0)), 0)),
        ((11, 1, 7), 1, (Some((1, 0)), 0)),
        ((12, 1, 0), 1, (Some((0, 1)), 0)),
        ((13, 1, 0), 9, (Some((1, 0)), 0)),
        ((12, 1, 0), 0, (None, 22)),
        ((12, 2, 0), 1, (None, 21)),
        ((12, 255, 0), 1, (None, 21)),
        ((9, 1, 0), 1, (None, 32)),
    ];
    for ((moment, sheet, argument), depth, wanted) in cases {
        assert_eq!(rt;
            worth_of(evaluate(store, &Board, moment, sheet, argument, depth)),
            wanted
        );
    }
}

// For a store without records at 10: tickets 7 and 8 name door 6, ticket 9 a door that is not there, and door 6 ticket 7.
pub fn claims_of_others<D: Database>(rt: &impl Abort, store: &mut D) {
    let changes = [
        set(0, 6, 2, 7),
        set(1, 7, 1, 6),
        set(1, 8, 1, 6),
        set(1, 9, 1, 99),
    ];
    assert_eq!(rt; fault_of(store.write(&changes)), (0, 0));
    for (ticket, wanted) in [(7, Some((2, 6))), (8, None), (9, None), (6, None)] {
        assert_eq!(rt;
            worth_of(evaluate(store, &Attendant, 11, 0, ticket, 0)),
            (wanted, 0)
        );
    }
}

// For a store after its day.
pub fn odd_recipes<D: Database>(rt: &impl Abort, store: &D) {
    let stubborn = [
        (
            Ask::Call {
                sheet: 0,
                argument: 1,
            },
            (None, 22),
        ),
        (
            Ask::Call {
                sheet: 1,
                argument: 0,
            },
            (None, 21),
        ),
        (Ask::Query { query: tally(0, 0) }, (None, 23)),
        (Ask::Query { query: tally(8, 0) }, (None, 24)),
        (
            Ask::Done {
                reading: Some((7, 8)),
            },
            (Some((7, 8)), 0),
        ),
    ];
    for (ask, wanted) in stubborn {
        assert_eq!(rt;
            worth_of(evaluate(store, &Stubborn { ask }, 13, 0, 0, 40)),
            wanted
        );
    }
    // with the 32nd answer it has to be done
    for (times, wanted) in [
        (0, (None, 0)),
        (1, (Some((1, 5)), 0)),
        (31, (Some((1, 5)), 0)),
        (32, (None, 23)),
    ] {
        assert_eq!(rt;
            worth_of(evaluate(store, &Patient { times }, 13, 0, 0, 0)),
            wanted
        );
    }
}

// For a store after its day: that a sheet is not there is told before its depth is used up.
pub fn unknown_before_deep<D: Database>(rt: &impl Abort, store: &D) {
    let ask = Ask::Call {
        sheet: 1,
        argument: 1,
    };
    assert_eq!(rt;
        worth_of(evaluate(store, &Stubborn { ask }, 13, 0, 0, 0)),
        (None, 21)
    );
}
