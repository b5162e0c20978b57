// The calls of a hall, and their answers.
use terms::{Fault, Moment, Query, Reading};

// A call, but for the changes of a write, which stand in a list of their own.
#[derive(Clone, Copy, PartialEq, Eq)]
pub enum Call {
    Begin {
        now: u64,
        limit: u64,
    },
    Sheet {
        number: u64,
        sheet: u8,
        argument: u32,
    },
    Step {
        number: u64,
        now: u64,
    },
    Query {
        number: u64,
        query: Query,
        now: u64,
    },
    Commit {
        number: u64,
    },
    Abort {
        number: u64,
    },
    Write,
    Deliver,
    Sweep {
        now: u64,
        age: u64,
    },
}

// What a call that is not refused is answered.
#[derive(Clone, Copy, PartialEq, Eq)]
pub enum Reply {
    // the transaction's number, and how many moments its pin set has
    Began { number: u64, moments: usize },
    Read { reading: Reading },
    // the caller is given no reading yet
    Open,
    // the newest moment of the pin set, else the latest
    Committed { moment: Moment },
    Aborted,
    Written { moment: Moment },
    Delivered { moment: Moment },
    // how many pins went
    Swept { pins: usize },
}

// A reply, or why the call is refused.
pub type Outcome = Result<Reply, Fault>;
