// The hall by definitions: its books, what each call does, and the law over any list of calls.
#![tactic(auto)]

mod call;
pub mod law;
pub mod worked;
pub mod wrong;

pub use call::{Call, Outcome, Reply};
