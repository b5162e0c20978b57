// One first-in, first-out line over a slice that is lent to each call: the journal of a store and the rows of a stream wait in it alike.
#![tactic(auto)]

mod line;

pub use line::{Line, Refusal};

#[cfg(test)]
mod tests;
