// The undo store: a database that keeps its present records, and a journal of what they held before.
#![tactic(auto)]

mod calls;
mod entry;
mod ledger;
mod scanning;
mod store;

pub use entry::{Entry, Held};
pub use store::UndoStore;
