// The version store: a database that keeps each record's values with the moments for which they hold.
#![tactic(auto)]

mod calls;
mod store;
mod walks;

pub use store::VersionStore;
pub use validity::Version;
