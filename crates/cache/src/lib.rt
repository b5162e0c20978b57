// What a cache of readings means: its keys, entries and tags, and the calls that every kind of cache answers.
#![tactic(auto)]

pub mod cache;
pub mod call;
pub mod entry;
pub mod key;
pub mod tag_set;

pub use cache::Cache;
pub use call::{LookUp, Offer};
pub use entry::Entry;
pub use key::Key;
pub use tag_set::TagSet;
