// The recency node: a cache that keeps the entries that were used last.
#![tactic(auto)]

pub mod node;
mod place;
#[cfg(test)]
mod tests;

pub use node::Recency;
