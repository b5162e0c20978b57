// The split: a cache over any two caches.
#![tactic(auto)]

pub mod split;
pub mod three;

pub use split::Split;
