// Versions of records, when one is visible, and the pass over them that finds a query's reading with its validity interval.
#![tactic(auto)]

mod scan;
mod version;

pub use scan::Scan;
pub use version::Version;
