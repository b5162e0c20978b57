// The plain values of the locker library: moments, records, changes, queries, readings, tags, validity intervals and faults.
#![tactic(auto)]

pub mod fault;
pub mod interval;
pub mod moment;
pub mod record;
pub mod tag;

pub use fault::Fault;
pub use interval::{Interval, Until};
pub use moment::{HIGHEST, Moment};
pub use record::{Change, Query, Reading, RecordId, Row, Value};
pub use tag::Tag;
