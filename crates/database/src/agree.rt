// Databases of different make, side by side.
ghost use Rattle.std.specs.Prelude.{ℕ};
ghost use Rattle.database.specs.Databases.{Db, Answers};
ghost use Rattle.database.specs.Agreements.{Compared, Compares};

use crate::queries::same_reading;
use crate::{Answer, Database};
use terms::{Fault, Moment, Query};

// Whether two answers have the same reading: what that says of the databases that gave them.
fn compare(query: Query, one: Answer, other: Answer) -> bool
    ensures { (a b : Db) (m : ℕ) → Answers a m query one → Answers b m query other → Compared a b m query result }
{
    same_reading(query, one.reading, other.reading)
}

// Whether two databases of any kinds read a query alike at a moment. They do wherever they hold the same records there.
pub fn agree<A: Database, B: Database>(
    one: &A,
    other: &B,
    moment: Moment,
    query: Query,
) -> Result<bool, Fault>
    ensures { Compares (A.Database.view one.now) (B.Database.view other.now) moment query result }
{
    let first = one.ask(moment, query)?;
    let second = other.ask(moment, query)?;
    Ok(compare(query, first, second))
}
