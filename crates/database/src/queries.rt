// What a query rests on, and that its reading is one.
ghost use Rattle.std.specs.Prelude.{◌≡◌, true, Decides};
ghost use Rattle.terms.specs.Records.{query_tag};
ghost use Rattle.database.specs.Rows.{matches};
ghost use Rattle.database.specs.States.{Records, Reads, ReadsAlike};

use terms::record::is_table;
use terms::{Query, Reading, Row, Tag};

// The tag of the records that a query reads: it reads the same in every two states that answer alike on them.
pub fn rests_on(query: Query) -> Tag
    ensures tag { result ≡ query_tag query }
    ensures alike { ReadsAlike query result }
{
    query.tag()
}

// Whether two readings are the same; they are wherever both are the query's in one state.
#[tactic(auto, using(crate::proofs::Readings::reads_one))]
pub fn same_reading(query: Query, one: Reading, other: Reading) -> bool
    ensures same { Decides result (one ≡ other) }
    ensures one { (records : Records) → Reads records query one → Reads records query other → result ≡ true }
{
    one == other
}

// Whether a present record is one that the query reads.
pub fn matches_row(query: Query, row: Row) -> bool
    ensures { result ≡ matches query row }
{
    match query {
        // The key first: most differ, where the tables of records that lie mixed are as often the same.
        Query::Get { id } => id.key == row.id.key && id.is_known() && id == row.id,
        Query::Tally { table, state } => is_table(table)
            && table == row.id.table
            && state == row.value.state,
    }
}
