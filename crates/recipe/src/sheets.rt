// The sheets of the two recipes, worked out over a database without a cache. At a held moment each has a value.
ghost use Rattle.std.specs.Prelude.{◌≡◌};
ghost use Rattle.recipe.specs.Sheets.{claim_of, TallyOf, CountsOf, Worth};

use crate::evaluate::Evaluation;
use crate::{Attendant, Board};
use database::Database;
use terms::{Fault, Moment, Reading};

// The claim sheet of a ticket: the state and number of the door in its word, if that door's word is the ticket.
#[tactic(auto, using(crate::proofs::Worths::claim_value))]
pub fn claim_sheet<D: Database>(db: &D, moment: Moment, ticket: u32) -> Result<Reading, Fault>
    ensures { Worth (D.view db.now) moment (λ records reading. reading ≡ claim_of records ticket) result }
{
    let recipe = &Attendant;
    Evaluation { db, recipe, moment }.value(0, ticket, 0)
}

// The board's tally of the doors in a state; absent above 255.
#[tactic(auto, using(crate::proofs::Worths::tally_value))]
pub fn tally_sheet<D: Database>(db: &D, moment: Moment, state: u32) -> Result<Reading, Fault>
    ensures { Worth (D.view db.now) moment (λ records reading. TallyOf records state reading) result }
{
    let recipe = &Board;
    Evaluation { db, recipe, moment }.value(0, state, 0)
}

// The board's counts of free and of taken doors.
#[tactic(auto, using(crate::proofs::Worths::counts_value))]
pub fn counts_sheet<D: Database>(db: &D, moment: Moment) -> Result<Reading, Fault>
    ensures { Worth (D.view db.now) moment CountsOf result }
{
    let recipe = &Board;
    Evaluation { db, recipe, moment }.value(1, 0, 1)
}
