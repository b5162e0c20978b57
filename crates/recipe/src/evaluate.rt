// The value of a sheet, worked out over a database without a cache.
ghost use Rattle.std.specs.Prelude.{◌≡◌, suc, ◌<◌, ◌≤◌, IfOk, IfErr};
ghost use Rattle.recipe.specs.Recipes.{table_of, GivesWithin};
ghost use Rattle.terms.specs.Records.{known_table};
ghost use Rattle.terms.specs.declared.fault.Fault.TheVariants.{SheetUnknown, TooDeep};
ghost use Rattle.recipe.specs.Sheets.{HasValue, Worth};
ghost use Rattle.recipe.specs.Evaluations.{ReadsAt, last_answer, WorksOut, Evaluates};

use crate::{Ask, Point, Recipe};
use database::Database;
use terms::record::is_table;
use terms::{Fault, Moment, Query, Reading};

// Whether a recipe may ask a query: its table is 0 to 7.
fn is_read(query: Query) -> bool
    ensures { result ≡ known_table (table_of query) }
{
    is_table(query.tag().table)
}

// The 32nd answer of a sheet has to be done.
fn last_answer(ask: Ask) -> Result<Reading, Fault>
    ensures { result ≡ last_answer ask }
{
    match ask {
        Ask::Done { reading } => Ok(reading),
        _ => Err(Fault::NeverDone { frames: 0 }),
    }
}

// The depth that is left below a call.
fn below(depth: usize) -> Result<usize, Fault>
    ensures left { IfOk result (λ left. depth ≡ suc left) }
    ensures deep { IfErr result (λ fault. depth ≡ 0 × fault ≡ TooDeep 0) }
{
    depth.checked_sub(1).ok_or(Fault::TooDeep { frames: 0 })
}

// A recipe over a database, at a moment.
#[derive(Drop)]
pub(crate) struct Evaluation<'a, D, R> {
    pub(crate) db: &'a D,
    pub(crate) recipe: &'a R,
    pub(crate) moment: Moment,
}

impl<D: Database, R: Recipe> Evaluation<'_, D, R> {
    // Whether a sheet is there.
    fn known(&self, sheet: u8) -> Result<(), Fault>
        ensures there { IfOk result (λ _. sheet < (R.rules self.now.recipe.now).sheets) }
        ensures unknown { IfErr result (λ fault. (R.rules self.now.recipe.now).sheets ≤ sheet × fault ≡ SheetUnknown 0) }
    {
        if sheet < self.recipe.sheets() {
            Ok(())
        } else {
            Err(Fault::SheetUnknown { frames: 0 })
        }
    }

    // What the recipe's query reads.
    fn read(&self, query: Query) -> Result<Reading, Fault>
        ensures { ReadsAt (D.view self.now.db.now) self.now.moment query result }
    {
        if !is_read(query) {
            return Err(Fault::RecipeTable { frames: 0 });
        }
        Ok(self.db.ask(self.moment, query)?.reading)
    }

    // A sheet, with at most `depth` sheets above one another.
    // Sheet and argument are named apart, as a recipe's question names them: `Key` is the cache's, of which a recipe knows nothing.
    fn sheet(&self, sheet: u8, argument: u32, depth: usize) -> Result<Reading, Fault>
        ensures { WorksOut (D.view self.now.db.now) (R.rules self.now.recipe.now) self.now.moment sheet argument depth result }
    {
        self.known(sheet)?;
        let mut point = Point::start(sheet, argument);
        // counted, and no index: the sheet has 31 answers before the last
        for _ in 0..31usize {
            let turn = self.recipe.next(point);
            let last = match turn.ask {
                Ask::Done { reading } => return Ok(reading),
                Ask::Query { query } => self.read(query)?,
                Ask::Call { sheet, argument } => {
                    self.known(sheet)?;
                    self.sheet(sheet, argument, below(depth)?)?
                }
            };
            point = Point {
                stage: turn.stage,
                carry: turn.carry,
                last,
                ..point
            };
        }
        last_answer(self.recipe.next(point).ask)
    }

    // A sheet that has a value at each held moment: only the moment can be wrong.
    #[tactic(auto, using(crate::proofs::Worths::only_unheld))]
    pub(crate) fn value(&self, sheet: u8, argument: u32, depth: usize) -> Result<Reading, Fault>
        ensures { HasValue (D.view self.now.db.now) (R.rules self.now.recipe.now) self.now.moment sheet argument depth
            → Worth (D.view self.now.db.now) self.now.moment (λ records reading. GivesWithin (R.rules self.now.recipe.now) records depth sheet argument reading) result }
    {
        self.sheet(sheet, argument, depth)
            .map_err(|_| Fault::NotHeld { frames: 0 })
    }
}

// Works a sheet out at a held moment, with at most `depth` sheets above one another.
// Refuses with 32 at a query where the moment is not held, 21, 23 or 24 where the sheet has no value, and 22 where the depth is used up.
// A 32nd answer that is not done is refused with 23, whatever it asks.
#[tactic(auto, using(crate::proofs::Stepping::evaluates))]
pub fn evaluate<D: Database, R: Recipe>(
    db: &D,
    recipe: &R,
    moment: Moment,
    sheet: u8,
    argument: u32,
    depth: usize,
) -> Result<Reading, Fault>
    ensures exact { WorksOut (D.view db.now) (R.rules recipe.now) moment sheet argument depth result }
    ensures means { Evaluates (D.view db.now) (R.rules recipe.now) moment sheet argument depth result }
{
    Evaluation { db, recipe, moment }.sheet(sheet, argument, depth)
}
