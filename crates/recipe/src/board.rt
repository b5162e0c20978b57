// The board's recipe: how many doors are free, and how many are taken.
ghost use Rattle.std.specs.Prelude.{◌≡◌};
ghost use Rattle.recipe.specs.declared.Ask.TheVariants.{Call};
ghost use Rattle.recipe.specs.Sheets.{board, count_of, counts, counts_turn, tally_turn};
ghost use Rattle.std.proofs.Common.{rules};

use crate::{Ask, Point, Recipe, Turn};
use terms::{Query, Reading};

// Sheet 0 tallies the doors in the argument's state; sheet 1 calls it for 0 and 1, and gives both counts.
#[derive(Clone, Copy)]
pub struct Board;

// A count, absent as 0.
fn count_of(reading: Reading) -> u32
    ensures { result ≡ count_of reading }
{
    reading.map_or(0, |(count, _)| count)
}

// Both counts.
fn both_counts(free: Option<u32>, taken: Reading) -> Reading
    ensures { result ≡ counts free taken }
{
    free.map(|free| (free, count_of(taken)))
}

fn tally_turn(point: Point) -> Turn
    ensures { result ≡ tally_turn point }
{
    if point.stage != 0 {
        return Turn::done(point.last);
    }
    // a let-else, since a turn is no Option or Result that `?` could end
    let Ok(state) = u8::try_from(point.argument) else {
        return Turn::done(None);
    };
    let query = Query::Tally { table: 0, state };
    Ask::Query { query }.then(1, 0)
}

// Sheet 0 is called for the doors in a state.
fn tally(state: u32) -> Ask
    ensures { result ≡ Call 0 state }
{
    Ask::Call {
        sheet: 0,
        argument: state,
    }
}

// A switch on the stage, as in the attendant's recipe.
fn counts_turn(point: Point) -> Turn
    ensures { result ≡ counts_turn point }
{
    match point.stage {
        0 => tally(0).then(1, 0),
        1 => tally(1).then(2, u64::from(count_of(point.last))),
        _ => {
            let free = u32::try_from(point.carry).ok();
            Turn::done(both_counts(free, point.last))
        }
    }
}

impl Recipe for Board {
    ghost rules = { λ _. board };

    ghost sized = { Prim.search rules };

    fn sheets(&self) -> u8 {
        2
    }

    // A switch on the sheet: a caller names it by its number.
    fn next(&self, point: Point) -> Turn {
        match point.sheet {
            0 => tally_turn(point),
            1 => counts_turn(point),
            _ => Turn::done(None),
        }
    }
}
