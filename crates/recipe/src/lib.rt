// Recipes: how a sheet is put together, step by step, from queries and other sheets.
#![tactic(auto)]

ghost use Rattle.std.specs.Prelude.{◌≡◌};
ghost use Rattle.recipe.specs.Recipes.{Rules, Sized, start};
ghost use Rattle.recipe.specs.Sheets.{finish};

use terms::{Query, Reading};

mod attendant;
mod board;
pub mod evaluate;
mod sheets;
pub mod values;

pub use attendant::Attendant;
pub use board::Board;
pub use sheets::{claim_sheet, counts_sheet, tally_sheet};

// Where the working out of a sheet stands. It starts at stage 0, carry 0, absent.
#[derive(Clone, Copy, PartialEq, Eq)]
pub struct Point {
    pub sheet: u8,
    pub argument: u32,
    pub stage: u8,
    pub carry: u64,
    // the reading that answered the last question
    pub last: Reading,
}

// What a recipe answers at a point: a question, or the sheet's reading.
#[derive(Clone, Copy, PartialEq, Eq)]
pub enum Ask {
    Query { query: Query },
    Call { sheet: u8, argument: u32 },
    Done { reading: Reading },
}

// A recipe's answer, with the stage and carry of the next point.
#[derive(Clone, Copy, PartialEq, Eq)]
pub struct Turn {
    pub ask: Ask,
    pub stage: u8,
    pub carry: u64,
}

impl Point {
    // The point at which a sheet starts.
    pub fn start(sheet: u8, argument: u32) -> Point
        ensures { result ≡ start sheet argument }
    {
        Point {
            sheet,
            argument,
            stage: 0,
            carry: 0,
            last: None,
        }
    }
}

impl Ask {
    // The turn that asks this, and goes on at a stage with a carry.
    pub fn then(self, stage: u8, carry: u64) -> Turn
        ensures { result ≡ record { ask = self; stage = stage; carry = carry } }
    {
        Turn {
            ask: self,
            stage,
            carry,
        }
    }
}

impl Turn {
    // The sheet is done.
    pub fn done(reading: Reading) -> Turn
        ensures { result ≡ finish reading }
    {
        Ask::Done { reading }.then(0, 0)
    }
}

pub trait Recipe {
    // how many sheets it has, and what it answers at each point
    ghost rules: { Self → Rules };

    // How many sheets there are, 1 to 255.
    fn sheets(&self) -> u8
        ensures { result ≡ (rules self.now).sheets };

    // What is to be done at a point, from the point alone.
    fn next(&self, point: Point) -> Turn
        ensures { result ≡ (rules self.now).turn point };

    ghost sized: { (x : Self) → Sized (rules x) };
}
