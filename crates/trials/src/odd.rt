// Recipes that no one would want.
ghost use Rattle.trials.specs.Odd.{stubborn, patient};
ghost use Rattle.std.proofs.Common.{rules};

use recipe::{Ask, Point, Recipe, Turn};
use terms::Query;

// Answers the same at every point.
#[derive(Clone, Copy)]
pub struct Stubborn {
    pub ask: Ask,
}

impl Recipe for Stubborn {
    ghost rules = { λ s. stubborn s.ask };

    ghost sized = { Prim.search rules };

    fn sheets(&self) -> u8 {
        1
    }

    fn next(&self, _: Point) -> Turn {
        self.ask.then(0, 0)
    }
}

// Asks for the free doors so many times before it is done.
#[derive(Clone, Copy)]
pub struct Patient {
    pub times: u8,
}

impl Recipe for Patient {
    ghost rules = { λ s. patient s.times };

    ghost sized = { Prim.search rules };

    fn sheets(&self) -> u8 {
        1
    }

    fn next(&self, point: Point) -> Turn {
        if point.stage < self.times {
            let query = Query::Tally { table: 0, state: 0 };
            Ask::Query { query }.then(point.stage + 1, 0)
        } else {
            Turn::done(point.last)
        }
    }
}
