// The attendant's recipe: the claim sheet of a ticket.
ghost use Rattle.std.specs.Prelude.{◌≡◌};
ghost use Rattle.recipe.specs.declared.Ask.TheVariants.{Query as Asked};
ghost use Rattle.recipe.specs.Sheets.{attendant, claim_turn, claimed, door_of, get_of};
ghost use Rattle.std.proofs.Common.{rules};

use crate::{Ask, Point, Recipe, Turn};
use terms::{Query, Reading, RecordId};

// Sheet 0 gets the ticket, then the door in its word.
#[derive(Clone, Copy)]
pub struct Attendant;

// The record of a table under a key is asked for.
fn get(table: u8, key: u32) -> Ask
    ensures { result ≡ Asked (get_of table key) }
{
    let id = RecordId { table, key };
    Ask::Query {
        query: Query::Get { id },
    }
}

// The door's state and number, if its word is the ticket.
fn claim_door(ticket: u32, door: Option<u32>, found: Reading) -> Reading
    ensures { result ≡ claimed ticket door found }
{
    let (door, (state, word)) = door.zip(found)?;
    (word == ticket).then_some((state, door))
}

// The door in the ticket's word.
fn door_of(ticket: Reading) -> Turn
    ensures { result ≡ door_of ticket }
{
    ticket.map_or(Turn::done(None), |(_, door)| {
        get(0, door).then(2, u64::from(door))
    })
}

// A switch on the stage, and no closure for each step: the rules give a recipe's state as the plain numbers of a point.
fn claim_turn(point: Point) -> Turn
    ensures { result ≡ claim_turn point }
{
    match point.stage {
        0 => get(1, point.argument).then(1, 0),
        1 => door_of(point.last),
        _ => {
            let door = u32::try_from(point.carry).ok();
            Turn::done(claim_door(point.argument, door, point.last))
        }
    }
}

impl Recipe for Attendant {
    ghost rules = { λ _. attendant };

    ghost sized = { Prim.search rules };

    fn sheets(&self) -> u8 {
        1
    }

    fn next(&self, point: Point) -> Turn {
        if point.sheet == 0 {
            claim_turn(point)
        } else {
            Turn::done(None)
        }
    }
}
