// The law over any list of calls.
ghost use Rattle.model.specs.Law.{LawStands, AlwaysHeld, HallsAgree};

// After every list of calls from a making: readings are right at each moment of a pin set, the moments of pin sets are pinned,
// and the books hold exactly the open transactions, with the uses of each pin.
#[tactic(auto, using(crate::proofs::Stands::law_stands))]
pub fn law_stands()
    ensures { LawStands }
{}

// No call of a hall ever meets a moment that is not held.
#[tactic(auto, using(crate::proofs::Consequences::always_held))]
pub fn always_held()
    ensures { AlwaysHeld }
{}

// Halls of one recipe and different make, given the same records, show equal sheets at one moment.
#[tactic(auto, using(crate::proofs::Consequences::halls_agree))]
pub fn halls_agree()
    ensures { HallsAgree }
{}
