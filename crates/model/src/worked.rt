// A day that was worked out by hand.
ghost use Rattle.model.specs.Worked.{Worked};

// The day's readings with their intervals, two look-ups, freshness, choosing, and the claim and board sheets come out as they did by hand.
#[tactic(auto, using(crate::proofs::Hand::by_hand))]
pub fn worked_cases()
    ensures { Worked }
{}
