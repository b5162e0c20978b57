// Halls that differ from the rules in one place.
ghost use Rattle.model.specs.Wrong.{WrongHalls};

// An open entry counted beyond the last delivered message, a sheet that forgets a hit's tags, a late insert left open:
// with each there is a list of calls after which an open transaction has a reading that is wrong at a moment of its pin set.
#[tactic(auto, using(crate::proofs::Mistakes::beyond, crate::proofs::Mistakes::forgetful, crate::proofs::Mistakes::late))]
pub fn wrong_halls()
    ensures { WrongHalls }
{}
