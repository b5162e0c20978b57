// Moments: the numbers of commits.
ghost use Rattle.std.specs.Prelude.{◌≡◌};
ghost use Rattle.terms.specs.Moments.{is_moment, next_moment};

// A commit number, 0 to HIGHEST. A call that is given a larger number refuses it as no moment.
pub type Moment = u64;

pub const HIGHEST: u64 = 9_223_372_036_854_775_807;

pub fn is_moment(number: u64) -> bool
    ensures { result ≡ is_moment number }
{
    number <= HIGHEST
}

// The moment that the next commit makes, if there is one.
pub fn next(moment: Moment) -> Option<Moment>
    ensures { result ≡ next_moment moment }
{
    // an `if`, since `then_some` would add at the highest number too
    if moment < HIGHEST {
        Some(moment + 1)
    } else {
        None
    }
}
