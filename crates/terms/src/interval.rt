// Validity intervals.
ghost use Rattle.std.specs.Prelude.{◌≡◌};
ghost use Rattle.terms.specs.declared.interval.Until.TheVariants.{Ended, Open};
ghost use Rattle.terms.specs.Intervals.{contains};

use crate::moment::Moment;

// An ended interval has an end, the first number outside it, at most HIGHEST + 1.
// An open one has its through, the last moment up to which it is known.
#[derive(Clone, Copy, PartialEq, Eq)]
pub enum Until {
    Ended { end: u64 },
    Open { through: Moment },
}

// The moments from `first` on for which a reading is right.
#[derive(Clone, Copy, PartialEq, Eq)]
pub struct Interval {
    pub first: Moment,
    pub until: Until,
}

impl Interval {
    // The moments from `first` on, and before the end.
    pub fn ended(first: Moment, end: u64) -> Interval
        ensures { result ≡ record { first = first; until = Ended end } }
    {
        Interval {
            first,
            until: Until::Ended { end },
        }
    }

    // The moments from `first` on, known up to `through`.
    pub fn open(first: Moment, through: Moment) -> Interval
        ensures { result ≡ record { first = first; until = Open through } }
    {
        Interval {
            first,
            until: Until::Open { through },
        }
    }

    pub fn contains(self, moment: Moment) -> bool
        ensures { result ≡ contains self moment }
    {
        let before = match self.until {
            Until::Ended { end } => moment < end,
            Until::Open { through } => moment <= through,
        };
        self.first <= moment && before
    }
}
