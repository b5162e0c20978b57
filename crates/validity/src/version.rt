// Versions of records.
ghost use Rattle.std.specs.Prelude.{◌≡◌};
ghost use Rattle.validity.specs.Versions.{visible};

use terms::{Moment, Row};

// A value of a record, with the moments at which it was made and, perhaps, replaced.
#[derive(Clone, Copy, PartialEq, Eq)]
pub struct Version {
    pub row: Row,
    pub made: Moment,
    pub replaced: Option<Moment>,
}

impl Version {
    // Whether it is visible at a moment: from the one at which it was made until before the one at which it was replaced.
    pub fn is_visible(self, moment: Moment) -> bool
        ensures { result ≡ visible moment self }
    {
        let lasts = self.replaced.is_none_or(|replaced| moment < replaced);
        self.made <= moment && lasts
    }
}
