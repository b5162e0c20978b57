// What is done with the moments at which a store can be read.
ghost use Rattle.std.specs.Prelude.{◌≡◌, ℕ, ◌+◌, min, Bool, true, cond, not, ◌&&◌, ◌||◌, [], length, is_ok, MatchResult, fold, ◌==◌, nat_lt};
ghost use Rattle.terms.specs.Moments.{highest, is_moment};
ghost use Rattle.terms.specs.declared.fault.Fault.TheVariants.{NoPin, OutOfRange, OutOfMemory};
ghost use Rattle.std.specs.List.{list_all};
ghost use Rattle.database.specs.Lists.{among, can_add, least, added, without};

use super::Snapshots;
use crate::pins::Pins;
use std::alloc::Global;
use terms::moment::{is_moment, next};
use terms::{Fault, HIGHEST, Moment};

fn lowest_of(latest: Moment, pins: &[Moment]) -> Moment
    ensures { result ≡ fold min latest pins.now }
{
    pins.iter().fold(latest, |lowest, pin| lowest.min(*pin))
}

// The moment after this one; the highest stays.
fn after(latest: Moment) -> Moment
    ensures { result ≡ min (latest + 1) highest }
{
    next(latest).unwrap_or(HIGHEST)
}

// That the latest moment stays is said of each call that leaves it: it relates two moments of the value, and no field can say it.
impl Snapshots {
    // The first moment, and none pinned.
    pub fn new(heap: Global, first: Moment) -> Result<Snapshots, Fault>
        ensures { MatchResult result (λ s. (is_moment first ≡ true) × (s.latest ≡ first) × (s.pins.moments.items ≡ [])) (λ fault. fault ≡ cond (is_moment first) OutOfMemory OutOfRange) }
    {
        if !is_moment(first) {
            return Err(Fault::OutOfRange);
        }
        let pins = Pins::new(heap)?;
        Ok(Snapshots {
            latest: first,
            pins,
        })
    }

    // Whether the moment is the latest or pinned.
    pub fn holds(&self, moment: Moment) -> bool
        ensures { result ≡ (moment == self.now.latest || among moment self.now.pins.moments.items) }
    {
        moment == self.latest || self.pins.contains(moment)
    }

    // The lowest of the latest moment and the pinned ones.
    #[tactic(auto, using(crate::proofs::Sets::least_folded))]
    pub fn lowest(&self) -> Moment
        ensures { result ≡ least self.now.latest self.now.pins.moments.items }
    {
        lowest_of(self.latest, self.pins())
    }

    // Pins the latest moment, and answers it; 31 if 32 others are pinned.
    pub fn pin(&mut self) -> Result<Moment, Fault>
        ensures can { is_ok result ≡ can_add self.old.latest self.old.pins.moments.items }
        ensures cases { MatchResult result (λ moment. (moment ≡ self.old.latest) × (self.new.pins.moments.items ≡ added self.old.latest self.old.pins.moments.items)) (λ fault. (fault ≡ NoPin 0) × (self.new ≡ self.old)) }
        ensures latest { self.new.latest ≡ self.old.latest }
    {
        self.pins.pin(self.latest)?;
        Ok(self.latest)
    }

    pub fn unpin(&mut self, moment: Moment)
        ensures pins { self.new.pins.moments.items ≡ without moment self.old.pins.moments.items }
        ensures among { (n : ℕ) → among n self.new.pins.moments.items ≡ (among n self.old.pins.moments.items && not (n == moment)) }
        ensures every { (p : ℕ → Bool) → list_all p self.old.pins.moments.items ≡ true → list_all p self.new.pins.moments.items ≡ true }
        ensures latest { self.new.latest ≡ self.old.latest }
    {
        self.pins.unpin(moment);
    }

    pub fn unpin_all(&mut self)
        ensures pins { self.new.pins.moments.items ≡ [] }
        ensures latest { self.new.latest ≡ self.old.latest }
    {
        self.pins.clear();
    }

    // The moment after the latest becomes the latest, and is answered; at the highest nothing changes.
    #[tactic(auto, using(crate::proofs::Sets::past_later))]
    pub fn advance(&mut self) -> Moment
        ensures latest { self.new.latest ≡ min (self.old.latest + 1) highest }
        ensures answer { result ≡ self.new.latest }
        ensures pins { self.new.pins ≡ self.old.pins }
    {
        let moment = after(self.latest);
        self.latest = moment;
        moment
    }
}
