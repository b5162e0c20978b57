// The moments at which a store can be read.
ghost use Rattle.std.specs.Prelude.{◌≡◌, ◌≤◌, true, nat_le};
ghost use Rattle.terms.specs.Moments.{highest};
ghost use Rattle.std.specs.List.{list_all};

mod calls;

use crate::pins::Pins;
use terms::Moment;

// The latest moment, and the pinned ones.
#[derive(Drop)]
pub struct Snapshots {
    latest: Moment,
    pins: Pins,
    ghost moment: { latest ≤ highest },
    // no pinned moment is later than the latest
    ghost past: { list_all (λ pin. nat_le pin latest) pins.moments.items ≡ true },
}

impl Snapshots {
    pub fn latest(&self) -> Moment
        ensures { result ≡ self.now.latest }
    {
        self.latest
    }

    pub fn pins(&self) -> &[Moment]
        ensures { result.now ≡ self.now.pins.moments.items }
    {
        self.pins.moments()
    }
}
