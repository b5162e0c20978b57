// Places that are found in a walk over the entries.
ghost use Rattle.std.specs.Prelude.{◌≡◌, None};
ghost use Rattle.std.specs.List.{fold, enumerate_from};
ghost use Rattle.recency.specs.Places.{newest_of, better};

use cache::{Entry, LookUp};
use terms::Moment;

// A place, and the newest listed moment that its entry covers.
#[derive(Clone, Copy)]
pub struct Found {
    pub place: usize,
    pub moment: Moment,
}

// The better of the best so far and one more place: the one with the newer moment.
pub fn better_of(best: Option<Found>, place: usize, newest: Option<Moment>) -> Option<Found>
    ensures { result ≡ better best place newest }
{
    match (best, newest) {
        (_, None) => best,
        (None, Some(moment)) => Some(Found { place, moment }),
        (Some(found), Some(moment)) => {
            if found.moment < moment {
                Some(Found { place, moment })
            } else {
                best
            }
        }
    }
}

// The best of the entries, in one pass. A fold, and no `max` over pairs: that would compare their places too.
pub fn best(entries: &[Entry], wanted: LookUp<'_>) -> Option<Found>
    ensures { result ≡ fold (λ so_far next. better so_far next.0 (newest_of wanted.entry next.1)) None (enumerate_from 0 entries.now) }
{
    entries
        .iter()
        .enumerate()
        .fold(None, |so_far, (place, entry)| {
            better_of(so_far, place, wanted.newest(*entry))
        })
}
