// A split of splits: three lent tables that are used as one cache.
ghost use Rattle.std.specs.Prelude.{◌≡◌, Ok};
ghost use Rattle.cache.specs.Entries.{offered};
ghost use Rattle.split.specs.Halves.{seen};

use crate::split::Split;
use cache::{Cache, Entry, LookUp, Offer};
use recency::Recency;
use terms::{Fault, Moment};

// What a cache answers at a moment right after one insert: the new entry, if it was accepted and covers the moment.
fn only_entry<C: Cache>(
    cache: &mut C,
    offer: Offer<'_>,
    moment: Moment,
    delivered: Moment,
) -> Option<Entry>
    ensures { result ≡ seen delivered moment (offered offer.entry) }
{
    cache.clear();
    cache.insert(offer);
    cache.look_up(LookUp {
        key: offer.key,
        moments: &[moment],
        delivered,
    })
}

// The same through three tables.
pub fn only_of_three(
    offer: Offer<'_>,
    moment: Moment,
    delivered: Moment,
) -> Result<Option<Entry>, Fault>
    ensures { result ≡ Ok (seen delivered moment (offered offer.entry)) }
{
    let mut one = [Entry::blank(); 2];
    let mut two = [Entry::blank(); 2];
    let mut three = [Entry::blank(); 1];
    let left = Split::new(Recency::new(&mut one)?, Recency::new(&mut two)?);
    let mut all = Split::new(left, Recency::new(&mut three)?);
    Ok(only_entry(&mut all, offer, moment, delivered))
}
