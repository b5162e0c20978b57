// A cache over any two, each of which keeps the entries of some of the keys.
ghost use Rattle.std.specs.Prelude.{◌≡◌, []};
ghost use Rattle.split.specs.Halves.{goes_first, halves};

use cache::{Cache, Entry, Key, LookUp, Offer};
use terms::{Moment, Tag};

// What either cache holds of the other's keys does not count.
#[derive(Drop)]
pub struct Split<A, B> {
    first: A,
    second: B,
}

// Whether the key goes to the first cache: the sum of sheet and argument is even.
fn is_first(key: Key) -> bool
    ensures { result ≡ goes_first key }
{
    (u64::from(key.sheet) + u64::from(key.argument)) % 2 == 0
}

impl<A: Cache, B: Cache> Split<A, B> {
    // A split without entries: both caches are cleared.
    pub fn new(first: A, second: B) -> Split<A, B>
        ensures none { halves (A.Cache.entries result.first) (B.Cache.entries result.second) ≡ [] }
        ensures first { A.Cache.entries result.first ≡ [] }
        ensures second { B.Cache.entries result.second ≡ [] }
    {
        let mut split = Split { first, second };
        split.first.clear();
        split.second.clear();
        split
    }
}

impl<A: Cache, B: Cache> Cache for Split<A, B> {
    // The entries of each cache whose keys go there.
    ghost entries = { λ s. halves (A.Cache.entries s.first) (B.Cache.entries s.second) };

    fn look_up(&mut self, wanted: LookUp<'_>) -> Option<Entry> {
        if is_first(wanted.key) {
            self.first.look_up(wanted)
        } else {
            self.second.look_up(wanted)
        }
    }

    #[tactic(auto, using(crate::proofs::Parts::first_enters, crate::proofs::Parts::second_enters, crate::proofs::Parts::sound_first_enters, crate::proofs::Parts::sound_second_enters))]
    fn insert(&mut self, offer: Offer<'_>) {
        if is_first(offer.key) {
            self.first.insert(offer);
        } else {
            self.second.insert(offer);
        }
    }

    #[tactic(auto, using(crate::proofs::Parts::halves_closes, crate::proofs::Parts::sound_halves_closed))]
    fn close(&mut self, tag: Tag, moment: u64) {
        self.first.close(tag, moment);
        self.second.close(tag, moment);
    }

    #[tactic(auto, using(crate::proofs::Parts::halves_drops, crate::proofs::Parts::sound_halves_dropped))]
    fn drop_ended(&mut self, moment: Moment) {
        self.first.drop_ended(moment);
        self.second.drop_ended(moment);
    }

    fn clear(&mut self) {
        self.first.clear();
        self.second.clear();
    }
}
