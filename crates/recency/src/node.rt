// The recency node over a lent table.
ghost use Rattle.std.specs.Prelude.{◌≡◌, ◌≤◌, length};
ghost use Rattle.recency.specs.Places.{stays, outlasts};

use crate::place::best;
use cache::{Cache, Entry, LookUp, Offer};
use terms::{Fault, Moment, Tag};

// The most entries that a node can keep.
const MOST: usize = 1024;

// A table with at least one place, whose first `len` places hold the entries by last use, the newest use first.
// The table is lent and has a length beside it, and is no Vec: a cache allocates nothing.
// That the size and the soundness stay stands at each call: what a call leaves as it was relates two moments, and no field can say it.
#[derive(Drop)]
pub struct Recency<'a> {
    table: &'a mut [Entry],
    len: usize,
    ghost some: { 1 ≤ length table.now },
    ghost fits: { len ≤ length table.now },
}

// Whether the old entry need not leave when the new one comes in.
fn stays_with(new: Entry, old: Entry) -> bool
    ensures { result ≡ stays new old }
{
    !old.gives_way(new)
}

// Whether the entry has not ended at or before the moment.
fn is_lasting(entry: Entry, moment: Moment) -> bool
    ensures { result ≡ outlasts moment entry }
{
    !entry.is_ended_by(moment)
}

impl<'a> Recency<'a> {
    ghost use Rattle.std.specs.Prelude.{◌≡◌, ◌+◌, ◌-◌, ◌<◌, min, Bool, ◌&&◌, [], ◌∷◌, ◌++◌, length, take, drop, is_ok, map, filter, MatchResult, nat_le, slice_index_or};
    ghost use Rattle.terms.specs.declared.fault.Fault.TheVariants.{OutOfRange};
    ghost use Rattle.cache.specs.Entries.{blank_entry, closed};
    ghost use Rattle.std.specs.Fn.{FnReturnsAt};
    ghost use Rattle.cache.specs.declared.entry.Entry.{Entry};
    ghost use Rattle.recency.specs.Places.{Computes, Finds, stays};
    ghost use Rattle.recency.specs.Nodes.{size_of, recent};

    // A node without entries, as large as the table; refused if that is not 1 to 1,024 places.
    pub fn new(table: &'a mut [Entry]) -> Result<Recency<'a>, Fault>
        ensures size { is_ok result ≡ (nat_le 1 (length table.old) && nat_le (length table.old) 1024) }
        ensures cases { MatchResult result (λ node. (size_of node ≡ length table.old) × (recent node ≡ [])) (λ fault. fault ≡ OutOfRange) }
    {
        if table.is_empty() || table.len() > MOST {
            return Err(Fault::OutOfRange);
        }
        Ok(Recency { table, len: 0 })
    }

    // The place of the entry that a look-up answers.
    fn find(&self, wanted: LookUp<'_>) -> Option<usize>
        ensures { Finds (recent self.now) wanted.entry result }
    {
        let found = best(&self.table[..self.len], wanted)?;
        Some(found.place)
    }

    // Brings the entry at the place to the front, and answers it.
    #[tactic(auto, using(crate::proofs::Shifts::raised))]
    fn raise(&mut self, place: usize) -> Entry
        requires { place < length (recent self.old) }
        ensures hit { result ≡ slice_index_or (recent self.old) place blank_entry }
        ensures order { recent self.new ≡ result ∷ (take place (recent self.old) ++ drop (place + 1) (recent self.old)) }
        ensures size { size_of self.new ≡ size_of self.old }
    {
        let hit = self.table[place];
        self.table[..=place].rotate_right(1);
        hit
    }

    // Keeps the entries that pass, in their order. By index, since it writes into the slice that it reads.
    fn keep<F: Fn(&Entry) -> bool>(&mut self, passes: F)
        requires { F.IsAlwaysCallable passes }
        ensures order { (test : Entry → Bool) → Computes (FnReturnsAt F.Fn passes) test → recent self.new ≡ filter test (recent self.old) }
        ensures size { size_of self.new ≡ size_of self.old }
    {
        let mut kept = 0;
        for i in 0..self.len {
            let entry = self.table[i];
            if passes(&entry) {
                self.table[kept] = entry;
                kept += 1;
            }
        }
        self.len = kept;
    }

    // Makes of each entry what a close makes of it. By index: a rule of this project for the walk of a close (DECISIONS).
    fn close_each(&mut self, tag: Tag, moment: u64)
        ensures order { recent self.new ≡ map (closed tag moment) (recent self.old) }
        ensures size { size_of self.new ≡ size_of self.old }
    {
        for place in 0..self.len {
            self.table[place] = self.table[place].closed(tag, moment);
        }
    }

    // Those that give way to the new entry leave.
    fn make_way(&mut self, new: &Entry)
        ensures order { recent self.new ≡ filter (stays new.now) (recent self.old) }
        ensures size { size_of self.new ≡ size_of self.old }
    {
        self.keep(|old| stays_with(*new, *old));
    }

    // The place of the last entry when one more has come in: the first that is free, or else the last.
    fn next_last(&self) -> usize
        ensures { result ≡ min self.now.len (size_of self.now - 1) }
    {
        self.len.min(self.table.len() - 1)
    }

    // Puts the new entry first; if the table is full, the last leaves.
    #[tactic(auto, using(crate::proofs::Shifts::put_first))]
    fn put_first(&mut self, new: Entry)
        ensures order { recent self.new ≡ take (size_of self.old) (new ∷ recent self.old) }
        ensures size { size_of self.new ≡ size_of self.old }
    {
        let last = self.next_last();
        self.table[..=last].rotate_right(1);
        self.table[0] = new;
        self.len = last + 1;
    }

    // Puts the new entry first. Those that give way to it leave; if the table is full then, so does the last.
    fn push(&mut self, new: Entry)
        ensures order { recent self.new ≡ take (size_of self.old) (new ∷ filter (stays new) (recent self.old)) }
        ensures size { size_of self.new ≡ size_of self.old }
    {
        self.make_way(&new);
        self.put_first(new);
    }
}

impl Cache for Recency<'_> {
    ghost use Rattle.std.specs.Prelude.{◌≡◌, [], map, filter};
    ghost use Rattle.cache.specs.Lists.{Same};
    ghost use Rattle.cache.specs.Entries.{offered, closed};
    ghost use Rattle.cache.specs.Calls.{LooksUp, Only, Enters, Closes, Drops, Sound};
    ghost use Rattle.recency.specs.Nodes.{size_of, recent, Raises, pushed};
    ghost use Rattle.recency.specs.Places.{outlasts};

    // By last use, the newest use first.
    ghost entries = { λ s. recent s };

    fn look_up(&mut self, wanted: LookUp<'_>) -> Option<Entry>
        ensures answer { LooksUp (recent self.old) wanted.entry result }
        ensures only { Sound (recent self.old) → Only (LooksUp (recent self.old) wanted.entry) result }
        ensures same { Same (recent self.old) (recent self.new) }
        ensures sound { Sound (recent self.old) → Sound (recent self.new) }
        ensures order { Raises (recent self.old) result (recent self.new) }
        ensures size { size_of self.new ≡ size_of self.old }
    {
        let place = self.find(wanted)?;
        Some(self.raise(place))
    }

    fn insert(&mut self, offer: Offer<'_>)
        ensures entered { Enters (recent self.old) (offered offer.entry) (recent self.new) }
        ensures sound { Sound (recent self.old) → Sound (recent self.new) }
        ensures order { recent self.new ≡ pushed (size_of self.old) (offered offer.entry) (recent self.old) }
        ensures size { size_of self.new ≡ size_of self.old }
    {
        if let Some(new) = offer.accepted() {
            self.push(new);
        }
    }

    fn close(&mut self, tag: Tag, moment: u64)
        ensures closed { Closes (recent self.old) tag moment (recent self.new) }
        ensures sound { Sound (recent self.old) → Sound (recent self.new) }
        ensures order { recent self.new ≡ map (closed tag moment) (recent self.old) }
        ensures size { size_of self.new ≡ size_of self.old }
    {
        self.close_each(tag, moment);
    }

    fn drop_ended(&mut self, moment: Moment)
        ensures dropped { Drops (recent self.old) moment (recent self.new) }
        ensures sound { Sound (recent self.old) → Sound (recent self.new) }
        ensures order { recent self.new ≡ filter (outlasts moment) (recent self.old) }
        ensures size { size_of self.new ≡ size_of self.old }
    {
        self.keep(|entry| is_lasting(*entry, moment));
    }

    fn clear(&mut self)
        ensures none { recent self.new ≡ [] }
        ensures sound { Sound (recent self.new) }
        ensures size { size_of self.new ≡ size_of self.old }
    {
        self.len = 0;
    }
}
