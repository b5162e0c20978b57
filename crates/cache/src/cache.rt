// What every kind of cache answers. No call asks anything of its caller.
ghost use Rattle.std.specs.Prelude.{◌≡◌, List, []};
ghost use Rattle.cache.specs.declared.entry.Entry.{Entry};
ghost use Rattle.cache.specs.Lists.{Same};
ghost use Rattle.cache.specs.Entries.{offered};
ghost use Rattle.cache.specs.Calls.{LooksUp, Only, Enters, Closes, Drops, Sound};

use crate::call::{LookUp, Offer};
use crate::entry::Entry;
use terms::{Moment, Tag};

// A cache is a set of entries. Two entries of one key never share a moment (`Sound`), and each call keeps that.
// It is said at each call, and by no type: a foreign cache or a lent table may hold anything.
pub trait Cache {
    // The entries, as a list: what counts is which entries are in it.
    ghost entries: { Self → List Entry };

    // The entry that covers the newest listed moment that any entry of the key covers, or a miss.
    // Where the entries are sound there is only one such answer.
    // An open entry covers up to `delivered`, the last moment whose changes have been closed.
    fn look_up(&mut self, wanted: LookUp<'_>) -> Option<Entry>
        ensures answer { LooksUp (entries self.old) wanted.entry result }
        ensures only { Sound (entries self.old) → Only (LooksUp (entries self.old) wanted.entry) result }
        ensures same { Same (entries self.old) (entries self.new) }
        ensures sound { Sound (entries self.old) → Sound (entries self.new) };

    // Adds an entry, for which those of its key that share a moment with it leave, and perhaps one more.
    // Nothing changes if the interval has no moment, the sheet is 255, a tag repeats or there are over 8.
    // A first number above the highest moment is no moment, and an end above the number after it is no end.
    fn insert(&mut self, offer: Offer<'_>)
        ensures entered { Enters (entries self.old) (offered offer.entry) (entries self.new) }
        ensures sound { Sound (entries self.old) → Sound (entries self.new) };

    // Every open entry with a touching tag and a first moment below `moment` gets the end `moment`.
    // Nothing changes if that is above the number after the highest moment.
    // Tag and moment are no struct: a message has one moment for many tags.
    fn close(&mut self, tag: Tag, moment: u64)
        ensures closed { Closes (entries self.old) tag moment (entries self.new) }
        ensures sound { Sound (entries self.old) → Sound (entries self.new) };

    // Removes the entries that have ended at or before the moment. Any number will do.
    fn drop_ended(&mut self, moment: Moment)
        ensures dropped { Drops (entries self.old) moment (entries self.new) }
        ensures sound { Sound (entries self.old) → Sound (entries self.new) };

    // Removes all entries.
    fn clear(&mut self)
        ensures none { entries self.new ≡ [] }
        ensures sound { Sound (entries self.new) };
}
