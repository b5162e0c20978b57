// What a caller hands to a cache.
ghost use Rattle.std.specs.Prelude.{◌≡◌, max, filter};
ghost use Rattle.std.specs.List.{reduce};
ghost use Rattle.cache.specs.Entries.{answers, offered};
ghost use Rattle.cache.specs.Calls.{Newest};

use crate::entry::{Entry, has_moment};
use crate::key::Key;
use crate::tag_set::TagSet;
use terms::{Interval, Moment, Reading, Tag};

// What an insert is given, not yet looked at.
#[derive(Clone, Copy)]
pub struct Offer<'a> {
    pub key: Key,
    pub reading: Reading,
    pub interval: Interval,
    pub tags: &'a [Tag],
}

impl Offer<'_> {
    // The entry that an insert of it adds, if it is accepted.
    pub fn accepted(self) -> Option<Entry>
        ensures { result ≡ offered self.entry }
    {
        if self.key.sheet == 255 || !has_moment(self.interval) {
            return None;
        }
        let tags = TagSet::from_slice(self.tags)?;
        Some(Entry {
            key: self.key,
            reading: self.reading,
            interval: self.interval,
            tags,
        })
    }
}

// What a look-up is given: the moments for which an entry of the key is wanted, and the last that is delivered.
#[derive(Clone, Copy)]
pub struct LookUp<'a> {
    pub key: Key,
    pub moments: &'a [Moment],
    pub delivered: Moment,
}

impl LookUp<'_> {
    // The newest of the moments that the entry answers.
    pub fn newest(self, entry: Entry) -> Option<Moment>
        ensures greatest { result ≡ reduce max (filter (answers self.entry.key self.entry.delivered entry) self.entry.moments.now) }
        ensures newest { Newest (answers self.entry.key self.entry.delivered entry) self.entry.moments.now result }
    {
        self.moments
            .iter()
            .copied()
            .filter(|moment| entry.answers(self.key, *moment, self.delivered))
            .max()
    }
}
