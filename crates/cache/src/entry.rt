// Entries of a cache: what one covers, which give way to a new one, and what a close makes of one.
ghost use Rattle.std.specs.Prelude.{◌≡◌};
ghost use Rattle.cache.specs.Entries.{is_end, covers, answers, inside, share_moment, gives_way, has_moment, closed, ended_by, blank_entry};

use crate::key::Key;
use crate::tag_set::TagSet;
use terms::moment::is_moment;
use terms::{HIGHEST, Interval, Moment, Reading, Tag, Until};

// The value of a sheet with its argument, the moments for which it is right, and the tags that it rests on.
#[derive(Clone, Copy, PartialEq, Eq)]
pub struct Entry {
    pub key: Key,
    pub reading: Reading,
    pub interval: Interval,
    pub tags: TagSet,
}

// Whether a number may be the end of an interval.
fn is_end(number: u64) -> bool
    ensures { result ≡ is_end number }
{
    number <= HIGHEST + 1
}

pub(crate) fn has_moment(interval: Interval) -> bool
    ensures { result ≡ has_moment interval }
{
    let ends_past = match interval.until {
        Until::Ended { end } => interval.first < end && is_end(end),
        Until::Open { .. } => true,
    };
    is_moment(interval.first) && ends_past
}

// Whether the moment is in the interval, an open one having no end.
// Apart from `covers` and `Interval::contains`, which are alike but for what an open interval counts, so that each is a match on its kind:
// the rules define the three apart.
fn is_inside(interval: Interval, moment: Moment) -> bool
    ensures { result ≡ inside interval moment }
{
    let lasts = match interval.until {
        Until::Ended { end } => moment < end,
        Until::Open { .. } => true,
    };
    interval.first <= moment && lasts
}

fn share_moment(one: Interval, other: Interval) -> bool
    ensures { result ≡ share_moment one other }
{
    let later = one.first.max(other.first);
    is_inside(one, later) && is_inside(other, later)
}

impl Entry {
    // What may stand in a place of a table that is not used. By hand: a derive would give sheet 0, which an entry may have.
    pub fn blank() -> Entry
        ensures { result ≡ blank_entry }
    {
        Entry {
            key: Key {
                sheet: 255,
                argument: 0,
            },
            reading: None,
            interval: Interval::ended(0, 0),
            tags: TagSet::empty(),
        }
    }

    // Whether the moment is in the interval; of an open one, only up to the last that is delivered.
    pub fn covers(self, moment: Moment, delivered: Moment) -> bool
        ensures { result ≡ covers delivered self moment }
    {
        let known = match self.interval.until {
            Until::Ended { end } => moment < end,
            Until::Open { .. } => moment <= delivered,
        };
        is_moment(moment) && self.interval.first <= moment && known
    }

    // The same, of an entry of the key.
    pub fn answers(self, key: Key, moment: Moment, delivered: Moment) -> bool
        ensures { result ≡ answers key delivered self moment }
    {
        key == self.key && self.covers(moment, delivered)
    }

    // Whether the entry has to leave when the new one comes in.
    pub fn gives_way(self, new: Entry) -> bool
        ensures { result ≡ gives_way new self }
    {
        new.key == self.key && share_moment(new.interval, self.interval)
    }

    // What a close makes of the entry.
    pub fn closed(self, tag: Tag, moment: u64) -> Entry
        ensures { result ≡ closed tag moment self }
    {
        let is_open = matches!(self.interval.until, Until::Open { .. });
        if is_end(moment) && is_open && self.interval.first < moment && self.tags.touches(tag) {
            Entry {
                interval: Interval::ended(self.interval.first, moment),
                ..self
            }
        } else {
            self
        }
    }

    // Whether the entry has ended at or before the moment.
    pub fn is_ended_by(self, moment: Moment) -> bool
        ensures { result ≡ ended_by moment self }
    {
        match self.interval.until {
            Until::Ended { end } => end <= moment,
            Until::Open { .. } => false,
        }
    }
}
