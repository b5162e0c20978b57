// What a cache keeps of a day.
ghost use Rattle.std.specs.Prelude.{◌≡◌, [], Some};
ghost use Rattle.terms.specs.declared.interval.Until.TheVariants.{Open};

use crate::shown::Shown;
use cache::{Cache, Key, LookUp, Offer};
use std::io;
use terms::{Interval, Moment, Reading, Tag};

// The board's counts, the claim of ticket 900, and that of a ticket that is not there.
const COUNTS: Key = Key {
    sheet: 1,
    argument: 0,
};

const CLAIM: Key = Key {
    sheet: 0,
    argument: 900,
};

const LOST: Key = Key {
    sheet: 0,
    argument: 901,
};

// The tag of one key, or of all keys of a table.
fn tag(table: u8, key: Option<u32>) -> Tag
    ensures { result ≡ record { table = table; key = key } }
{
    Tag { table, key }
}

fn tell_insert<C: Cache>(rt: &impl Print, cache: &mut C, offer: Offer<'_>) -> io::Result<()> {
    cache.insert(offer);
    print!(rt;
        "in: {} is {}, {}",
        Shown(offer.key),
        Shown(offer.reading),
        Shown(offer.interval)
    )?;
    for tag in offer.tags {
        print!(rt; ", tag {}", Shown(*tag))?;
    }
    println!(rt; "")
}

// What a look-up is given stands in one line of the call.
fn tell_look_up<C: Cache>(
    rt: &impl Print,
    cache: &mut C,
    key: Key,
    moments: &[Moment],
    delivered: Moment,
) -> io::Result<()> {
    let found = cache.look_up(LookUp {
        key,
        moments,
        delivered,
    });
    println!(rt;
        "{} at {moments:?}, T = {delivered}: {}",
        Shown(key),
        Shown(found)
    )
}

fn tell_close<C: Cache>(rt: &impl Print, cache: &mut C, tag: Tag, moment: u64) -> io::Result<()> {
    cache.close(tag, moment);
    println!(rt; "closed: {} at {moment}", Shown(tag))
}

// An open entry counts up to the last delivered moment, and the newest listed moment decides.
fn tell_look_ups<C: Cache>(rt: &impl Print, cache: &mut C) -> io::Result<()> {
    let offers = [
        Offer {
            key: COUNTS,
            reading: Some((1, 0)),
            interval: Interval::ended(11, 12),
            tags: &[],
        },
        Offer {
            key: COUNTS,
            reading: Some((1, 0)),
            interval: Interval::open(13, 13),
            tags: &[tag(0, None)],
        },
        Offer {
            key: CLAIM,
            reading: Some((1, 5)),
            interval: Interval::ended(12, 13),
            tags: &[],
        },
        Offer {
            key: LOST,
            reading: None,
            interval: Interval::open(0, 13),
            tags: &[tag(1, Some(901))],
        },
    ];
    for offer in offers {
        tell_insert(rt, cache, offer)?;
    }
    tell_look_up(rt, cache, COUNTS, &[11, 13], 12)?;
    tell_look_up(rt, cache, COUNTS, &[11, 13], 13)?;
    tell_look_up(rt, cache, COUNTS, &[14, 13, 11], 13)?;
    tell_look_up(rt, cache, COUNTS, &[10, 12], 13)?;
    tell_look_up(rt, cache, CLAIM, &[12, 13], 13)?;
    tell_look_up(rt, cache, LOST, &[12, 13], 12)
}

// A change of door 5 reaches what rests on all doors, and a star what rests on one ticket.
fn tell_closes<C: Cache>(rt: &impl Print, cache: &mut C) -> io::Result<()> {
    tell_close(rt, cache, tag(0, Some(5)), 14)?;
    tell_look_up(rt, cache, COUNTS, &[13, 14], 15)?;
    tell_look_up(rt, cache, COUNTS, &[14], 15)?;
    tell_look_up(rt, cache, LOST, &[14], 15)?;
    tell_close(rt, cache, tag(1, None), 15)?;
    tell_look_up(rt, cache, LOST, &[14, 15], 15)?;
    tell_look_up(rt, cache, LOST, &[15], 15)
}

fn tell_leaving<C: Cache>(rt: &impl Print, cache: &mut C) -> io::Result<()> {
    cache.drop_ended(13);
    println!(rt; "dropped: what ended by 13")?;
    tell_look_up(rt, cache, COUNTS, &[11], 15)?;
    tell_look_up(rt, cache, CLAIM, &[12], 15)?;
    tell_look_up(rt, cache, COUNTS, &[13], 15)?;
    let late = Offer {
        key: COUNTS,
        reading: Some((0, 1)),
        interval: Interval::ended(12, 20),
        tags: &[],
    };
    tell_insert(rt, cache, late)?;
    tell_look_up(rt, cache, COUNTS, &[13], 15)?;
    cache.clear();
    println!(rt; "cleared")?;
    tell_look_up(rt, cache, COUNTS, &[13], 15)
}

// For a cache with room for these entries.
pub fn tell_cache<C: Cache>(rt: &impl Print, cache: &mut C) -> io::Result<()> {
    tell_look_ups(rt, cache)?;
    tell_closes(rt, cache)?;
    tell_leaving(rt, cache)
}

fn claim(ticket: u32) -> Key
    ensures { result ≡ record { sheet = 0; argument = ticket } }
{
    Key {
        sheet: 0,
        argument: ticket,
    }
}

// The claim sheet of a ticket at 13: the door where its bag lies.
fn offer(ticket: u32, door: u32) -> Offer<'static>
    ensures key { result.key ≡ record { sheet = 0; argument = ticket } }
    ensures reading { result.reading ≡ Some (1, door) }
    ensures interval { result.interval ≡ record { first = 13; until = Open 13 } }
    ensures tags { result.tags.now ≡ [] }
{
    Offer {
        key: claim(ticket),
        reading: Some((1, door)),
        interval: Interval::open(13, 13),
        tags: &[],
    }
}

// The claim sheets of four tickets, the first of which is looked up in between.
// Where there is no room, the entry that was used longest ago is thrown out.
pub fn tell_full<C: Cache>(rt: &impl Print, cache: &mut C) -> io::Result<()> {
    tell_insert(rt, cache, offer(2, 12))?;
    tell_insert(rt, cache, offer(4, 14))?;
    tell_look_up(rt, cache, claim(2), &[13], 13)?;
    tell_insert(rt, cache, offer(5, 15))?;
    tell_insert(rt, cache, offer(6, 16))?;
    for ticket in [2, 4, 5, 6] {
        tell_look_up(rt, cache, claim(ticket), &[13], 13)?;
    }
    Ok(())
}
