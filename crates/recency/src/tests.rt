// Runs of a node on examples.
use crate::node::Recency;
use cache::{Cache, Entry, Key, LookUp, Offer};
use terms::{Fault, HIGHEST, Interval, Moment, Tag};

const KEY: Key = Key {
    sheet: 0,
    argument: 900,
};

// An offer of a number under the key.
fn offer(number: u32, interval: Interval, tags: &[Tag]) -> Offer<'_> {
    Offer {
        key: KEY,
        reading: Some((number, 0)),
        interval,
        tags,
    }
}

fn ask(moments: &[Moment], delivered: Moment) -> LookUp<'_> {
    LookUp {
        key: KEY,
        moments,
        delivered,
    }
}

fn tag(key: u32) -> Tag {
    Tag {
        table: 1,
        key: Some(key),
    }
}

// The number that was put in, or 0 for a miss: the tests keep their values.
fn number(found: Option<Entry>) -> u32 {
    found
        .and_then(|entry| entry.reading)
        .map_or(0, |(number, _)| number)
}

// Whether an entry covers the one moment and has ended by the other. It is passed by value twice, so it has to be copied.
fn lasts_until(entry: Entry, last: Moment, end: Moment) -> bool {
    entry.covers(last, 0) && entry.is_ended_by(end)
}

// Whether an insert into an empty node is found again at the moment.
fn keeps(sheet: u8, interval: Interval, tags: &[Tag], moment: Moment) -> Result<bool, Fault> {
    let mut table = [Entry::blank(); 2];
    let mut node = Recency::new(&mut table)?;
    let key = Key { sheet, argument: 5 };
    node.insert(Offer {
        key,
        reading: Some((7, 7)),
        interval,
        tags,
    });
    let found = node.look_up(LookUp {
        key,
        moments: &[moment],
        delivered: HIGHEST,
    });
    Ok(number(found) == 7)
}

#[test]
fn looks_up(rt: HostRuntime) -> Result<(), Fault> {
    let mut table = [Entry::blank(); 4];
    let mut node = Recency::new(&mut table)?;
    node.insert(offer(1, Interval::ended(11, 12), &[]));
    node.insert(offer(2, Interval::open(13, 13), &[tag(5)]));
    // two moments, the last delivered, and the number that is found
    let looks = [
        (11, 13, 12, 1),
        (11, 13, 13, 2),
        (13, 11, 99, 2),
        (14, 11, 13, 1),
        (10, 12, 13, 0),
    ];
    for (one, other, delivered, wanted) in looks {
        assert_eq!(rt; number(node.look_up(ask(&[one, other], delivered))), wanted);
    }
    node.close(
        Tag {
            table: 1,
            key: None,
        },
        14,
    );
    assert_eq!(rt; number(node.look_up(ask(&[14], 14))), 0);
    node.drop_ended(12);
    assert_eq!(rt; number(node.look_up(ask(&[11, 13], 14))), 2);
    Ok(())
}

#[test]
fn inserts(rt: HostRuntime) -> Result<(), Fault> {
    let tags = [
        tag(0),
        tag(1),
        tag(2),
        tag(3),
        tag(4),
        tag(5),
        tag(6),
        tag(7),
        tag(8),
    ];
    // sheet, interval, how many tags, a moment, and whether the entry is found there
    let rows = [
        (0, Interval::open(3, 3), 0, 3, true),
        (254, Interval::open(3, 3), 8, 3, true),
        (0, Interval::open(3, 3), 9, 3, false),
        (255, Interval::open(3, 3), 0, 3, false),
        (0, Interval::ended(3, 3), 0, 3, false),
        (0, Interval::open(HIGHEST, HIGHEST), 0, HIGHEST, true),
        (0, Interval::ended(HIGHEST, HIGHEST + 1), 0, HIGHEST, true),
        (
            0,
            Interval::open(HIGHEST + 1, HIGHEST + 1),
            0,
            HIGHEST,
            false,
        ),
        (0, Interval::ended(0, HIGHEST + 2), 0, 0, false),
    ];
    for (sheet, interval, count, moment, wanted) in rows {
        let some: usize = count;
        assert_eq!(rt;
            keeps(sheet, interval, &tags[0..some.min(9)], moment)?,
            wanted
        );
    }
    assert!(rt; !keeps(0, Interval::open(3, 3), &[tag(1), tag(2), tag(1)], 3)?);
    Ok(())
}

#[test]
fn throws_out(rt: HostRuntime) -> Result<(), Fault> {
    let mut table = [Entry::blank(); 2];
    let mut node = Recency::new(&mut table)?;
    // the third throws the first out; the fourth takes the place of the third
    for (number, first, end) in [(1, 1, 2), (2, 2, 3), (3, 3, 4), (4, 3, 5)] {
        node.insert(offer(number, Interval::ended(first, end), &[]));
    }
    assert_eq!(rt; number(node.look_up(ask(&[1, 2], 9))), 2);
    node.insert(offer(5, Interval::ended(7, 8), &[]));
    assert_eq!(rt; number(node.look_up(ask(&[2, 3], 9))), 2);
    Ok(())
}

#[test]
fn entries_are_copied(rt: HostRuntime) {
    let entry = offer(5, Interval::ended(3, 9), &[tag(4)]).accepted();
    assert_eq!(rt; entry.map(|entry| lasts_until(entry, 8, 9)), Some(true));
    assert_eq!(rt; entry.map(|entry| lasts_until(entry, 9, 9)), Some(false));
    assert_eq!(rt; entry.map(|entry| lasts_until(entry, 8, 8)), Some(false));
}
