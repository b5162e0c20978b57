// The present records and the journal of a store.
ghost use Rattle.std.specs.Prelude.{◌≡◌, ◌+◌, ◌-◌, ◌<◌, ◌≤◌, min, ◌∷◌, [], ◌++◌, length, drop, vec_len, vec_capacity, filter, find, nat_lt};
ghost use Rattle.terms.specs.Records.{is_id};
ghost use Rattle.line.specs.Rings.{waiting};
ghost use Rattle.undo.specs.Journals.{held_of, other_than, present_after, leaves, entries_by, present_after_all, entries_after_all, later};

use crate::entry::{Entry, Held, Present};
use line::Line;
use terms::{Change, Moment, RecordId, Row};

// The entries wait in the journal, oldest first. There is room for as many present records, reserved at the making.
// The present records are a list and no map, which would allocate at a write; the journal is lent, with the line's numbers beside it.
#[derive(Drop)]
pub struct Ledger<'a> {
    pub(crate) present: Vec<Present>,
    pub(crate) journal: &'a mut [Entry],
    pub(crate) line: Line,
    ghost room: { line.size ≤ vec_capacity present },
    ghost fits: { line.size ≤ length journal.now },
}

// The present record of this name, if it is there.
fn find_present(present: &[Present], id: RecordId) -> Option<Present>
    ensures { result ≡ find (λ p. is_id id p.row.id) present.now }
{
    present.iter().copied().find(|p| id == p.row.id)
}

// What is held of a record, if it is present.
#[tactic(auto, using(crate::proofs::Finding::held_found, crate::proofs::Finding::held_missing))]
fn held_of(present: &[Present], id: RecordId) -> Option<Held>
    ensures { result ≡ held_of id present.now }
{
    let p = find_present(present, id)?;
    Some(Held::from(p))
}

// Whether a change leaves an entry, where this was held of its record.
fn leaves_entry(change: Change, former: Option<Held>) -> bool
    ensures { result ≡ leaves change former }
{
    match change {
        Change::Set { .. } => true,
        Change::Delete { .. } => former.is_some(),
    }
}

// How many entries are needed to undo the commits above the lowest held moment.
fn count_needed(entries: &[Entry], lowest: Moment) -> usize
    ensures { result ≡ length (later lowest entries.now) }
{
    entries.iter().filter(|entry| entry.commit > lowest).count()
}

// Whether a present record is another than the one named: what stays is decided here, where no proof is written out.
fn is_other(p: Present, id: RecordId) -> bool
    ensures { result ≡ other_than id p }
{
    id != p.row.id
}

// Takes a record out of the present ones. That the room stays is said here and below: between the steps of a write the list stands alone.
fn take_out(present: &mut Vec<Present>, id: RecordId)
    ensures items { present.new.items ≡ filter (other_than id) present.old.items }
    ensures capacity { vec_capacity present.new ≡ vec_capacity present.old }
    ensures len { vec_len present.new ≤ vec_len present.old }
{
    present.retain(|p| is_other(*p, id));
}

// Takes the record out of the present ones, and puts it in again where the change is a set.
// Moment and change are no struct: a write has one moment for many changes.
fn change_present(present: &mut Vec<Present>, moment: Moment, change: Change)
    requires { vec_len present.old + 1 ≤ vec_capacity present.old }
    ensures items { present.new.items ≡ present_after moment change present.old.items }
    ensures capacity { vec_capacity present.new ≡ vec_capacity present.old }
    ensures len { vec_len present.new ≤ vec_len present.old + 1 }
{
    take_out(present, change.id());
    if let Change::Set { id, value } = change {
        present.push_reserved(Present {
            row: Row { id, value },
            made: moment,
        });
    }
}

impl Ledger<'_> {
    ghost use Rattle.undo.specs.Ledgers.{Roomy, Grown};

    // Adds an entry behind the newest.
    fn note(&mut self, entry: Entry)
        requires { self.old.line.len < self.old.line.size }
        ensures entries { waiting self.new.line self.new.journal.now ≡ waiting self.old.line self.old.journal.now ++ entry ∷ [] }
        ensures present { self.new.present ≡ self.old.present }
        ensures len { self.new.line.len ≡ self.old.line.len + 1 }
        ensures size { self.new.line.size ≡ self.old.line.size }
    {
        // there is room, so it is taken
        let _ = self.line.push(self.journal, entry);
    }

    // One change: its entry, where it leaves one, and what it makes of the present records.
    fn change_one(&mut self, moment: Moment, change: Change)
        requires { Roomy 1 self.old }
        ensures entries { waiting self.new.line self.new.journal.now ≡ waiting self.old.line self.old.journal.now ++ entries_by moment change self.old.present.items }
        ensures present { self.new.present.items ≡ present_after moment change self.old.present.items }
        ensures grown { Grown 1 self.old self.new }
    {
        let former = held_of(&self.present, change.id());
        if leaves_entry(change, former) {
            self.note(Entry {
                commit: moment,
                id: change.id(),
                former,
            });
        }
        change_present(&mut self.present, moment, change);
    }

    // All changes, one after the other.
    pub(crate) fn change_all(&mut self, moment: Moment, changes: &[Change])
        requires { Roomy (length changes.now) self.old }
        ensures entries { waiting self.new.line self.new.journal.now ≡ entries_after_all moment changes.now self.old.present.items (waiting self.old.line self.old.journal.now) }
        ensures present { self.new.present.items ≡ present_after_all moment changes.now self.old.present.items }
        ensures grown { Grown (length changes.now) self.old self.new }
    {
        for change in changes {
            self.change_one(moment, *change);
        }
    }

    // How many entries have a commit above the moment.
    pub(crate) fn needed(&self, lowest: Moment) -> usize
        ensures { result ≡ length (later lowest (waiting self.now.line self.now.journal.now)) }
    {
        let (older, newer) = self.line.as_slices(self.journal);
        count_needed(older, lowest) + count_needed(newer, lowest)
    }

    // The smaller of the unused rows and of the places that are not needed.
    pub(crate) fn free(&self, lowest: Moment) -> usize
        ensures { result ≡ min (self.now.line.size - vec_len self.now.present) (self.now.line.size - length (later lowest (waiting self.now.line self.now.journal.now))) }
    {
        let size = self.line.size();
        let rows = size.saturating_sub(self.present.len());
        let places = size.saturating_sub(self.needed(lowest));
        rows.min(places)
    }

    // Lets all entries but the newest ones go.
    pub(crate) fn keep(&mut self, newest: usize)
        ensures entries { waiting self.new.line self.new.journal.now ≡ drop (self.old.line.len - newest) (waiting self.old.line self.old.journal.now) }
        ensures present { self.new.present ≡ self.old.present }
        ensures size { self.new.line.size ≡ self.old.line.size }
        ensures journal { self.new.journal.now ≡ self.old.journal.now }
    {
        self.line.skip(self.line.len().saturating_sub(newest));
    }
}
