// Whether a write is refused, for every kind of database.
ghost use Rattle.std.specs.Prelude.{◌≡◌, []};
ghost use Rattle.database.specs.Writes.{names, wrong_change, wrong_list, refusal, Refuses};

use terms::{Change, Fault, HIGHEST, Moment, RecordId};

// Whether a change of the list names the record.
fn is_named(id: RecordId, changes: &[Change]) -> bool
    ensures { result ≡ names id changes.now }
{
    changes.iter().any(|change| id == change.id())
}

// Refuses the first change whose table is not there, or whose record is named before it.
fn check_each(changes: &[Change]) -> Result<(), Fault>
    ensures { Refuses (wrong_change [] changes.now) result }
{
    for (index, change) in changes.iter().enumerate() {
        if !change.id().is_known() {
            return Err(Fault::ChangeTable { index });
        }
        if is_named(change.id(), &changes[..index]) {
            return Err(Fault::RecordRepeated { index });
        }
    }
    Ok(())
}

// Refuses a list of changes in which something is wrong, whatever the database holds.
pub fn check_list(changes: &[Change]) -> Result<(), Fault>
    ensures { Refuses (wrong_list changes.now) result }
{
    if changes.is_empty() {
        return Err(Fault::NoChange);
    }
    if changes.len() > 16 {
        return Err(Fault::TooManyChanges);
    }
    check_each(changes)
}

// Refuses a write of these changes to a database with this latest moment and free number, if there is a reason to.
pub fn check_write(latest: Moment, free: u64, changes: &[Change]) -> Result<(), Fault>
    ensures { Refuses (refusal latest free changes.now) result }
{
    check_list(changes)?;
    if latest >= HIGHEST {
        return Err(Fault::MomentsUsedUp);
    }
    // `as`, since a usize has no From to u64
    if free < changes.len() as u64 {
        return Err(Fault::StoreFull);
    }
    Ok(())
}
