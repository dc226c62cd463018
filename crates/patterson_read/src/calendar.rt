ghost use Rattle.std.specs.Prelude.{◌≡◌, ◌+◌, ◌≤◌, [], length, Option, IfOk, IfErr};
ghost use Rattle.rc_instance.specs.declared.limits.TheConstants.{MAX_FILE_BYTES, MAX_RESOURCES};
ghost use Rattle.rc_instance.specs.Calendar.{IsCalendar};
ghost use Rattle.rc_edge.specs.Grammar.{Gives, GivesOrMemory, more};
ghost use Rattle.patterson_read.specs.Calendar.{count_due, resource_due, rises, period_due, change_due, next_change, changes_due, read_calendar, IsCalendarKind};

use crate::cursor::Cursor;
use rc_edge::{NumberSource, TextFault, TextKind, read_capacity, refuse_if};
use rc_instance::Change;
use rc_instance::limits::{MAX_CHANGE_PERIOD, MAX_CHANGES};
use std::alloc::Global;

/// The changes that a calendar file tells for so many resources, or the first fault of the text.
///
/// A calendar is the number of its changes, at most 1,000, and then for each a resource, the period
/// from which on it has another capacity, from 1 to 65,535, and that capacity, at most 65,535; each
/// change is of a greater resource than the one before, or of the same in a later period. The
/// fault's offset is that of the token at fault, or the length of the text where it ends too early.
/// `NotRising` is shown at the period. `Memory` may come at any place, with offset 0.
pub fn read_calendar(alloc: Global, bytes: &[u8], resources: u32) -> Result<Vec<Change>, TextFault>
    requires size { length bytes.now ≤ MAX_FILE_BYTES }
    requires resources { resources ≤ MAX_RESOURCES }
    ensures reads { GivesOrMemory (λ changes. changes.items) result
        (read_calendar resources bytes.now) }
    ensures calendar { IfOk result (λ changes. IsCalendar resources changes.items) }
    ensures kinds { IfErr result (λ fault. IsCalendarKind fault.kind) }
{
    let mut cursor = Cursor::new(bytes);
    read_changes(alloc, &mut cursor, resources)
}

/// All changes, up to the end of the text.
#[tactic(auto, unfolding(crate::specs::Calendar::changes_due))]
fn read_changes(
    alloc: Global,
    cursor: &mut Cursor,
    resources: u32,
) -> Result<Vec<Change>, TextFault>
    ensures { GivesOrMemory (λ changes. changes.items) result
        (changes_due resources cursor.old) }
{
    let count = read_count(cursor)?;
    let changes = read_each(alloc, cursor, resources, count)?;
    cursor.end()?;
    Ok(changes)
}

/// How many changes there are.
#[tactic(auto, unfolding(crate::specs::Calendar::count_due))]
fn read_count(cursor: &mut Cursor) -> Result<u32, TextFault>
    ensures { Gives (λ count. (count, cursor.new)) result (count_due cursor.old) }
{
    let number = cursor.number()?;
    refuse_if(
        number.value > MAX_CHANGES,
        TextKind::TooManyChanges,
        number.at,
    )?;
    Ok(number.value)
}

/// So many changes.
fn read_each(
    alloc: Global,
    cursor: &mut Cursor,
    resources: u32,
    count: u32,
) -> Result<Vec<Change>, TextFault>
    ensures { GivesOrMemory (λ changes. (changes.items, cursor.new)) result
        (more (next_change resources) count [] cursor.old) }
{
    let mut changes = Vec::new(alloc);
    for _ in 0..count {
        let change = read_change(cursor, resources, changes.last().copied())?;
        changes.push(change)?;
    }
    Ok(changes)
}

/// A change, after the one before it, if there is one.
#[tactic(auto, unfolding(crate::specs::Calendar::change_due))]
fn read_change(
    cursor: &mut Cursor,
    resources: u32,
    before: Option<Change>,
) -> Result<Change, TextFault>
    ensures { Gives (λ change. (change, cursor.new)) result
        (change_due resources before cursor.old) }
{
    let resource = read_resource(cursor, resources)?;
    let period = read_period(cursor, before, resource)?;
    let capacity = read_capacity(cursor, resource)?;
    Ok(Change {
        resource,
        period,
        capacity,
    })
}

/// The resource of a change, of so many in all.
#[tactic(auto, unfolding(crate::specs::Calendar::resource_due))]
fn read_resource(cursor: &mut Cursor, resources: u32) -> Result<u32, TextFault>
    ensures { Gives (λ resource. (resource, cursor.new)) result
        (resource_due resources cursor.old) }
{
    let number = cursor.number()?;
    let is_wild = number.value == 0 || number.value > resources;
    refuse_if(is_wild, TextKind::ResourceOutOfRange, number.at)?;
    Ok(number.value)
}

/// The period of a change of a resource, after the change before it.
#[tactic(auto, unfolding(crate::specs::Calendar::period_due))]
fn read_period(cursor: &mut Cursor, before: Option<Change>, resource: u32) -> Result<u32, TextFault>
    ensures { Gives (λ period. (period, cursor.new)) result
        (period_due before resource cursor.old) }
{
    let number = cursor.number()?;
    let period = number.value;
    let is_wild = period == 0 || period > MAX_CHANGE_PERIOD;
    refuse_if(is_wild, TextKind::PeriodOutOfRange, number.at)?;
    refuse_if(
        !rises(before, resource, period),
        TextKind::NotRising,
        number.at,
    )?;
    Ok(period)
}

/// Whether a change of a resource in a period comes after the one before.
fn rises(before: Option<Change>, resource: u32, period: u32) -> bool
    ensures { result ≡ rises before resource period }
{
    match before {
        Some(before) => {
            before.resource < resource || (before.resource == resource && before.period < period)
        }
        None => true,
    }
}
