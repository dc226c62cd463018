//! The answers in order of the jobs.
ghost use Rattle.std.specs.Prelude.{◌≡◌, ◌≢◌, ◌<◌, length, map, None, Some, IfOk, All, slice_set};
ghost use Rattle.work_queue.specs.Work.{placed};

use std::alloc::{AllocError, Global};

// Empty places for so many answers.
pub(crate) fn slots_for<T: Drop>(alloc: Global, count: u32) -> Result<Vec<Option<T>>, AllocError>
    ensures count { IfOk result (λ slots. length slots.items ≡ count) }
    ensures empty { IfOk result (λ slots. All (λ slot. slot ≡ None) slots.items) }
{
    let mut slots = Vec::with_capacity(alloc, count as usize)?;
    for filled in 0..count {
        slots.push(None)?;
    }
    Ok(slots)
}

// Puts each answer into the place of its job.
pub(crate) fn place<T: Drop>(slots: &mut Vec<Option<T>>, done: Vec<(u32, T)>)
    requires { All (λ one. one.0 < length slots.old.items) done.items }
    ensures { slots.new.items ≡ placed slots.old.items done.items }
{
    for (job, answer) in done {
        put(slots, job as usize, answer);
    }
}

fn put<T: Drop>(slots: &mut Vec<Option<T>>, place: usize, answer: T)
    requires { place < length slots.old.items }
    ensures { slots.new.items ≡ slice_set slots.old.items place (Some answer) }
{
    slots[place] = Some(answer);
}

// The answers, where each place has one.
pub(crate) fn values_of<T: Drop>(alloc: Global, slots: Vec<Option<T>>) -> Result<Vec<T>, AllocError>
    requires { All (λ slot. slot ≢ None) slots.items }
    ensures { IfOk result (λ values. map Some values.items ≡ slots.items) }
{
    let mut values = Vec::with_capacity(alloc, slots.len())?;
    for slot in slots {
        match slot {
            Some(answer) => values.push(answer)?,
            None => unreachable!(),
        }
    }
    Ok(values)
}
