ghost use Rattle.std.specs.Prelude.{◌≡◌, ℕ, ◌<◌, ◌≤◌, [], Ok, Some, IfOk, OnOk, length, vec_len, slice_get};
ghost use Rattle.crossbeam_queue.specs.Passes.{view, IsPassOf};
ghost use Rattle.work_queue.specs.Rule.{hand, whole};
ghost use Rattle.work_queue.specs.Work.{IsGiven, AreSlots};

use crate::answers::work_on;
use crate::crew::{crew_of, run_all};
use crate::queue::{Queue, Worker, fill, open, take_back};
use crate::slots::{place, slots_for, values_of};
use std::alloc::{AllocError, Global};
use std::sync::Wait;
use std::thread::Threads;

/// The greatest number of workers.
pub const MAX_WORKERS: u32 = 64;

/// Does the jobs 0 to `count - 1`, and answers what `work` answers for them, in order of the jobs.
///
/// So many workers take the jobs from a queue, each in a thread of its own, until none is left. `work`
/// is called with the number of the worker, from 0 on, and that of the job. The error is want of memory,
/// of this call or of `work`.
pub fn hand_out<R, T, W>(
    rt: &R,
    alloc: Global,
    count: u32,
    workers: u32,
    work: &W,
) -> Result<Vec<T>, AllocError>
where
    R: Threads + Wait + Sync,
    T: Send + Drop,
    W: Fn(u32, u32) -> Result<T, AllocError> + Sync,
    requires count { 0 < count }
    requires workers { (0 < workers) × (workers ≤ MAX_WORKERS) }
    requires work { (w i : ℕ) → w < workers → i < count → W.pre work.now w i }
    ensures count { IfOk result (λ values. vec_len values ≡ count) }
    ensures answers { IfOk result (λ values. (i : ℕ) (x : T) → slice_get values.items i ≡ Some x
        → IsGiven workers (λ w i x. W.post work.now w i (Ok x)) i x) }
{
    let (queue, mut pass) = open(alloc, count)?;
    fill(rt, &queue, &mut pass, count);
    let mut slots = work_all(rt, alloc, &queue, &mut pass, count, workers, work)?;
    // With all passes in one hand again, an empty queue says that each job was done.
    let (_, rest) = work_on(rt, alloc, &queue, pass, 0, work)?;
    place(&mut slots, rest);
    let values = values_of(alloc, slots)?;
    Ok(values)
}

// Lets the workers work until no job is left, takes them back, and places their answers.
fn work_all<
    R: Threads + Wait + Sync,
    T: Send + Drop,
    W: Fn(u32, u32) -> Result<T, AllocError> + Sync,
>(
    rt: &R,
    alloc: Global,
    queue: &Queue,
    pass: &mut Worker,
    count: u32,
    workers: u32,
    work: &W,
) -> Result<Vec<Option<T>>, AllocError>
    requires queue { IsPassOf queue.now pass.old }
    requires filled { view pass.old ≡ hand whole count [] }
    requires workers { workers ≤ MAX_WORKERS }
    requires work { (w i : ℕ) → w < workers → i < count → W.pre work.now w i }
    ensures queue { OnOk result (IsPassOf queue.now pass.new) }
    ensures parts { OnOk result ((view pass.new).parts ≡ whole) }
    ensures pushed { OnOk result ((view pass.new).pushed ≡ count) }
    ensures count { IfOk result (λ slots. length slots.items ≡ count) }
    ensures placed { IfOk result (λ slots. AreSlots
        (IsGiven workers (λ w i x. W.post work.now w i (Ok x))) (view pass.new).taken slots.items) }
{
    let crew = crew_of(alloc, queue, pass, workers)?;
    let returned = run_all(rt, alloc, queue, crew, workers, count, work)?;
    let mut slots = slots_for(alloc, count)?;
    for one in returned {
        let back = one?;
        take_back(queue, pass, back.0);
        place(&mut slots, back.1);
    }
    Ok(slots)
}
