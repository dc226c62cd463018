//! One worker: it takes jobs until none is left.
ghost use Rattle.std.specs.Prelude.{◌≡◌, ℕ, ◌<◌, Ok, IfOk};
ghost use Rattle.crossbeam_queue.specs.Passes.{view, IsPassOf};
ghost use Rattle.work_queue.specs.Work.{HasWorked};

use crate::queue::{Queue, Worker, next};
use std::alloc::{AllocError, Global};
use std::sync::Wait;

// What a worker gives back: its pass, and its answers with the numbers of their jobs.
pub(crate) type Returned<T> = (Worker, Vec<(u32, T)>);

// Takes jobs and does them, until the queue is empty.
pub(crate) fn work_on<R: Wait, T: Drop, W: Fn(u32, u32) -> Result<T, AllocError>>(
    rt: &R,
    alloc: Global,
    queue: &Queue,
    mut pass: Worker,
    number: u32,
    work: &W,
) -> Result<Returned<T>, AllocError>
    requires queue { IsPassOf queue.now pass }
    requires active { 0 < (view pass).parts }
    requires work { (job : ℕ) → job < (view pass).pushed → W.pre work.now number job }
    ensures queue { IfOk result (λ returned. IsPassOf queue.now returned.0) }
    ensures worked { IfOk result (λ returned. HasWorked (λ job x. W.post work.now number job (Ok x))
        (view pass) (view returned.0) returned.1.items) }
{
    let mut done = Vec::new(alloc);
    for _ in rt.forever() {
        let Some(job) = next(rt, queue, &mut pass) else {
            return Ok((pass, done));
        };
        let answer = work(number, job)?;
        done.push((job, answer))?;
    }
    unreachable!()
}
