//! The queue of the jobs, and its steps.
ghost use Rattle.std.specs.Prelude.{◌≡◌, ◌+◌, ◌<◌, ℕ, [], IfOk, MatchOption};
ghost use Rattle.crossbeam_queue.specs.Passes.{view, IsPassOf, ruled_capacity};
ghost use Rattle.work_queue.specs.Rule.{hand, whole, weigh, weigh_below, newcomer, with_taken, with_part_lent, lent, merged};

use crate::hand::Hand;
use crate::plays::{Once, Parted, Pushed, Taken};
use crossbeam_queue::{Pass, RuledArrayQueue};
use std::alloc::{AllocError, Global};
use std::sync::Wait;

pub(crate) type Queue = RuledArrayQueue<u32, Hand, Once>;

pub(crate) type Worker = Pass<u32, Hand>;

// A queue for so many jobs, and the pass of who makes it.
pub(crate) fn open(alloc: Global, count: u32) -> Result<(Queue, Worker), AllocError>
    requires { 0 < count }
    ensures { IfOk result (λ opened. (ruled_capacity opened.0 ≡ count) × IsPassOf opened.0 opened.1
        × (view opened.1 ≡ newcomer)) }
{
    let (queue, pass) = Queue::ruled(alloc, count as usize)?;
    Ok((queue, pass))
}

// Pushes the jobs 0, 1 and so on.
pub(crate) fn fill(rt: &impl Wait, queue: &Queue, pass: &mut Worker, count: u32)
    requires queue { IsPassOf queue.now pass.old }
    requires room { ruled_capacity queue.now ≡ count }
    requires fresh { view pass.old ≡ newcomer }
    ensures queue { IsPassOf queue.now pass.new }
    ensures filled { view pass.new ≡ hand whole count [] }
{
    for job in 0..count {
        push(rt, queue, pass, job);
    }
}

// Pushes the next job: the queue has room for each.
fn push<R: Wait>(rt: &R, queue: &Queue, pass: &mut Worker, job: u32)
    requires queue { IsPassOf queue.now pass.old }
    requires room { job < ruled_capacity queue.now }
    requires next { view pass.old ≡ hand whole job [] }
    ensures queue { IsPassOf queue.now pass.new }
    ensures pushed { view pass.new ≡ hand whole (job + 1) [] }
{
    match queue.push_as::<Pushed, R>(rt, pass, job) {
        Ok(()) => {}
        Err(_) => unreachable!(),
    }
}

// Takes the next job, if one is left.
pub(crate) fn next<R: Wait>(rt: &R, queue: &Queue, pass: &mut Worker) -> Option<u32>
    requires queue { IsPassOf queue.now pass.old }
    requires active { 0 < (view pass.old).parts }
    ensures queue { IsPassOf queue.now pass.new }
    ensures taken { MatchOption result ((view pass.new ≡ view pass.old)
        × ((view pass.old).parts ≡ whole
        → (h : ℕ → ℕ) → weigh_below h (view pass.old).pushed ≡ weigh h (view pass.old).taken))
        (λ job. (job < (view pass.old).pushed) × (view pass.new ≡ with_taken (view pass.old) job)) }
{
    queue.pop_as::<Taken, R>(rt, pass)
}

// Makes another worker.
pub(crate) fn another(queue: &Queue, pass: &mut Worker) -> Worker
    requires queue { IsPassOf queue.now pass.old }
    requires parts { 1 < (view pass.old).parts }
    ensures queue { IsPassOf queue.now pass.new × IsPassOf queue.now result }
    ensures views { (view pass.new ≡ with_part_lent (view pass.old)) × (view result ≡ lent (view pass.old)) }
{
    queue.another::<Parted>(pass)
}

// Takes a worker back.
pub(crate) fn take_back(queue: &Queue, pass: &mut Worker, worker: Worker)
    requires queue { IsPassOf queue.now pass.old × IsPassOf queue.now worker }
    requires parts { 0 < (view pass.old).parts }
    ensures queue { IsPassOf queue.now pass.new }
    ensures view { view pass.new ≡ merged (view pass.old) (view worker) }
{
    queue.absorb::<Parted>(pass, worker);
}
