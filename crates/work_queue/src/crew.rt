//! The workers, each in a thread of its own.
ghost use Rattle.std.specs.Prelude.{◌≡◌, ℕ, ◌-◌, ◌<◌, ◌≤◌, [], Ok, IfOk, OnOk, All, vec_len};
ghost use Rattle.crossbeam_queue.specs.Passes.{view, IsPassOf};
ghost use Rattle.work_queue.specs.Rule.{hand, whole};
ghost use Rattle.work_queue.specs.Work.{IsReady, IsReturned};

use crate::answers::{Returned, work_on};
use crate::queue::{Queue, Worker, another};
use std::alloc::{AllocError, Global};
use std::sync::Wait;
use std::thread;
use std::thread::Threads;

// Makes so many workers, with their numbers.
pub(crate) fn crew_of(
    alloc: Global,
    queue: &Queue,
    pass: &mut Worker,
    workers: u32,
) -> Result<Vec<(u32, Worker)>, AllocError>
    requires queue { IsPassOf queue.now pass.old }
    requires parts { workers < (view pass.old).parts }
    ensures queue { OnOk result (IsPassOf queue.now pass.new) }
    ensures pass { OnOk result (view pass.new
        ≡ hand ((view pass.old).parts - workers) (view pass.old).pushed (view pass.old).taken) }
    ensures count { IfOk result (λ crew. vec_len crew ≡ workers) }
    ensures ready { IfOk result (λ crew. All (IsReady queue.now workers (view pass.old).pushed) crew.items) }
{
    let mut crew = Vec::with_capacity(alloc, workers as usize)?;
    for number in 0..workers {
        crew.push((number, another(queue, pass)))?;
    }
    Ok(crew)
}

// Lets each of them work until no job is left.
pub(crate) fn run_all<
    R: Threads + Wait + Sync,
    T: Send + Drop,
    W: Fn(u32, u32) -> Result<T, AllocError> + Sync,
>(
    rt: &R,
    alloc: Global,
    queue: &Queue,
    crew: Vec<(u32, Worker)>,
    workers: u32,
    count: u32,
    work: &W,
) -> Result<Vec<Result<Returned<T>, AllocError>>, AllocError>
    requires crew { All (IsReady queue.now workers count) crew.items }
    requires work { (w i : ℕ) → w < workers → i < count → W.pre work.now w i }
    ensures count { IfOk result (λ returned. vec_len returned ≡ vec_len crew) }
    ensures returned { IfOk result (λ returned. All (λ one. IfOk one (IsReturned queue.now workers count
        (λ w i x. W.post work.now w i (Ok x)))) returned.items) }
{
    thread::map_vec(
        rt,
        crew,
        &|ready: (u32, Worker)|
            requires ready { IsReady queue.now workers count ready }
            requires work { (w i : ℕ) → w < workers → i < count → W.pre work.now w i }
            ensures { IfOk result (IsReturned queue.entry.now workers count
                (λ w i x. W.post work.entry.now w i (Ok x))) }
        {
            // The clauses speak of these two.
            let _ = (workers, count);
            work_on(rt, alloc, queue, ready.1, ready.0, work)
        },
    )
}
