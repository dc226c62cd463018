//! The runs of many files, each alone, by several workers.
ghost use Rattle.std.specs.Prelude.{◌≡◌, ℕ, ◌<◌, ◌≤◌, length, All, Some, IfOk, vec_len, slice_get};
ghost use Rattle.rc_instance.specs.declared.limits.TheConstants.{MAX_FILE_BYTES};
ghost use Rattle.batch_line.specs.Batch.{IsPlainName};
ghost use Rattle.batch_line.specs.Runs.{IsRunOf};

use crate::alone::run_alone;
use crate::ran::Ran;
use rc_edge::{Gate, Point};
use rc_instance::Memory;
use rcpsp_words::Name;
use std::alloc::{AllocError, Global};
use std::sync::Wait;
use std::thread::Threads;
use work_queue::hand_out;

// What each file comes to, in order of the names, whichever worker did it.
pub(crate) fn runs_of<R: Threads + Wait + Sync, G: Gate + Sync>(
    rt: &R,
    alloc: Global,
    names: &[Name],
    texts: &[Vec<u8>],
    workers: u32,
    gate: &G,
) -> Result<Vec<Ran>, Memory>
    requires names { (0 < length names.now) × (length names.now ≤ 100) }
    requires plain { All IsPlainName names.now }
    requires each { length texts.now ≡ length names.now }
    requires short { All (λ text. length text.items ≤ MAX_FILE_BYTES) texts.now }
    requires workers { (0 < workers) × (workers ≤ 64) }
    ensures count { IfOk result (λ rans. vec_len rans ≡ length names.now) }
    ensures runs { IfOk result (λ rans. (i : ℕ) (ran : Ran) → slice_get rans.items i ≡ Some ran
        → IsRunOf names.now texts.now i ran) }
{
    let rans = hand_out(
        rt,
        alloc,
        names.len() as u32,
        workers,
        &|worker: u32, job: u32| -> Result<Ran, AllocError>
            requires job { (job < length names.now) × (length texts.now ≡ length names.now) }
            requires plain { All IsPlainName names.now }
            requires short { All (λ text. length text.items ≤ MAX_FILE_BYTES) texts.now }
            ensures { IfOk result (IsRunOf names.entry.now texts.entry.now job) }
        {
            gate.at(worker, Point::Claimed, job);
            let place = job as usize;
            match run_alone(rt, alloc, names[place].text(), &texts[place]) {
                Ok(ran) => Ok(ran),
                Err(_) => Err(AllocError),
            }
        },
    )?;
    Ok(rans)
}
