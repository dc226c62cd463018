//! The files of a batch: fetched in order, scheduled each alone, and joined.
ghost use Rattle.std.specs.Prelude.{◌≡◌, ◌<◌, ◌≤◌, length, map, All, IfErr, IfOk};
ghost use Rattle.rc_instance.specs.declared.limits.TheConstants.{MAX_FILE_BYTES};
ghost use Rattle.rcpsp_run.specs.Causes.{Comes, IsOfFetch};
ghost use Rattle.batch_line.specs.Batch.{IsPlainName, IsEnding, batch_outcome};
ghost use Rattle.batch_line.specs.Runs.{IsJoinedOf, joined_view};

use crate::joined::{Joined, joined_of};
use crate::runs::runs_of;
use rc_edge::{Files, Gate};
use rc_instance::Memory;
use rcpsp_run::Refusal;
use rcpsp_run::fetch::fetch;
use rcpsp_words::Name;
use std::alloc::Global;
use std::sync::Wait;
use std::thread::Threads;

// What the files of these names come to: each is scheduled alone, by one of the workers.
pub(crate) fn batch<R: Threads + Wait + Sync, F: Files, G: Gate + Sync>(
    rt: &R,
    alloc: Global,
    names: &[Name],
    workers: u32,
    files: &mut F,
    gate: &G,
) -> Result<Joined, Refusal>
    requires names { (0 < length names.now) × (length names.now ≤ 100) }
    requires plain { All IsPlainName names.now }
    requires workers { (0 < workers) × (workers ≤ 64) }
    ensures comes { Comes joined_view names.now (λ pairs. batch_outcome pairs names.now)
        (record {
          told = F.told files.old;
          failing = F.failing files.old;
          faults = F.faults files.old;
          long = F.long files.old;
          fetches = F.fetches files.old;
        })
        (record {
          told = F.told files.new;
          failing = F.failing files.new;
          faults = F.faults files.new;
          long = F.long files.new;
          fetches = F.fetches files.new;
        }) result }
    ensures ends { IfOk result (λ joined. IsEnding joined.status) }
    ensures refused { IfErr result IsOfFetch }
{
    let words = texts_of(alloc, names)?;
    let texts = fetch(alloc, &words, files)?;
    let joined = joined_by(rt, alloc, names, &texts, workers, gate)?;
    Ok(joined)
}

// Names as texts.
fn texts_of<'n>(alloc: Global, names: &'n [Name]) -> Result<Vec<&'n str>, Memory>
    ensures { IfOk result (λ texts. map (λ text. text.now) texts.items ≡ names.entry.now) }
{
    let mut texts = Vec::with_capacity(alloc, names.len())?;
    for name in names {
        texts.push(name.text())?;
    }
    Ok(texts)
}

// The runs of these texts, joined.
fn joined_by<R: Threads + Wait + Sync, G: Gate + Sync>(
    rt: &R,
    alloc: Global,
    names: &[Name],
    texts: &[Vec<u8>],
    workers: u32,
    gate: &G,
) -> Result<Joined, Memory>
    requires names { (0 < length names.now) × (length names.now ≤ 100) }
    requires plain { All IsPlainName names.now }
    requires each { length texts.now ≡ length names.now }
    requires short { All (λ text. length text.items ≤ MAX_FILE_BYTES) texts.now }
    requires workers { (0 < workers) × (workers ≤ 64) }
    ensures joined { IfOk result (λ joined. IsJoinedOf names.now texts.now (joined_view joined)) }
    ensures ends { IfOk result (λ joined. IsEnding joined.status) }
{
    let rans = runs_of(rt, alloc, names, texts, workers, gate)?;
    let joined = joined_of(alloc, names, &rans)?;
    Ok(joined)
}
