//! Files by their names.
ghost use Rattle.std.specs.Prelude.{◌≡◌, ◌≢◌, ◌≤◌, length, map, All, Err, IfErr, IfOk};
ghost use Rattle.rc_instance.specs.declared.limits.TheConstants.{MAX_FILE_BYTES};
ghost use Rattle.rcpsp_run.specs.declared.refusal.Refusal.TheVariants.{Words};
ghost use Rattle.rcpsp_run.specs.Outcome.{contents};
ghost use Rattle.rcpsp_run.specs.Causes.{Comes, IsOfFetch, IsRefusalOf};

use crate::refusal::Refusal;
use rc_edge::{FetchFault, Files, fetch_all};
use rc_instance::limits::MAX_FILE_BYTES;
use rcpsp_words::Name;
use std::alloc::Global;

/// The texts of the files of these names, in order, each of at most 4,194,304 bytes and by one fetch.
///
/// The refusal is that of the first name whose file cannot be read or is too large.
pub fn fetch<F: Files>(
    alloc: Global,
    names: &[&str],
    files: &mut F,
) -> Result<Vec<Vec<u8>>, Refusal>
    ensures comes { Comes (λ texts. map (λ text. text.items) texts.items) (map (λ name. name.now) names.now)
        (λ pairs. contents pairs (map (λ name. name.now) names.now))
        (record {
          told = F.told files.old;
          failing = F.failing files.old;
          faults = F.faults files.old;
          long = F.long files.old;
          fetches = F.fetches files.old;
        })
        (record {
          told = F.told files.new;
          failing = F.failing files.new;
          faults = F.faults files.new;
          long = F.long files.new;
          fetches = F.fetches files.new;
        }) result }
    ensures length { IfOk result (λ texts. All (λ text. length text.items ≤ MAX_FILE_BYTES) texts.items) }
    ensures count { IfOk result (λ texts. length texts.items ≡ length names.now) }
    ensures understood { result ≢ Err Words }
    ensures kinds { IfErr result IsOfFetch }
{
    match fetch_all(alloc, names, MAX_FILE_BYTES as usize, files) {
        Ok(texts) => Ok(texts),
        Err((place, fault)) => Err(refusal_of(alloc, names[place], fault)),
    }
}

// The refusal of a file by its fault.
fn refusal_of(alloc: Global, name: &str, fault: FetchFault) -> Refusal
    ensures { IsRefusalOf name.now fault result }
{
    let Ok(name) = Name::of(alloc, name) else {
        return Refusal::Memory;
    };
    match fault {
        FetchFault::Failed => Refusal::CannotRead { name },
        FetchFault::TooLarge => Refusal::TooLarge { name },
        FetchFault::Memory => Refusal::Memory,
    }
}
