ghost use Rattle.std.specs.Prelude.{◌≡◌, ◌^◌, ◌<◌, ◌≤◌, length, take, vec_len, All, slice_get};
ghost use Rattle.std.specs.Prelude.{Some, IfOk, IfErr, OnOk, IfSome, IsSomeAnd, MatchResult};
ghost use Rattle.rc_edge.specs.Files.{file_of, Counts, SameCounts, NoneFalls};
ghost use Rattle.rc_edge.specs.Faults.{one_more};
ghost use Rattle.rc_edge.specs.Fetches.{IsBeyond, AreFiles, AreWithin, HasReason, MakesFetches};
ghost use Rattle.rc_edge.specs.declared.files.FetchFault.TheVariants.{TooLarge};

use crate::files::{FetchFault, Files};
use std::alloc::Global;

/// The bytes of one file, at most `limit`, by one fetch.
pub fn fetch_one<F: Files>(
    alloc: Global,
    name: &str,
    limit: usize,
    files: &mut F,
) -> Result<Vec<u8>, FetchFault>
    requires { limit < 2 ^ 31 }
    ensures told { F.told files.new ≡ F.told files.old }
    ensures failing { F.failing files.new ≡ F.failing files.old }
    ensures fetches { F.fetches files.new ≡ one_more (F.fetches files.old) }
    ensures counts { Counts name.now (F.faults files.old) (F.faults files.new)
        (F.long files.old) (F.long files.new) result }
    ensures length { IfOk result (λ text. length text.items ≤ limit) }
    ensures bytes { IfSome (F.told files.old) (λ pairs. MatchResult result
        (λ text. file_of pairs name.now ≡ Some text.items)
        (λ fault. fault ≡ TooLarge → IsBeyond pairs limit name.now)) }
{
    let mut text = Vec::new(alloc);
    files.fetch(name, limit, &mut text)?;
    Ok(text)
}

/// The bytes of several files, in the order of their names, each at most `limit` and by one fetch.
///
/// It stops at the first name that is refused, and answers its place, counted from 0, and why.
pub fn fetch_all<F: Files>(
    alloc: Global,
    names: &[&str],
    limit: usize,
    files: &mut F,
) -> Result<Vec<Vec<u8>>, (usize, FetchFault)>
    requires { limit < 2 ^ 31 }
    ensures told { F.told files.new ≡ F.told files.old }
    ensures failing { F.failing files.new ≡ F.failing files.old }
    ensures fetches { MakesFetches (length names.now) (F.fetches files.old) (F.fetches files.new) result }
    ensures faults_stay { NoneFalls (F.faults files.old) (F.faults files.new) }
    ensures long_stay { NoneFalls (F.long files.old) (F.long files.new) }

    ensures count { IfOk result (λ texts. vec_len texts ≡ length names.now) }
    ensures length { IfOk result (λ texts. All (λ text. length text.items ≤ limit) texts.items) }
    ensures stand { OnOk result (SameCounts (F.faults files.old) (F.faults files.new)
        × SameCounts (F.long files.old) (F.long files.new)) }
    ensures files { IfSome (F.told files.old) (λ pairs.
        IfOk result (λ texts. AreFiles pairs names.now texts.items)) }

    ensures reason { IfErr result (λ refused. IsSomeAnd (slice_get names.now refused.0) (λ name.
        HasReason refused.1 (F.faults files.old) (F.faults files.new)
        (F.long files.old) (F.long files.new) name.now)) }
    ensures before { IfSome (F.told files.old) (λ pairs.
        IfErr result (λ refused. AreWithin pairs limit (take refused.0 names.now))) }
    ensures beyond { IfSome (F.told files.old) (λ pairs. IfErr result (λ refused.
        refused.1 ≡ TooLarge → IsSomeAnd (slice_get names.now refused.0) (λ name.
        IsBeyond pairs limit name.now))) }
{
    let mut texts = Vec::new(alloc);
    for (place, name) in names.iter().enumerate() {
        let text = match fetch_one(alloc, name, limit, files) {
            Ok(text) => text,
            Err(fault) => return Err((place, fault)),
        };
        match texts.push(text) {
            Ok(()) => {}
            Err(_) => return Err((place, FetchFault::Memory)),
        }
    }
    Ok(texts)
}
