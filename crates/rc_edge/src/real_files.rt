ghost use Rattle.std.specs.Prelude.{◌≡◌, ℕ, ◌^◌, ◌<◌, List, [], None, IfSome, IsErrOf};
ghost use Rattle.rc_edge.specs.Files.{Takes, Fetches};
ghost use Rattle.rc_edge.specs.declared.files.FetchFault.TheVariants.{Failed};

use crate::files::{FetchFault, Files};
use std::io::Read;
use std::{fs, rt};

/// The bytes that one read asks for at most.
const CHUNK: usize = 4096;

/// The real file system, whose name `-` is standard input. It tells nothing.
///
/// Its counts serve all names alike: of the fetches, of the errors of the system, and of the long files.
#[derive(Drop)]
pub struct RealFiles<'r, R> {
    rt: &'r R,
    fetches: u64,
    faults: u64,
    long: u64,
}

impl<'r, R: rt::Files + Input> RealFiles<'r, R> {
    /// The files that this runtime reaches.
    pub fn new(rt: &'r R) -> Self
        ensures fetches { ⟦<RealFiles<'r, R> as Files>⟧.fetches result ≡ 0 }
        ensures faults { (name : List ℕ) → ⟦<RealFiles<'r, R> as Files>⟧.faults result name ≡ 0 }
        ensures long { (name : List ℕ) → ⟦<RealFiles<'r, R> as Files>⟧.long result name ≡ 0 }
    {
        RealFiles {
            rt,
            fetches: 0,
            faults: 0,
            long: 0,
        }
    }
}

impl<R: rt::Files + Input> Files for RealFiles<'_, R> {
    ghost told = { λ _. None };

    ghost fetches = { λ f. f.fetches };

    ghost faults = { λ f _. f.faults };

    ghost long = { λ f _. f.long };

    fn fetch(&mut self, name: &str, limit: usize, into: &mut Vec<u8>) -> Result<(), FetchFault> {
        into.clear();
        self.fetches = self.fetches.saturating_add(1);
        let outcome = if name == "-" {
            fill(self.rt.reader(), limit, into)
        } else {
            match fs::open(self.rt, name) {
                Ok(file) => fill(file, limit, into),
                Err(_) => Err(FetchFault::Failed),
            }
        };
        match outcome {
            Err(FetchFault::Failed) => self.faults = self.faults.saturating_add(1),
            Err(FetchFault::TooLarge) => self.long = self.long.saturating_add(1),
            Ok(()) | Err(FetchFault::Memory) => {}
        }
        outcome
    }
}

/// Takes what the reader gives into the empty `into`, up to one byte more than the limit.
///
/// It ends at the first read that fails or gives nothing, and an interrupted read has failed.
fn fill<R: Read + Drop>(mut reader: R, limit: usize, into: &mut Vec<u8>) -> Result<(), FetchFault>
    requires limit { limit < 2 ^ 31 }
    requires empty { into.old.items ≡ [] }
    ensures length { Takes limit into.new.items result }
    ensures bytes { IfSome (R.remaining reader) (λ file.
        Fetches (Some file) limit (IsErrOf result Failed) into.new.items result) }
{
    let mut chunk = [0; CHUNK];
    while into.len() <= limit {
        let wanted = CHUNK.min(limit + 1 - into.len());
        let Ok(taken) = reader.read(&mut chunk[..wanted]) else {
            return Err(FetchFault::Failed);
        };
        if taken == 0 {
            return Ok(());
        }
        into.extend_from_slice(&chunk[..taken])?;
    }
    Err(FetchFault::TooLarge)
}
