ghost use Rattle.std.specs.Prelude.{◌≡◌, ℕ, ◌^◌, ◌<◌, List, Option, None, IfSome};
ghost use Rattle.rc_edge.specs.Faults.{Rose, one_more};
ghost use Rattle.rc_edge.specs.Files.{file_of, Counts, Takes, Fetches};

use std::alloc::AllocError;
use std::error::Error;
use std::fmt;

/// Why a fetch gave no file.
#[derive(Clone, Copy, Debug, PartialEq, Eq)]
pub enum FetchFault {
    /// The file is absent, or reading it failed: the count of faults of its name rose.
    Failed,

    /// The file has more bytes than the limit: the count of long files of its name rose.
    TooLarge,

    /// An allocation was refused. No count changed.
    Memory,
}

impl From<AllocError> for FetchFault {
    ghost use Rattle.rc_edge.specs.declared.files.FetchFault.TheVariants.{Memory};

    ghost from_gives = { λ _ fault. fault ≡ Memory };

    fn from(_: AllocError) -> Self {
        FetchFault::Memory
    }
}

impl fmt::Display for FetchFault {
    ghost use Rattle.std.specs.Prelude.{Some};
    ghost use Rattle.rc_edge.specs.FaultWords.{fetch_words};

    ghost output = { λ fault. Some (fetch_words fault) };

    fn fmt<W: fmt::Write>(&self, f: &mut fmt::Formatter<W>) -> fmt::Result {
        f.write_str(match self {
            FetchFault::Failed => "cannot read",
            FetchFault::TooLarge => "too large",
            FetchFault::Memory => "out of memory",
        })
    }
}

impl Error for FetchFault {}

/// Named files that bytes are fetched from.
///
/// A count that reached the end of `u64` stands still there, and counts as risen.
pub trait Files {
    /// The files' names and bytes, where they are told. The first pair of a name counts.
    ghost told: { Self → Option (List (List ℕ × List ℕ)) };

    /// How many faults there were so far that concern a name.
    ghost faults: { Self → List ℕ → ℕ };

    /// How many long files there were so far that concern a name.
    ghost long: { Self → List ℕ → ℕ };

    /// How many fetches were made so far.
    ghost fetches: { Self → ℕ };

    /// The numbers of the calls that fail on purpose, where they are told. No call changes them.
    ghost failing: { Self → Option (List ℕ) } = { λ _. None };

    /// One fetch: it overwrites `into` with the bytes of the file `name`, at most `limit`.
    ///
    /// At `TooLarge` the first `limit + 1` bytes stand in `into`; at the other faults some bytes
    /// that are of no use. At `Failed` and `TooLarge` the counts of other names may rise too.
    fn fetch(&mut self, name: &str, limit: usize, into: &mut Vec<u8>) -> Result<(), FetchFault>
        requires { limit < 2 ^ 31 }
        ensures told { told self.new ≡ told self.old }
        ensures failing { failing self.new ≡ failing self.old }
        ensures fetches { fetches self.new ≡ one_more (fetches self.old) }
        ensures counts { Counts name.now (faults self.old) (faults self.new)
            (long self.old) (long self.new) result }
        ensures length { Takes limit into.new.items result }
        ensures bytes { IfSome (told self.old) (λ pairs. Fetches (file_of pairs name.now) limit
            (Rose (faults self.old name.now) (faults self.new name.now)) into.new.items result) };
}
