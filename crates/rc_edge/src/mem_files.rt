ghost use Rattle.std.specs.Prelude.{◌≡◌, ◌^◌, ◌<◌, Some, vec_len, option_copied};
ghost use Rattle.rc_edge.specs.Files.{file_of, pairs_of};

use crate::files::{FetchFault, Files};
use crate::planned::is_planned;

/// Files in memory, some of whose fetches fail by their number. It tells its files.
#[derive(Debug, Drop)]
pub struct MemFiles {
    files: Vec<(String, Vec<u8>)>,
    failing: Vec<u32>,
    calls: u64,
    refused: u64,
    absent: u64,
    long: u64,

    /// With nothing in `failing`, no name that is there has a fault.
    pub ghost clean: { vec_len failing ≡ 0 → refused ≡ 0 },
}

impl MemFiles {
    ghost use Rattle.rc_edge.specs.MemFiles.{contents_of, failing_of, IsUntouched};

    /// The files with these names and bytes, of which the first of a name counts.
    ///
    /// Fetches are numbered from 0. One whose number stands in `failing` fails.
    pub fn new(files: Vec<(String, Vec<u8>)>, failing: Vec<u32>) -> Self
        ensures contents { contents_of result ≡ pairs_of files.items }
        ensures failing { failing_of result ≡ failing.items }
        ensures untouched { IsUntouched result }
    {
        MemFiles {
            files,
            failing,
            calls: 0,
            refused: 0,
            absent: 0,
            long: 0,
        }
    }
}

impl Files for MemFiles {
    ghost use Rattle.rc_edge.specs.Faults.{Rose, one_more};
    ghost use Rattle.rc_edge.specs.Files.{Counts, Takes, Fetches};
    ghost use Rattle.rc_edge.specs.MemFiles.{contents_of, failing_of, calls_of, faults_of, long_of};
    ghost use Rattle.rc_edge.specs.MemFiles.{fault_next, Answers, Advances};

    ghost told = { λ f. Some (contents_of f) };

    ghost faults = { faults_of };

    ghost long = { λ f _. long_of f };

    ghost fetches = { calls_of };

    ghost failing = { λ f. Some (failing_of f) };

    fn fetch(&mut self, name: &str, limit: usize, into: &mut Vec<u8>) -> Result<(), FetchFault>
        requires { limit < 2 ^ 31 }
        ensures told { contents_of self.new ≡ contents_of self.old }
        ensures failing { failing_of self.new ≡ failing_of self.old }
        ensures fetches { calls_of self.new ≡ one_more (calls_of self.old) }
        ensures counts { Counts name.now (faults_of self.old) (faults_of self.new)
            (λ _. long_of self.old) (λ _. long_of self.new) result }
        ensures length { Takes limit into.new.items result }
        ensures bytes { Fetches (file_of (contents_of self.old) name.now) limit
            (Rose (faults_of self.old name.now) (faults_of self.new name.now))
            into.new.items result }
        ensures answer { Answers (fault_next self.old name.now limit) result }
        ensures advance { Advances self.old self.new name.now result }
    {
        into.clear();
        let is_refused = is_planned(&self.failing, self.calls);
        self.calls = self.calls.saturating_add(1);
        if is_refused {
            self.refused = self.refused.saturating_add(1);
            return Err(FetchFault::Failed);
        }
        let Some(bytes) = find(&self.files, name) else {
            self.absent = self.absent.saturating_add(1);
            return Err(FetchFault::Failed);
        };
        if bytes.len() > limit {
            into.extend_from_slice(&bytes[..limit + 1])?;
            self.long = self.long.saturating_add(1);
            return Err(FetchFault::TooLarge);
        }
        into.extend_from_slice(bytes)?;
        Ok(())
    }
}

/// The bytes of the first file with this name.
fn find<'f>(files: &'f [(String, Vec<u8>)], name: &str) -> Option<&'f [u8]>
    ensures { option_copied result ≡ file_of (pairs_of files.now) name.now }
{
    for (file, bytes) in files {
        if file.as_str() == name {
            return Some(bytes);
        }
    }
    None
}
