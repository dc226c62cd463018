ghost use Rattle.std.specs.Prelude.{◌≡◌, ℕ, List, Option, None, OnOk, OnErr};
ghost use Rattle.rc_edge.specs.Sink.{Gains, GainsPrefix, Puts, HasCause};

use std::error::Error;
use std::fmt;

/// Why a sink did not take bytes.
#[derive(Clone, Copy, Debug, PartialEq, Eq)]
pub enum SinkFault {
    /// The put failed: the count of faults rose, and nothing of the piece was taken.
    Failed,
}

impl fmt::Display for SinkFault {
    ghost use Rattle.std.specs.Prelude.{Some};
    ghost use Rattle.rc_edge.specs.FaultWords.{sink_words};

    ghost output = { λ fault. Some (sink_words fault) };

    fn fmt<W: fmt::Write>(&self, f: &mut fmt::Formatter<W>) -> fmt::Result {
        match self {
            SinkFault::Failed => f.write_str("cannot write"),
        }
    }
}

impl Error for SinkFault {}

/// What bytes are written to, piece by piece.
///
/// A count that reached the end of `u64` stands still there, and counts as risen.
pub trait Sink {
    /// The bytes taken so far, where they are told.
    ghost held: { Self → Option (List ℕ) };

    /// How many faults there were so far.
    ghost faults: { Self → ℕ };

    /// The numbers of the puts that fail on purpose, where these alone fail while there is room.
    ghost failing: { Self → Option (List ℕ) } = { λ _. None };

    /// How many bytes the sink can take in all, where that is told.
    ghost room: { Self → Option ℕ } = { λ _. None };

    /// Takes some bytes of the front of `piece`, and answers how many.
    ///
    /// That is at least one where `piece` is not empty: to take nothing of it is a fault.
    fn put(&mut self, piece: &[u8]) -> Result<usize, SinkFault>
        ensures bytes { Puts (held self.old) (held self.new) piece.now result }
        ensures cause { HasCause (faults self.old) (faults self.new) result }
        ensures failing { failing self.new ≡ failing self.old }
        ensures room { room self.new ≡ room self.old };
}

/// Writes all of `bytes`, in as many puts as that takes.
///
/// `Failed` comes from a put that failed; the bytes of the puts before it were taken.
pub fn put_all<S: Sink>(sink: &mut S, bytes: &[u8]) -> Result<(), SinkFault>
    ensures all { OnOk result (Gains (S.held sink.old) (S.held sink.new) bytes.now) }
    ensures part { OnErr result (GainsPrefix (S.held sink.old) (S.held sink.new) bytes.now) }
    ensures cause { HasCause (S.faults sink.old) (S.faults sink.new) result }
    ensures failing { S.failing sink.new ≡ S.failing sink.old }
    ensures room { S.room sink.new ≡ S.room sink.old }
{
    let mut done = 0;
    while done < bytes.len() {
        done += sink.put(&bytes[done..])?;
    }
    Ok(())
}
