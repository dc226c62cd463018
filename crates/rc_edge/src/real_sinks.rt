ghost use Rattle.std.specs.Prelude.{◌≡◌, ◌≤◌, ◌<◌, None, IfOk, length};
ghost use Rattle.rc_edge.specs.Sink.{HasCause};

use crate::sink::{Sink, SinkFault};
use std::io::{Stderr, Stdout};

/// Standard output. It tells no bytes.
#[derive(Drop)]
pub struct RealOut {
    stream: Stdout,
    faults: u64,
}

/// Standard error. It tells no bytes.
#[derive(Drop)]
pub struct RealNote {
    stream: Stderr,
    faults: u64,
}

impl RealOut {
    /// The sink over this standard output, with no fault so far.
    pub fn new(stream: Stdout) -> Self
        ensures { ⟦<RealOut as Sink>⟧.faults result ≡ 0 }
    {
        RealOut { stream, faults: 0 }
    }
}

impl RealNote {
    /// The sink over this standard error, with no fault so far.
    pub fn new(stream: Stderr) -> Self
        ensures { ⟦<RealNote as Sink>⟧.faults result ≡ 0 }
    {
        RealNote { stream, faults: 0 }
    }
}

impl Sink for RealOut {
    ghost held = { λ _. None };

    ghost faults = { λ s. s.faults };

    fn put(&mut self, piece: &[u8]) -> Result<usize, SinkFault> {
        write_some(&self.stream, piece, &mut self.faults)
    }
}

impl Sink for RealNote {
    ghost held = { λ _. None };

    ghost faults = { λ s. s.faults };

    fn put(&mut self, piece: &[u8]) -> Result<usize, SinkFault> {
        write_some(&self.stream, piece, &mut self.faults)
    }
}

/// One write to a stream. An error of the system, or taking nothing of some bytes, is a fault.
fn write_some<P: Print>(stream: &P, piece: &[u8], faults: &mut u64) -> Result<usize, SinkFault>
    ensures within { IfOk result (λ k. k ≤ length piece.now) }
    ensures progress { IfOk result (λ k. 0 < length piece.now → 0 < k) }
    ensures cause { HasCause faults.old faults.new result }
{
    match stream.write_some(piece) {
        Ok(taken) if taken > 0 || piece.is_empty() => Ok(taken),
        _ => {
            *faults = faults.saturating_add(1);
            Err(SinkFault::Failed)
        }
    }
}
