ghost use Rattle.std.specs.Prelude.{◌≡◌, ◌≤◌, length, IfErr};
ghost use Rattle.rc_instance.specs.declared.limits.TheConstants.{MAX_FILE_BYTES};
ghost use Rattle.rc_edge.specs.Grammar.{GivesOrMemory, StandsOrMemory};
ghost use Rattle.psplib_read.specs.Left.{whole};
ghost use Rattle.psplib_read.specs.Sm.{text_due, read_instance, IsKind};
ghost use Rattle.psplib_read.specs.View.{HoldsText};

use crate::cursor::Cursor;
use crate::heads::{section_due, skip_title};
use crate::number::end_due;
use crate::preamble::read_head;
use crate::requests::read_requests;
use crate::successors::read_all_successors;
use rc_edge::{Item, TextFault, built, read_capacities};
use rc_instance::{Instance, Parts};
use std::alloc::Global;

/// The instance of a text in the `.sm` format of PSPLIB, or the first fault of the text.
///
/// Activities are the jobs, numbered from 1, and resources are the renewable ones. The fault's offset
/// is that of the token at fault, or the length of the text where it ends too early; where a line has
/// no value, it is `NotANumber` just past the line's last byte. `Memory` may come at any place, with
/// offset 0; no fault of the instance is `Memory`.
pub fn read_sm(alloc: Global, bytes: &[u8]) -> Result<Instance, TextFault>
    requires { length bytes.now ≤ MAX_FILE_BYTES }
    ensures reads { GivesOrMemory (λ instance. instance) result (read_instance bytes.now) }
    ensures kinds { IfErr result (λ fault. IsKind fault.kind) }
{
    let parts = read_parts(alloc, bytes)?;
    built(alloc, parts)
}

/// The parts that a whole text tells.
#[tactic(auto, unfolding(crate::specs::Sm::text_due))]
fn read_parts(alloc: Global, bytes: &[u8]) -> Result<Parts, TextFault>
    requires { length bytes.now ≤ MAX_FILE_BYTES }
    ensures { StandsOrMemory (λ parts text. HoldsText text parts) result
        (text_due (whole bytes.now)) }
{
    let mut cursor = Cursor::new(bytes);
    let head = read_head(&mut cursor)?;
    skip_title(&mut cursor);
    let successors = read_all_successors(alloc, &mut cursor, head)?;
    section_due(&mut cursor, b"requests/durations", Item::Requests)?;
    let requests = read_requests(alloc, &mut cursor, head)?;
    section_due(&mut cursor, b"resourceavailabilities", Item::Availabilities)?;
    let capacities = read_capacities(alloc, &mut cursor, head.resources)?;
    end_due(&mut cursor)?;
    Ok(Parts {
        capacities,
        durations: requests.durations,
        demands: requests.demands,
        successors,
    })
}
