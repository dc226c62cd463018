ghost use Rattle.std.specs.Prelude.{◌≡◌, ◌≤◌, length, IfErr};
ghost use Rattle.rc_instance.specs.declared.limits.TheConstants.{MAX_FILE_BYTES};
ghost use Rattle.rc_edge.specs.Grammar.{GivesOrMemory};
ghost use Rattle.patterson_read.specs.Rcp.{read_instance, IsKind};

use crate::cursor::Cursor;
use crate::parts::read_parts;
use rc_edge::{TextFault, built};
use rc_instance::Instance;
use std::alloc::Global;

/// The instance of a text in the `.rcp` format of Patterson, or the first fault of the text.
///
/// The fault's offset is that of the token at fault, or the length of the text where it ends too early. `Memory` may
/// come at any place, with offset 0; no fault of the instance is `Memory`.
pub fn read_rcp(alloc: Global, bytes: &[u8]) -> Result<Instance, TextFault>
    requires { length bytes.now ≤ MAX_FILE_BYTES }
    ensures reads { GivesOrMemory (λ instance. instance) result (read_instance bytes.now) }
    ensures kinds { IfErr result (λ fault. IsKind fault.kind) }
{
    let parts = read_parts(alloc, &mut Cursor::new(bytes))?;
    built(alloc, parts)
}
