ghost use Rattle.std.specs.Prelude.{◌≡◌, ◌≤◌, length, IfErr};
ghost use Rattle.rc_instance.specs.declared.limits.TheConstants.{MAX_FILE_BYTES};
ghost use Rattle.rc_edge.specs.Grammar.{GivesOrMemory};
ghost use Rattle.patterson_read.specs.ListFile.{read_list, IsListKind};

use crate::cursor::Cursor;
use rc_edge::{NumberSource, TextFault};
use std::alloc::Global;

/// The numbers of a list file in order, or the first fault of the text: `NotANumber` or
/// `NumberTooLarge`.
///
/// The numbers stand with white space between them, and an empty text is the empty list. The
/// fault's offset is that of the token at fault. `Memory` may come at any place, with offset 0.
pub fn read_list(alloc: Global, bytes: &[u8]) -> Result<Vec<u32>, TextFault>
    requires { length bytes.now ≤ MAX_FILE_BYTES }
    ensures reads { GivesOrMemory (λ list. list.items) result (read_list bytes.now) }
    ensures kinds { IfErr result (λ fault. IsListKind fault.kind) }
{
    let mut cursor = Cursor::new(bytes);
    let mut list = Vec::new(alloc);
    while !cursor.is_at_end() {
        let number = cursor.number()?;
        list.push(number.value)?;
    }
    Ok(list)
}
