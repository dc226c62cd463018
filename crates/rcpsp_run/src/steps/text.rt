ghost use Rattle.std.specs.Prelude.{◌≡◌, ◌⊎◌};
ghost use Rattle.rc_edge.specs.declared.text_fault.TextKind.TheVariants.{Memory};
ghost use Rattle.rcpsp_run.specs.declared.refusal.Refusal.TheVariants as refusal;
ghost use Rattle.rcpsp_run.specs.Causes.{IsOfTexts};

use crate::refusal::Refusal;
use rc_edge::{TextFault, TextKind};
use rcpsp_words::Name;
use std::alloc::Global;

/// The refusal of a text with this fault.
pub(crate) fn bad_text(alloc: Global, name: &Name, fault: TextFault) -> Refusal
    ensures refusal { (result ≡ refusal.BadText name.now fault) ⊎ (result ≡ refusal.Memory) }
    ensures memory { fault.kind ≡ Memory → result ≡ refusal.Memory }
    ensures texts { IsOfTexts result }
{
    if fault.kind == TextKind::Memory {
        return Refusal::Memory;
    }
    match name.copy(alloc) {
        Ok(name) => Refusal::BadText { name, fault },
        Err(_) => Refusal::Memory,
    }
}
