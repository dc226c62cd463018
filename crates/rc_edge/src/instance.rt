ghost use Rattle.std.specs.Prelude.{◌≡◌, ◌*◌, None, Ok, length};
ghost use Rattle.rc_instance.specs.Parts.{made_of, first_fault_of};
ghost use Rattle.rc_edge.specs.Grammar.{GivesOrMemory};

use crate::text_fault::{TextFault, TextKind};
use rc_instance::{Instance, InstanceFault, Parts};
use std::alloc::Global;

/// The instance of parts that pass no limit, since each was tested at the number that would pass it.
/// The only error is `Memory`.
pub fn built(alloc: Global, parts: Parts) -> Result<Instance, TextFault>
    requires successors { length parts.successors.items ≡ length parts.durations.items }
    requires demands { length parts.demands.items
        ≡ length parts.durations.items * length parts.capacities.items }
    requires fits { first_fault_of parts ≡ None }
    ensures { GivesOrMemory (λ instance. instance) result (Ok (made_of parts)) }
{
    match Instance::build(alloc, parts) {
        Ok(instance) => Ok(instance),
        Err(fault) => {
            prove!(matches!(fault, InstanceFault::Memory));
            Err(TextFault {
                kind: TextKind::Memory,
                at: 0,
            })
        }
    }
}
