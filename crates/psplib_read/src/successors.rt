ghost use Rattle.std.specs.Prelude.{[], map};
ghost use Rattle.rc_edge.specs.Grammar.{GivesOrMemory, more};
ghost use Rattle.psplib_read.specs.Sm.{successors, next_successors};

use crate::cursor::Cursor;
use crate::number::job_due;
use crate::preamble::Head;
use rc_edge::{NumberSource, TextFault};
use std::alloc::Global;

/// The successors of each job, in order.
pub fn read_all_successors(
    alloc: Global,
    cursor: &mut Cursor,
    head: Head,
) -> Result<Vec<Vec<u32>>, TextFault>
    ensures { GivesOrMemory (λ lists. (map (λ list. list.items) lists.items, cursor.new)) result
        (more (next_successors head) head.jobs [] cursor.old) }
{
    let mut lists = Vec::new(alloc);
    for index in 0..head.jobs {
        let list = read_successors(alloc, cursor, head, index + 1)?;
        lists.push(list)?;
    }
    Ok(lists)
}

/// The successors of a job.
#[tactic(auto, unfolding(crate::specs::Sm::successors))]
fn read_successors(
    alloc: Global,
    cursor: &mut Cursor,
    head: Head,
    job: u32,
) -> Result<Vec<u32>, TextFault>
    ensures { GivesOrMemory (λ list. (list.items, cursor.new)) result (successors head job cursor.old) }
{
    job_due(cursor, job)?;
    let count = cursor.number()?.value;
    rc_edge::read_successors(alloc, cursor, count, head.jobs, job)
}
