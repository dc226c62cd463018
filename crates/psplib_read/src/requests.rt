ghost use Rattle.std.specs.Prelude.{◌≡◌, ◌+◌, ◌≤◌, [], ◌∷◌, ◌++◌, IfOk};
ghost use Rattle.rc_instance.specs.declared.limits.TheConstants.{MAX_DURATION_SUM};
ghost use Rattle.rc_edge.specs.Grammar.{StandsOrMemory, more};
ghost use Rattle.psplib_read.specs.Sm.{request, next_request};
ghost use Rattle.psplib_read.specs.View.{Holds, Gains};

use crate::cursor::Cursor;
use crate::number::job_due;
use crate::preamble::Head;
use rc_edge::{TextFault, push_demands, read_duration};
use std::alloc::Global;

/// The work of each job, in order.
#[derive(Debug, Drop)]
pub struct Requests {
    /// The duration of each job, in periods.
    pub durations: Vec<u32>,

    /// The demands of each job, for one resource after the other.
    pub demands: Vec<u32>,
}

/// The work of each job.
pub fn read_requests(alloc: Global, cursor: &mut Cursor, head: Head) -> Result<Requests, TextFault>
    ensures { StandsOrMemory (λ requests y. Holds y.0 requests × (y.1 ≡ cursor.new)) result
        (more (next_request head) head.jobs [] cursor.old) }
{
    let mut requests = Requests {
        durations: Vec::new(alloc),
        demands: Vec::new(alloc),
    };
    let mut sum = 0;
    for index in 0..head.jobs {
        sum += read_request(cursor, head, index + 1, sum, &mut requests)?;
    }
    Ok(requests)
}

/// Puts the work of a job with those before it, and answers its duration, in periods; those before
/// it have durations of the sum `before`.
#[tactic(auto, unfolding(crate::specs::Sm::request))]
fn read_request(
    cursor: &mut Cursor,
    head: Head,
    job: u32,
    before: u32,
    requests: &mut Requests,
) -> Result<u32, TextFault>
    ensures reads { StandsOrMemory (λ duration read. (duration ≡ read.0.duration)
        × (read.1 ≡ cursor.new) × Gains read.0 requests.old requests.new) result
        (request head job before cursor.old) }
    ensures short { IfOk result (λ duration. before + duration ≤ MAX_DURATION_SUM) }
{
    job_due(cursor, job)?;
    let duration = read_duration(cursor, before)?;
    push_demands(cursor, head.resources, &mut requests.demands)?;
    requests.durations.push(duration)?;
    Ok(duration)
}
