ghost use Rattle.std.specs.Prelude.{◌≡◌, ◌+◌, ◌≤◌, ◌++◌, map, vec_len, vec_capacity, IfOk};
ghost use Rattle.key_sampling.specs.Workers.{seeker_of, HaveTools};

use crate::seeker::Seeker;
use crate::tools::Tools;
use activity_net::Net;
use rc_instance::Memory;
use std::alloc::Global;

// A seeker with what it needs to schedule samples.
#[derive(Drop)]
#[repr(C)]
pub(crate) struct Worker<'n> {
    pub(crate) seeker: Seeker,
    pub(crate) tools: Tools<'n>,
    // Two workers of a vector share no cache line: each is written at every step.
    pub(crate) apart: [u64; 16],
}

// Gives each seeker its tools.
pub(crate) fn workers_of<'n>(
    alloc: Global,
    net: &'n Net,
    seekers: Vec<Seeker>,
) -> Result<Vec<Worker<'n>>, Memory>
    ensures { IfOk result (λ workers. (map seeker_of workers.items ≡ seekers.items)
        × HaveTools net.now workers.items) }
{
    let mut workers = Vec::with_capacity(alloc, seekers.len())?;
    for seeker in seekers {
        let tools = Tools::new(alloc, net)?;
        workers.push(Worker {
            seeker,
            tools,
            apart: [0; 16],
        })?;
    }
    Ok(workers)
}

// Puts the seekers of workers into a vector that has room for them.
pub(crate) fn seekers_of(workers: Vec<Worker<'_>>, seekers: &mut Vec<Seeker>)
    requires { vec_len seekers.old + vec_len workers ≤ vec_capacity seekers.old }
    ensures { seekers.new.items ≡ seekers.old.items ++ map seeker_of workers.entry.items }
{
    for worker in workers {
        let Worker { seeker, .. } = worker;
        seekers.push_reserved(seeker);
    }
}
