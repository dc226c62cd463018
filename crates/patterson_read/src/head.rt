ghost use Rattle.rc_edge.specs.Grammar.{Gives};
ghost use Rattle.patterson_read.specs.Rcp.{head_due};

use crate::cursor::Cursor;
use rc_edge::{NumberSource, TextFault, activity_count, resource_count};

/// The first two numbers of a text: how many activities there are, and how many resources.
#[derive(Clone, Copy, Debug, PartialEq, Eq)]
pub struct Head {
    pub activities: u32,
    pub resources: u32,
}

/// How many activities and resources a text is about.
#[tactic(auto, unfolding(crate::specs::Rcp::head_due))]
pub fn read_head(cursor: &mut Cursor) -> Result<Head, TextFault>
    ensures { Gives (λ head. (head, cursor.new)) result (head_due cursor.old) }
{
    let activities = activity_count(cursor.number()?)?;
    let resources = resource_count(cursor.number()?)?;
    Ok(Head {
        activities,
        resources,
    })
}
