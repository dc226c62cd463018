ghost use Rattle.std.specs.Prelude.{◌≤◌, IfOk};
ghost use Rattle.rc_instance.specs.Project.{IsResource};
ghost use Rattle.rc_instance.specs.Misfit.{HasNoMisfit};

use activity_net::{FeasibleList, Net};
use patterson_read::read_rcp;
use rc_instance::{Change, Instance, Memory};
use std::alloc::Global;
use std::test::Fail;

// Six activities that share one resource of capacity 2, in the Patterson format.
pub(crate) static SIX: &str = "6 1\n2\n0 0 3 2 3 4\n3 2 1 5\n2 1 1 6\n2 1 1 6\n1 1 1 6\n0 0 0\n";

// One activity that takes two periods and all of five resources.
pub(crate) static FIVE_RESOURCES: &str = "1 5\n1 2 3 4 5\n2 1 2 3 4 5 0\n";

// The instance of a text.
pub(crate) fn instance_of(alloc: Global, text: &str) -> Result<Instance, Fail> {
    if text.len() > 1000 {
        return Err(Fail::from("the text is short"));
    }
    Ok(read_rcp(alloc, text.as_bytes())?)
}

// The same instance with nothing of its first resource in periods 1 and 2, and 2 of it from then on.
pub(crate) fn with_pause(alloc: Global, instance: Instance) -> Result<Instance, Memory>
    requires { IsResource instance 1 }
{
    let stop = Change {
        resource: 1,
        period: 1,
        capacity: 0,
    };
    let resume = Change {
        resource: 1,
        period: 3,
        capacity: 2,
    };
    Ok(instance.with_calendar(vec![in alloc; stop, resume]?))
}

// The net of an instance without a cycle and without a misfit.
pub(crate) fn net_of(alloc: Global, instance: Instance) -> Result<Net, Fail>
    ensures { IfOk result (λ net. HasNoMisfit net.project) }
{
    instance.fits_all()?;
    Ok(Net::of(alloc, instance).ok().ok_or("no cycle")?)
}

// The list of the activities by number.
pub(crate) fn by_number<'n>(alloc: Global, net: &'n Net) -> Result<FeasibleList<'n>, Fail>
    requires { HasNoMisfit net.now.project }
    ensures { IfOk result (λ list. HasNoMisfit list.network.project) }
{
    let mut order = Vec::new(alloc);
    for activity in 1..net.instance().count() + 1 {
        order.push(activity)?;
    }
    Ok(FeasibleList::of(alloc, net, &order)?)
}
