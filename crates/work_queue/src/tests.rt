ghost use Rattle.std.specs.Prelude.{◌<◌};

use crate::hand_out;
use std::alloc::AllocError;
use std::test::Fail;

#[test]
fn answers_stand_in_order_of_the_jobs(rt: HostRuntime) -> Result<(), Fail> {
    let tenfold = |_worker: u32, job: u32| -> Result<u32, AllocError>
        requires { job < 100 }
    { Ok(10 * job) };
    let values = hand_out(&rt, rt.alloc(), 3, 2, &tenfold)?;
    assert_eq!(rt; values.as_slice(), [0, 10, 20].as_slice());
    Ok(())
}
