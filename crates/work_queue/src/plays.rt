//! The rule of the queue, and what each step on it tells its worker.
use crate::hand::Hand;
use crossbeam_queue::protocol::{Join, Lesson, Outcome, Protocol, Split};

pub(crate) struct Once;

impl Protocol<u32, Hand> for Once {
    ghost use Rattle.work_queue.specs.Rule.{HandsOut, newcomer};

    ghost holds = { HandsOut };

    ghost first = { newcomer };
}

// The next job is pushed.
pub(crate) struct Pushed;

impl Outcome<u32, Hand> for Pushed {
    ghost use Rattle.std.specs.Prelude.{◌≡◌};
    ghost use Rattle.work_queue.specs.Rule.{with_pushed};

    ghost then = { λ before job after. after ≡ with_pushed before };
}

impl Lesson<u32, Hand> for Pushed {
    ghost use Rattle.work_queue.specs.Rule.{IsLeft};

    ghost fact = { IsLeft };
}

// A job is taken.
pub(crate) struct Taken;

impl Outcome<u32, Hand> for Taken {
    ghost use Rattle.std.specs.Prelude.{◌≡◌, ◌<◌};
    ghost use Rattle.work_queue.specs.Rule.{with_taken};

    ghost then = { λ before job after. (job < before.pushed) × (after ≡ with_taken before job) };
}

impl Lesson<u32, Hand> for Taken {
    ghost use Rattle.work_queue.specs.Rule.{IsLeft};

    ghost fact = { IsLeft };
}

// A worker is made, or comes back.
pub(crate) struct Parted;

impl Split<Hand> for Parted {
    ghost use Rattle.work_queue.specs.Rule.{with_part_lent, lent};

    ghost left = { with_part_lent };

    ghost right = { lent };
}

impl Join<Hand> for Parted {
    ghost use Rattle.work_queue.specs.Rule.{merged, spent};

    ghost both = { merged };

    ghost spent = { spent };
}
