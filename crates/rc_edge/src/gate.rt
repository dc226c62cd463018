/// The places of a pass at which it calls its gate.
#[derive(Clone, Copy, Debug, PartialEq, Eq)]
pub enum Point {
    /// The pass has searched a start for the position.
    Searched,

    /// The pass is about to claim the position.
    Claiming,

    /// The pass has claimed the position.
    Claimed,

    /// The pass has booked the position.
    Booked,
}

/// A hook for tests: it is called at the points of a pass, and returns.
///
/// It takes no handle that could wait, so a pass goes on whatever the gate does.
pub trait Gate {
    /// The pass numbered `worker` stands at `point` of the position, which is counted from 0.
    fn at(&self, worker: u32, point: Point, position: u32);
}

/// The gate of a program: it does nothing.
#[derive(Clone, Copy, Debug, PartialEq, Eq)]
pub struct NoGate;

impl Gate for NoGate {
    fn at(&self, _worker: u32, _point: Point, _position: u32) {}
}
