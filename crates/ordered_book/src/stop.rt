/// Why an advance has stopped.
#[derive(Clone, Copy, Debug, PartialEq, Eq)]
pub enum Advance {
    /// All positions are booked.
    Complete,

    /// Another pass has a position in hand: the turn that showed it, which is odd.
    Busy { turn: u64 },
}
