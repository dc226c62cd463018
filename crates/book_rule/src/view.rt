// What a pass knows: plain data. No value of `View` is made, but a pass keeps its search and its hand.
use activity_net::FeasibleList;
use std::collections::LinkedList;

/// How far one has come from a start on: so many whole periods, and so many words of the next one.
#[derive(Clone, Copy, Debug)]
pub struct Reach {
    pub periods: u32,
    pub words: u32,
}

/// A search for the start of the activity at a position.
#[derive(Clone, Copy, Debug)]
pub struct Search {
    pub position: u32,
    /// Whether it was begun ahead of the turn, and has not ended.
    pub ahead: bool,
    /// The turn that was loaded as it began.
    pub begun: u64,
    /// How many of the direct predecessors were read.
    pub read: u32,
    /// No start before this period is left.
    pub least: u32,
    /// How far from that period on there was room.
    pub free: Reach,
}

/// What a pass has in hand: if it holds, that is the position of its search.
#[derive(Clone, Copy, Debug)]
pub struct Hand {
    pub holds: bool,
    /// How far from its start on its words were added.
    pub added: Reach,
    /// Whether its start is stored.
    pub stored: bool,
}

/// A start that some pass has offered for a position.
#[derive(Clone, Copy, Debug)]
pub struct Offer {
    pub position: u32,
    pub start: u32,
}

/// What a search ahead has found: a start, and the turns loaded before and after.
#[derive(Clone, Copy, Debug)]
pub struct Found {
    pub position: u32,
    pub start: u32,
    pub before: u64,
    pub after: u64,
}

/// A profile word that was loaded.
pub struct Kept {
    pub period: u64,
    pub index: u64,
    pub value: u64,
}

/// The view of a pass. Steps change it, and no value of it is made.
pub struct View {
    /// The list whose activities are booked, the same in every view.
    pub list: FeasibleList<'static>,
    /// Whether the pass was joined into pass 0, and knows nothing any more.
    pub spent: bool,
    pub number: u64,
    /// The greatest turn that it has loaded or made.
    pub seen: u64,
    /// How often it has loaded the turn or was shown it.
    pub looks: u64,
    /// How many bookings it has made.
    pub mine: u64,
    /// Their positions, the oldest first.
    pub released: LinkedList<u64>,
    /// How many profile words it has loaded.
    pub loaded: u64,
    pub resting: bool,
    /// How many tickets it has drawn, and the last of them.
    pub draws: u64,
    pub ticket: u64,
    /// The greatest start that it has offered for each position.
    pub offered: LinkedList<u64>,
    /// The offer that it has loaded last.
    pub adopted: Offer,
    /// What it has found last.
    pub found: Found,
    pub search: Search,
    pub hand: Hand,
    /// The block of 32 periods whose values it keeps, and these values.
    pub block: u64,
    pub kept: LinkedList<Kept>,
    /// Of pass 0: how many passes were made.
    pub made: u64,
    /// Of pass 0: the bookings of each pass that was joined into it.
    pub gathered: LinkedList<u64>,
}
