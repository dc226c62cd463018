/// What a search ahead of the bookings has come to.
#[derive(Clone, Copy, Debug, PartialEq, Eq)]
pub enum Guess {
    /// A start, with the turns that were loaded before and after the search.
    Found {
        start: u32,
        seen_before: u64,
        seen_after: u64,
    },

    /// The turn was past the position: nothing is left to search.
    Late {
        turn: u64,
    },
}
