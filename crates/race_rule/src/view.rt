use std::collections::LinkedList;

/// The best word of a race before a sample is valued: each sample has a lower word.
pub const NO_WORD: u64 = u64::MAX;

/// What a seeker knows of its race. Contracts alone see it: no value of it is made.
pub struct SeekerView {
    /// The words of the samples of the race, by ticket.
    pub words: LinkedList<u64>,

    /// The number of the first sample.
    pub from: u64,

    /// Whether another seeker has taken it in.
    pub spent: bool,

    /// Its own number, from 0 on.
    pub number: u64,

    /// The ticket of the sample that it works at.
    pub hand: Option<u64>,

    /// The best word that it last loaded or left.
    pub best_seen: u64,

    /// How often it has loaded the best word.
    pub looks: u64,

    /// A number above each ticket that it drew.
    pub next: u64,

    /// The tickets that it drew.
    pub drawn: LinkedList<u64>,

    /// The tickets of the samples that it has settled, valued or given up.
    pub done: LinkedList<u64>,

    /// Whether it drew a ticket beyond the last sample.
    pub ended: bool,

    /// Of the seeker 0: how many seekers were made.
    pub made: u64,

    /// Of the seeker 0: how many seekers it has taken in.
    pub joined: u64,

    /// Of the seeker 0: the tickets that those drew.
    pub gathered: LinkedList<u64>,
}
