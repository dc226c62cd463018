ghost use Rattle.std.specs.Prelude.{◌≡◌, ℕ, ◌+◌, ◌-◌, ◌/◌, ◌%◌, ◌<◌, length, slice_index};
ghost use Rattle.rc_instance.specs.Project.{IsActivity, IsResource};
ghost use Rattle.rc_instance.specs.Usage.{usage};
ghost use Rattle.rc_instance.specs.Schedule.{bookings_of, serial_schedule, start_at};
ghost use Rattle.capacity_profile.specs.Lanes.{lane_of};
ghost use Rattle.book_rule.specs.Listed.{count, width, horizon_of, level, project_of};
ghost use Rattle.book_table.specs.Passes.{ClosedBook};

use crate::shut::Shut;
use crate::sizes::{FIRST_START, place};
use activity_net::FeasibleList;
use rc_instance::Schedule;
use std::marker::Model;

/// A book that is complete: the serial schedule of its list, what it uses, and how many bookings each
/// pass has made. Contracts see the list and these counts.
#[derive(Drop)]
pub struct Closed<'n> {
    pub(crate) list: &'n FeasibleList<'n>,
    pub(crate) schedule: Schedule,
    pub(crate) passes: u32,
    pub(crate) counts: Vec<u32>,
    pub(crate) positions: u32,
    pub(crate) words: u32,
    pub(crate) shut: Shut,
}

impl<'n> Model for Closed<'n> {
    ghost use Rattle.book_table.specs.Passes.{ClosedBook};

    ghost Value = { ClosedBook };

    ghost use Rattle.book_table.specs.ClosedView.{closed_of, KeepsSchedule};

    ghost view = { closed_of };

    ghost invariant = { KeepsSchedule };
}

impl<'n> Closed<'n> {
    /// The serial start of an activity.
    pub fn start(&self, activity: u32) -> u32
        requires { IsActivity (project_of self.now.listing) activity }
        ensures { result ≡ start_at (serial_schedule (project_of self.now.listing) self.now.listing.order) activity }
    {
        self.schedule.start(activity)
    }

    /// A word of a period: exactly what the whole schedule uses there. Resource r stands in lane
    /// (r - 1) mod 4 of word (r - 1) / 4.
    pub fn word(&self, period: u32, index: u32) -> u64
        requires period { period < horizon_of self.now.listing }
        requires index { index < width self.now.listing }
        ensures lanes { (l : ℕ) → l < 4 → lane_of result l ≡ level self.now.listing (count self.now.listing) index l period }
        ensures usage { (k : ℕ) → IsResource (project_of self.now.listing) k → (k - 1) / 4 ≡ index → lane_of result ((k - 1) % 4) ≡ usage (project_of self.now.listing) (bookings_of (serial_schedule (project_of self.now.listing) self.now.listing.order)) k period }
    {
        let first = FIRST_START + 2 * self.positions as usize;
        self.shut.at(first + place(self.words, period, index))
    }

    /// How many passes the book had.
    pub fn passes(&self) -> u32
        ensures { result ≡ length self.now.booked }
    {
        self.passes
    }

    /// How many bookings a pass had made when it was handed in.
    pub fn booked(&self, pass: u32) -> u32
        requires { pass < length self.now.booked }
        ensures { result ≡ slice_index self.now.booked pass }
    {
        self.counts[pass as usize]
    }

    /// The serial schedule of the list.
    pub fn into_schedule(self) -> Schedule
        ensures { result ≡ serial_schedule (project_of self.entry.listing) self.entry.listing.order }
    {
        self.schedule
    }
}
