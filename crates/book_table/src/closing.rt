// Closing a book: its passes are taken in, in order of number, and its words are read.
ghost use Rattle.std.specs.Prelude.{◌≡◌, ℕ, ◌+◌, ◌<◌, ◌≤◌, true, [], None, map, length, slice_set, IsSome, IfSome};
ghost use Rattle.std.specs.List.{sum};
ghost use Rattle.rc_instance.specs.Schedule.{serial_schedule};
ghost use Rattle.book_rule.specs.Listed.{IsBookable, count, project_of};
ghost use Rattle.book_rule.specs.Knowledge.{IsOwn};
ghost use Rattle.book_rule.specs.Rule.{IsComplete};
ghost use Rattle.book_rule.specs.Views.{after_join};
ghost use Rattle.book_table.specs.Passes.{AreAtRest, all_of};

use crate::book::Book;
use crate::closed::Closed;
use crate::pass::Pass;
use crate::plays::Gather;
use crate::rule::BookRule;
use crate::shut::Shut;
use crate::sizes::FIRST_START;
use activity_net::FeasibleList;
use atomic_table::{Seat, Shared};
use book_rule::View;
use rc_instance::Schedule;

// What was taken in so far: the seat of pass 0, and how many bookings each pass has made.
#[derive(Drop)]
pub(crate) struct Taken {
    pub(crate) seat: Option<Seat<(), View>>,
    pub(crate) counts: Vec<u32>,
}

impl<'n> Book<'n> {
    /// Closes the book, once all its passes rest: they are handed in in order of number, with that of a
    /// watch at last. The book is then complete, whatever the passes did.
    pub fn close(self, passes: Vec<Pass>, watch: Option<Pass>) -> Closed<'n>
        requires { AreAtRest self (all_of passes.items watch) }
        ensures list { result.listing ≡ self.entry.listing }
        ensures booked { result.booked ≡ map (λ pass. pass.view.mine) (all_of passes.items watch) }
        ensures sum { sum result.booked ≡ count self.entry.listing }
    {
        let Book {
            list,
            table,
            passes: made,
            positions,
            words,
            horizon: _,
            places: _,
            needs: _,
            rooms: _,
            counts,
            mut schedule,
        } = self;
        let mut taken = Taken { seat: None, counts };
        for pass in passes {
            taken.take_in(&table.shared, pass);
        }
        if let Some(pass) = watch {
            taken.take_in(&table.shared, pass);
        }
        let Taken { seat, counts } = taken;
        let shut = Shut::of(table.close_with(seat.unwrap()));
        read_starts(&shut, list, &mut schedule);
        Closed {
            list,
            schedule,
            passes: made,
            counts,
            positions,
            words,
            shut,
        }
    }
}

impl Taken {
    // Takes in a pass that rests: it is pass 0, or is joined into that one.
    fn take_in<'n>(&mut self, table: &Shared<(), View, FeasibleList<'n>, BookRule>, pass: Pass)
        requires place { pass.view.number < length self.old.counts.items }
        requires table { (pass.table ≡ table.now.table_id) × (0 < table.now.table_id.words) }
        requires own { IsOwn table.now.key pass.view }
        requires rests { pass.view.resting ≡ true }
        requires next { IfSome self.old.seat (λ seat. (seat.table_id ≡ table.now.table_id) × IsOwn table.now.key seat.me.0 × (seat.me.0.number ≡ 0) × (pass.view.number ≡ length seat.me.0.gathered + 1)) }
        ensures counts { self.new.counts.items ≡ slice_set self.old.counts.items pass.view.number pass.view.mine }
        ensures some { IsSome self.new.seat }
        ensures first { self.old.seat ≡ None → IfSome self.new.seat (λ seat. (seat.table_id ≡ pass.table) × (seat.me ≡ (pass.view, []))) }
        ensures joined { IfSome self.old.seat (λ old. IfSome self.new.seat (λ new. (new.table_id ≡ old.table_id) × (new.me ≡ (after_join old.me.0 pass.view, old.me.1)))) }
    {
        let Pass {
            seat,
            number,
            mine,
            ..
        } = pass;
        self.counts[number as usize] = mine;
        if let Some(chief) = &mut self.seat {
            table.join_seat::<Gather>(chief, seat);
        } else {
            self.seat = Some(seat);
        }
    }
}

// Puts the start of each position into a schedule.
fn read_starts(shut: &Shut, list: &FeasibleList<'_>, schedule: &mut Schedule)
    requires bookable { IsBookable list.now }
    requires complete { IsComplete list.now shut.now }
    requires count { length schedule.old ≡ count list.now }
    ensures { schedule.new ≡ serial_schedule (project_of list.now) list.now.order }
{
    let order = list.order();
    for position in 0..order.len() {
        let start = shut.at(FIRST_START + position) - 1;
        schedule.set(order[position], start as u32);
    }
}
