ghost use Rattle.std.specs.Prelude.{◌≡◌, ℕ, ◌+◌};
ghost use Rattle.std.specs.Option.{option_map};

use atomic_table::Seat;
use race_rule::SeekerView;

/// The token by which one caller acts on a race.
///
/// It can be sent to another thread. Contracts see its view, what it knows of the race.
#[derive(Drop)]
pub struct Seeker {
    pub(crate) seat: Seat<(), SeekerView>,
    pub(crate) number: u32,
    pub(crate) hand: Option<u32>,
    pub(crate) ended: bool,
    pub(crate) best_seen: u64,
    ghost shown: { (number ≡ seat.me.0.number)
        × (hand ≡ option_map (λ ticket. seat.me.0.from + ticket) seat.me.0.hand)
        × (ended ≡ seat.me.0.ended) × (best_seen ≡ seat.me.0.best_seen) },
}

impl Seeker {
    ghost use Rattle.key_sampling.specs.Race.{view_of, sample_in_hand};

    /// Its number among the seekers of its race, from 0 on. It never changes.
    pub fn number(&self) -> u32
        ensures { result ≡ (view_of self.now).number }
    {
        self.number
    }

    /// The sample that it has taken, and not yet given up or valued.
    pub fn in_hand(&self) -> Option<u32>
        ensures { result ≡ sample_in_hand (view_of self.now) }
    {
        self.hand
    }

    /// Whether it has found that no sample is left to take.
    pub fn ended(&self) -> bool
        ensures { result ≡ (view_of self.now).ended }
    {
        self.ended
    }

    /// The best word that it last loaded or left, and first `2^64 - 1`. The word of a sample is its
    /// makespan, times 2 to the power of 32, plus its number.
    pub fn best_seen(&self) -> u64
        ensures { result ≡ (view_of self.now).best_seen }
    {
        self.best_seen
    }
}
