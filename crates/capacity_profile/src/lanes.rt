ghost use Rattle.std.specs.Prelude.{◌≡◌, ◌↔◌, ℕ, min, ◌+◌, ◌<◌, ◌≤◌, IsTrue, slice_index};
ghost use Rattle.capacity_profile.specs.Lanes.{lane_of, packed, exceeds_in, exceeds, IsBlocked, AreSums, AreLeast};

// How many values a lane has: each lane counts so many times as high as the one below it.
const VALUES: u64 = 65_536;

/// The word with these lanes, lane 0 first.
pub fn pack(lanes: [u16; 4]) -> u64
    ensures value { result ≡ packed (slice_index lanes 0) (slice_index lanes 1) (slice_index lanes 2) (slice_index lanes 3) }
    ensures lanes { (i : ℕ) → i < 4 → lane_of result i ≡ slice_index lanes i }
{
    let [first, second, third, last] = lanes;
    first as u64 + VALUES * (second as u64 + VALUES * (third as u64 + VALUES * last as u64))
}

/// The lane of a word at an index below 4.
pub fn lane(word: u64, index: u32) -> u16
    requires { index < 4 }
    ensures { result ≡ lane_of word index }
{
    match index {
        0 => (word % VALUES) as u16,
        1 => (word / VALUES % VALUES) as u16,
        2 => (word / VALUES / VALUES % VALUES) as u16,
        _ => (word / VALUES / VALUES / VALUES % VALUES) as u16,
    }
}

/// Whether in some lane the word and the demand together are above the capacity.
pub fn blocked(word: u64, demand: u64, capacity: u64) -> bool
    ensures value { result ≡ exceeds word demand capacity }
    ensures meaning { IsTrue result ↔ IsBlocked word demand capacity }
{
    // `|` and not `||`: all four are tested, without a branch.
    blocked_in(word, demand, capacity, 0)
        | blocked_in(word, demand, capacity, 1)
        | blocked_in(word, demand, capacity, 2)
        | blocked_in(word, demand, capacity, 3)
}

// The same of one lane.
fn blocked_in(word: u64, demand: u64, capacity: u64, index: u32) -> bool
    requires { index < 4 }
    ensures { result ≡ exceeds_in word demand capacity index }
{
    (lane(capacity, index) as u32) < lane(word, index) as u32 + lane(demand, index) as u32
}

/// Adds an amount to a word, lane by lane. No lane may rise above 65,535.
pub fn add_lanes(word: u64, amount: u64) -> u64
    requires { (i : ℕ) → i < 4 → lane_of word i + lane_of amount i ≤ 65535 }
    ensures value { result ≡ word + amount }
    ensures lanes { AreSums word amount result }
{
    word + amount
}

/// The least of two words, lane by lane.
pub fn lane_min(one: u64, other: u64) -> u64
    ensures { AreLeast one other result }
{
    pack([
        lane(one, 0).min(lane(other, 0)),
        lane(one, 1).min(lane(other, 1)),
        lane(one, 2).min(lane(other, 2)),
        lane(one, 3).min(lane(other, 3)),
    ])
}
