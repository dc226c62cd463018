ghost use Rattle.std.specs.Prelude.{◌≡◌, ℕ, ◌+◌, ◌^◌, ◌<◌, ◌≤◌, ◌↔◌, slice_index, slice_set, IsTrue};
ghost use Rattle.event_line.specs.Lanes.{IsVector};

use std::simd::prelude::*;

/// How many resources a vector has room for.
pub(crate) const LANES: usize = 16;

// Whether what is left covers the demands.
pub(crate) fn covers(left: u16x16, demands: u16x16) -> bool
    ensures { IsTrue result ↔ ((j : ℕ) → j < LANES
        → slice_index demands j ≤ slice_index left j) }
{
    demands.saturating_sub(left).reduce_or() == 0
}

// What is left without the demands that it covers.
pub(crate) fn less(left: u16x16, demands: u16x16) -> u16x16
    requires { (j : ℕ) → j < LANES → slice_index demands j ≤ slice_index left j }
    ensures vector { IsVector result }
    ensures less { (j : ℕ) → j < LANES
        → slice_index result j + slice_index demands j ≡ slice_index left j }
{
    left.strict_sub(demands)
}

// What is left with the demands given back.
pub(crate) fn more(left: u16x16, demands: u16x16) -> u16x16
    requires { (j : ℕ) → j < LANES → slice_index left j + slice_index demands j < 2 ^ 16 }
    ensures vector { IsVector result }
    ensures more { (j : ℕ) → j < LANES
        → slice_index result j ≡ slice_index left j + slice_index demands j }
{
    left.strict_add(demands)
}

// The vector with another number in one lane.
pub(crate) fn with_lane(vector: u16x16, lane: usize, value: u16) -> u16x16
    requires { lane < LANES }
    ensures set { result ≡ slice_set vector lane value }
    ensures vector { IsVector result }
{
    let mut lanes = vector.to_array();
    lanes[lane] = value;
    u16x16::from_array(lanes)
}
