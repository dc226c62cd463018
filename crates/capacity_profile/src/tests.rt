use crate::{blocked, lane, lane_min, pack};
use std::test::*;

#[test]
fn words_have_four_lanes(rt: HostRuntime) {
    let word = pack([1, 2, 3, 4]);
    assert_eq!(rt; word, 0x0004_0003_0002_0001);
    assert_eq!(rt; lane(word, 0), 1);
    assert_eq!(rt; lane(word, 3), 4);
    assert_eq!(rt; lane_min(word, pack([9, 0, 3, 2])), pack([1, 0, 3, 2]));
}

#[test]
fn a_demand_is_added_where_there_is_room(rt: HostRuntime) {
    let word = pack([2, 0, 0, 0]);
    let capacity = pack([2, 9, 0, 0]);
    assert!(rt; blocked(word, pack([1, 0, 0, 0]), capacity));
    assert!(rt; !blocked(word, pack([0, 9, 0, 0]), capacity));
}
