ghost use Rattle.std.specs.Prelude.{◌≡◌, length, IfOk};
ghost use Rattle.rc_instance.specs.Project.{activity_count};

use super::*;
use activity_net::Net;
use rc_instance::{Instance, Parts};
use std::alloc::Global;
use std::test::*;
use time_windows::Windows;

// The net of these activities, without resources.
#[tactic(auto, unfolding(rc_instance::specs::Parts::made))]
fn net_of(alloc: Global, durations: &[u32], successors: &[&[u32]]) -> Result<Net, Fail>
    requires { length successors.now ≡ length durations.now }
    ensures { IfOk result (λ net. activity_count net.project ≡ length durations.now) }
{
    let mut lists = Vec::new(alloc);
    for list in successors {
        lists.push(Vec::from_slice(alloc, list)?)?;
    }
    let parts = Parts {
        capacities: Vec::new(alloc),
        durations: Vec::from_slice(alloc, durations)?,
        demands: Vec::new(alloc),
        successors: lists,
    };
    Ok(Net::of(alloc, Instance::build(alloc, parts)?)?)
}

#[test]
fn rules_make_lists(rt: HostRuntime) -> Result<(), Fail> {
    let net = net_of(rt.alloc(), &[1, 2, 4, 1], &[&[], &[4], &[], &[]])?;
    let windows = Windows::of(rt.alloc(), &net)?;
    for (rule, order) in [
        (Rule::Number, [1, 2, 3, 4]),
        (Rule::Lft, [2, 1, 3, 4]),
        (Rule::Lst, [3, 2, 1, 4]),
        (Rule::Mts, [2, 1, 3, 4]),
        (Rule::Grpw, [3, 2, 1, 4]),
    ] {
        let list = list_of(rt.alloc(), &net, &windows, rule)?;
        assert_eq!(rt; list.order(), order.as_slice());
    }
    Ok(())
}

#[test]
fn a_predecessor_of_a_greater_number_comes_first(rt: HostRuntime) -> Result<(), Fail> {
    let net = net_of(rt.alloc(), &[0, 1], &[&[], &[1]])?;
    let list = list_by_number(rt.alloc(), &net)?;
    assert_eq!(rt; list.order(), [2, 1].as_slice());
    Ok(())
}

#[test]
fn a_list_is_made_anew_by_other_keys(rt: HostRuntime) -> Result<(), Fail> {
    let successors: [&[u32]; 6] = [&[2, 3, 4], &[5], &[6], &[6], &[6], &[]];
    let net = net_of(rt.alloc(), &[0, 3, 2, 2, 1, 0], &successors)?;
    let mut chooser = Chooser::new(rt.alloc(), &net)?;
    is_send(&chooser);
    let mut list = list_by_keys(rt.alloc(), &net, &[0; 6])?;
    assert_eq!(rt; list.order(), [1, 2, 3, 4, 5, 6].as_slice());
    let drawn = [
        0xa15c02b7, 0x7b47f409, 0xba1d3330, 0x83d2f293, 0xbfa4784b, 0xcbed606e,
    ];
    chooser.choose(&drawn, &mut list);
    assert_eq!(rt; list.order(), [1, 2, 4, 3, 5, 6].as_slice());
    chooser.choose(&[6, 5, 4, 3, 2, 1], &mut list);
    assert_eq!(rt; list.order(), [1, 4, 3, 2, 5, 6].as_slice());
    Ok(())
}

#[test]
fn activities_are_picked_one_after_another(rt: HostRuntime) -> Result<(), Fail> {
    let net = net_of(rt.alloc(), &[0, 1, 1], &[&[], &[1], &[]])?;
    let keys = [1, 3, 2];
    let mut picker = Picker::new(rt.alloc(), &net)?;
    is_send(&picker);
    picker.begin(&net, &keys);
    assert_eq!(rt; picker.pick(&net, &keys), Some(3));
    picker.begin(&net, &keys);
    assert_eq!(rt; picker.pick(&net, &keys), Some(3));
    assert_eq!(rt; picker.pick(&net, &keys), Some(2));
    assert_eq!(rt; picker.pick(&net, &keys), Some(1));
    assert_eq!(rt; picker.pick(&net, &keys), None);
    Ok(())
}

fn is_send<T: Send>(_: &T) {}
