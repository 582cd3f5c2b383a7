use crate::*;
use std::process::Abort;

fn address<P: Plan>(plan: &P, subnet: u8, host: u16) -> Option<u32> {
    plan.address(Place::new(subnet, host)?)
}

/// Checks that the place is served at the address, both ways.
fn check_served<P: Plan>(rt: &impl Abort, plan: &P, subnet: u8, host: u16, at: u32) {
    assert_eq!(rt; address(plan, subnet, host), Some(at));
    assert_eq!(rt; plan.place_at(at), Place::new(subnet, host));
}

#[test]
fn a_place_out_of_range_does_not_exist(rt: HostRuntime) {
    assert_eq!(rt; Place::new(64, 0), None);
    assert_eq!(rt; Place::new(0, 16384), None);
    let last = Place::new(63, 16383).expect(&rt, "the last place");
    assert_eq!(rt; last.subnet(), 63);
    assert_eq!(rt; last.host(), 16383);
}

#[test]
fn train_plan(rt: HostRuntime) {
    let plan = Train { backbone: 0 };
    check_served(&rt, &plan, 9, 300, 0x0a82_412c);
    check_served(&rt, &plan, 0, 1, 0x0a80_0001);
    check_served(&rt, &plan, 63, 16382, 0x0a8f_fffe);
    check_served(&rt, &Train { backbone: 3 }, 63, 16382, 0x0aef_fffe);
    for host in [0, 16383] {
        assert_eq!(rt; address(&plan, 63, host), None);
    }
    for at in [0x0a7f_ffff, 0x0a80_0000, 0x0a8f_ffff, 0x0a90_0001] {
        assert_eq!(rt; plan.place_at(at), None);
    }
    assert_eq!(rt; address(&Train { backbone: 4 }, 9, 300), None);
}

#[test]
fn train_plan_at_the_edges_of_every_subnet(rt: HostRuntime) {
    for backbone in 0..4u8 {
        let plan = Train { backbone };
        for subnet in 0..64u8 {
            let start = 0x0a80_0000 + u32::from(backbone) * 2097152 + u32::from(subnet) * 16384;
            check_served(&rt, &plan, subnet, 1, start + 1);
            check_served(&rt, &plan, subnet, 16382, start + 16382);
            assert_eq!(rt; address(&plan, subnet, 0), None);
            assert_eq!(rt; address(&plan, subnet, 16383), None);
            assert_eq!(rt; plan.place_at(start), None);
            assert_eq!(rt; plan.place_at(start + 16383), None);
        }
    }
}

#[test]
fn consist_plan(rt: HostRuntime) {
    let plan = Consist { subnet: 63 };
    check_served(&rt, &plan, 63, 1, 0x0a00_0001);
    check_served(&rt, &plan, 63, 16382, 0x0a00_3ffe);
    for (subnet, host) in [(63, 0), (63, 16383), (62, 1), (0, 1)] {
        assert_eq!(rt; address(&plan, subnet, host), None);
    }
    for at in [0x09ff_ffff, 0x0a00_0000, 0x0a00_3fff, 0x0a00_4001] {
        assert_eq!(rt; plan.place_at(at), None);
    }
    for subnet in [0, 64] {
        assert_eq!(rt; Consist { subnet }.place_at(0x0a00_0001), None);
    }
}

#[test]
fn home_layer(rt: HostRuntime) {
    let below = Train { backbone: 0 };
    let plan = Home { subnet: 5, below };
    check_served(&rt, &plan, 5, 7, 0x0a00_0007);
    check_served(&rt, &plan, 6, 7, 0x0a81_8007);
    assert_eq!(rt; address(&plan, 5, 0), None);
    assert_eq!(rt; plan.place_at(0x0a81_4007), None);
    check_served(&rt, &Home { subnet: 64, below }, 5, 7, 0x0a81_4007);
}

#[test]
fn home_layer_hides_the_local_range_below(rt: HostRuntime) {
    let home = Home {
        subnet: 5,
        below: Consist { subnet: 6 },
    };
    check_served(&rt, &home, 5, 7, 0x0a00_0007);
    assert_eq!(rt; address(&home, 6, 7), None);
    let outer = Home {
        subnet: 0,
        below: home,
    };
    assert_eq!(rt; address(&outer, 5, 7), None);
    assert_eq!(rt; outer.place_at(0x0a00_0007), None);
    check_served(
        &rt,
        &Home {
            subnet: 6,
            below: home,
        },
        6,
        7,
        0x0a00_0007,
    );
}
