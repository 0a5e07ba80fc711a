//! Clocks, through their trait.
use mx_outside::{Clock, HostClock, StepClock};

fn reading<C: Clock>(clock: &mut C) -> u64 {
    clock.rest(0);
    clock.now()
}

fn twin_of<C: Clock>(clock: &C) -> C {
    clock.twin()
}

#[test]
fn a_step_clock_is_moved_by_its_readings(rt: HostRuntime) {
    let mut clock = StepClock::new(1000, 5);
    assert_eq!(rt; reading(&mut clock), 1000);
    let mut twin = twin_of(&clock);
    assert_eq!(rt; reading(&mut clock), 1005);
    assert_eq!(rt; reading(&mut twin), 1005);
}

#[test]
fn a_clock_stops_at_the_greatest_integer_of_json(rt: HostRuntime) {
    let mut clock = StepClock::new(9_007_199_254_740_990, 5);
    assert_eq!(rt; reading(&mut clock), 9_007_199_254_740_990);
    assert_eq!(rt; reading(&mut clock), 9_007_199_254_740_991);
    assert_eq!(rt; reading(&mut clock), 9_007_199_254_740_991);
}

#[test]
fn the_clock_of_the_system_counts_from_1970(rt: HostRuntime) {
    // the first of January 2020
    assert!(rt; 1_577_836_800_000 < reading(&mut HostClock::new(rt)));
}
