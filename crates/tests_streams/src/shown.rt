//! The numbers that a look shows.

ghost use Rattle.std.specs.Prelude.{◌≡◌};
ghost use Rattle.mx_front.specs.Shown.{place_of, place_of_pass};

use mx_front::{Pass, Stream};
use mx_lanes::Parts;
use mx_writers::Number;
use std::alloc::Global;
use std::process::Abort;
use std::sync::Wait;
use std::test::*;

/// The ends of two runs of numbers that are merged into a list, each of which begins as said.
pub fn ends_of_runs(merged: &Parts<Number>, one: u64, two: u64) -> (u64, u64) {
    let mut next = (one, two);
    for position in 1..=merged.front() {
        let value = merged.at(position).map(|item| item.value);
        if value == Some(next.0) {
            next.0 = next.0.wrapping_add(1);
        } else if value == Some(next.1) {
            next.1 = next.1.wrapping_add(1);
        }
    }
    next
}

/// A look of a pass sees so many stores, and up to the front just these numbers.
pub fn expect_items<R: Wait + Abort>(
    rt: &R,
    alloc: Global,
    stream: &Stream<Number>,
    pass: &mut Pass<Number>,
    stores: u64,
    values: &[u64],
)
    requires { place_of_pass pass.old ≡ place_of stream.now }
    ensures { place_of_pass pass.new ≡ place_of_pass pass.old }
{
    let parts = stream.look(rt, alloc, pass).expect(rt, "memory");
    let front = values.len() as u64;
    assert_eq!(rt; (parts.stores(), parts.front()), (stores, front));
    let mut position = 1u64;
    for value in values {
        let found = parts.at(position).map(|item| item.value);
        assert_eq!(rt; found, Some(*value), "at {position}");
        position = position.saturating_add(1);
    }
}
