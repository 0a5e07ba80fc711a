//! Three writers below the limit 4, and the laws at a concrete type.

ghost use Rattle.std.specs.Prelude.{◌≡◌, ◌<◌, length};

use mx_core::{
    Machine, Moved, Placed, Step, StepFault, front_covers_no_unfinished_write, front_never_falls,
};
use mx_ids::Seq;
use std::alloc::Global;
use std::process::Abort;

/// Asserts what a writer's draw of so many positions answers.
fn expect_draw(
    rt: &impl Abort,
    machine: &mut Machine<u64>,
    writer: u8,
    count: u16,
    wanted: Result<Moved, StepFault>,
)
    requires writer { writer < length machine.old.held }
    requires count { 0 < count }
    ensures { length machine.new.held ≡ length machine.old.held }
{
    assert_eq!(rt; machine.apply(Step::Draw { writer, count }), wanted);
}

/// Asserts what a writer's store of one item answers.
fn expect_store(
    rt: &impl Abort,
    alloc: Global,
    machine: &mut Machine<u64>,
    writer: u8,
    item: u64,
    wanted: Result<Moved, StepFault>,
)
    requires { writer < length machine.old.held }
    ensures { length machine.new.held ≡ length machine.old.held }
{
    let mut items = Seq::new(alloc);
    items.push(item).expect(rt, "memory");
    assert_eq!(rt; machine.apply(Step::Store { writer, items }), wanted);
}

/// Each of three writers draws a position, and one of them asks for a second.
fn expect_draws(rt: &impl Abort, machine: &mut Machine<u64>)
    requires { length machine.old.held ≡ 3 }
    ensures { length machine.new.held ≡ 3 }
{
    expect_draw(rt, machine, 0, 1, Ok(Moved::Drawn { first: 1, count: 1 }));
    expect_draw(rt, machine, 1, 1, Ok(Moved::Drawn { first: 2, count: 1 }));
    expect_draw(rt, machine, 2, 1, Ok(Moved::Drawn { first: 3, count: 1 }));
    expect_draw(rt, machine, 2, 1, Err(StepFault::AlreadyDrawn(3)));
}

/// The three writers store, the last one first.
fn expect_stores(rt: &impl Abort, alloc: Global, machine: &mut Machine<u64>)
    requires { length machine.old.held ≡ 3 }
{
    expect_store(rt, alloc, machine, 2, 30, Ok(Moved::Stored { front: 0 }));
    expect_draw(rt, machine, 2, 1, Err(StepFault::AtLimit(3)));
    expect_store(rt, alloc, machine, 0, 10, Ok(Moved::Stored { front: 1 }));
    expect_store(rt, alloc, machine, 1, 20, Ok(Moved::Stored { front: 3 }));
    expect_store(rt, alloc, machine, 2, 31, Err(StepFault::NothingDrawn));
}

#[test]
fn stores_out_of_order_move_the_front(rt: HostRuntime) {
    let mut machine = Machine::new(rt.alloc(), 3, 4).expect(&rt, "memory");
    expect_draws(&rt, &mut machine);
    expect_stores(&rt, rt.alloc(), &mut machine);
    assert_eq!(rt; machine.front(), 3);
}

#[test]
fn a_store_has_as_many_items_as_were_drawn(rt: HostRuntime) {
    let mut machine = Machine::new(rt.alloc(), 1, 9).expect(&rt, "memory");
    expect_draw(
        &rt,
        &mut machine,
        0,
        2,
        Ok(Moved::Drawn { first: 1, count: 2 }),
    );
    expect_store(
        &rt,
        rt.alloc(),
        &mut machine,
        0,
        10,
        Err(StepFault::WrongCount { drawn: 2, given: 1 }),
    );
}

#[test]
fn laws_hold_of_numbers() {
    front_covers_no_unfinished_write::<u64>();
    front_never_falls::<u64>();
}

#[derive(Drop)]
struct Numbered {
    at: u64,
}

impl Placed for Numbered {
    ghost use Rattle.std.specs.Prelude.{true};

    ghost lawful = { λ writer before first items. true };

    ghost placed = { λ item first at. record { at = at } };

    fn place(&mut self, _first: u64, at: u64) {
        self.at = at;
    }
}

fn place_second<I: Placed>(item: &mut I) {
    item.place(7, 8);
}

#[test]
fn an_item_takes_its_position(rt: HostRuntime) {
    let mut item = Numbered { at: 0 };
    place_second(&mut item);
    assert_eq!(rt; item.at, 8);
}
