//! Wakers that wait at streams, and what they are handed out for.
use mx_ids::Seq;
use mx_wait::{Board, Registry, StreamName, Wake, board, registry};
use std::alloc::Global;
use std::process::Abort;

/// A waker that is told apart by its number.
#[derive(Drop)]
struct Numbered {
    number: u64,
}

impl Wake for Numbered {
    fn wake(self) {}
}

/// Whether the wakers are the first and the second, in this order.
fn are_both(wakers: &Seq<Numbered>) -> bool {
    match wakers.as_slice() {
        [first, second] => first.number == 1 && second.number == 2,
        _ => false,
    }
}

/// Parks one waker.
fn park(registry: &mut Registry<Numbered>, stream: StreamName, number: u64) -> bool {
    registry.park(stream, Numbered { number }).is_ok()
}

/// How many wakers a publication hands out, or 9 where they are the first and the second in order.
fn published(
    alloc: Global,
    registry: &mut Registry<Numbered>,
    stream: StreamName,
    before: u64,
    after: u64,
) -> usize {
    let wakers = registry.publish(alloc, stream, before, after);
    let count = if are_both(&wakers) { 9 } else { wakers.len() };
    drop(wakers);
    count
}

#[test]
fn a_greater_front_hands_out_all_of_its_stream_in_order(rt: HostRuntime) {
    let alloc = rt.alloc();
    let mut registry = registry(alloc);
    let r = &mut registry;
    assert!(&rt; park(r, StreamName::Events, 1));
    assert!(&rt; park(r, StreamName::Receipts, 3));
    assert!(&rt; park(r, StreamName::Events, 2));
    assert_eq!(&rt; published(alloc, r, StreamName::Events, 3, 3), 0);
    assert_eq!(&rt; published(alloc, r, StreamName::Accounts, 3, 4), 0);
    assert_eq!(&rt; published(alloc, r, StreamName::Events, 3, 4), 9);
    assert_eq!(&rt; published(alloc, r, StreamName::Events, 3, 4), 0);
    assert_eq!(&rt; published(alloc, r, StreamName::Receipts, 0, 1), 1);
    drop(registry);
}

/// How many wakers a board hands out at a front of the events. What it tells is that front.
fn told(rt: &impl Abort, alloc: Global, board: &mut Board<Numbered>, front: u64) -> usize {
    let handed = board.tell(alloc, StreamName::Events, front);
    assert!(rt; handed.told.stream == StreamName::Events);
    assert_eq!(rt; handed.told.front, front);
    let count = handed.wakers.len();
    drop(handed);
    count
}

fn park_on(board: &mut Board<Numbered>, stream: StreamName) -> bool {
    board.park(stream, Numbered { number: 1 }).is_ok()
}

#[test]
fn a_board_hands_out_at_fronts_above_all_that_were_told(rt: HostRuntime) {
    let alloc = rt.alloc();
    let mut board = board(alloc);
    let b = &mut board;
    assert!(&rt; park_on(b, StreamName::Events));
    assert_eq!(&rt; told(&rt, alloc, b, 4), 1);
    assert_eq!(&rt; told(&rt, alloc, b, 3), 0);
    assert!(&rt; park_on(b, StreamName::Events));
    assert!(&rt; park_on(b, StreamName::Accounts));
    assert_eq!(&rt; told(&rt, alloc, b, 3), 0);
    assert_eq!(&rt; told(&rt, alloc, b, 4), 0);
    assert_eq!(&rt; told(&rt, alloc, b, 5), 1);
    drop(board);
}
