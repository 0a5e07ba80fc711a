//! A running stream: three writers with the stop 4, a stream that gets full, and two threads that write at once.

ghost use Rattle.std.specs.Prelude.{◌≡◌, [], ◌∷◌, None, IfOk, length};
ghost use Rattle.mx_front.specs.Shown.{place_of, writers_of, place_of_pen, place_of_pass, known};
ghost use Rattle.mx_front.specs.Start.{IsNewPen, AreNewPens};
ghost use Rattle.mx_front.specs.Told.{block_at};

use crate::shown::{ends_of_runs, expect_items};
use mx_front::{
    Drawn, Full, Pass, Pen, Stream, seats_see_one_history, steps_keep_history, stream,
    streams_cross_threads,
};
use mx_ids::{Memory, Seq};
use mx_lanes::Parts;
use mx_writers::{Number, Numbers, writers_cross_threads};
use std::alloc::Global;
use std::process::Abort;
use std::sync::Wait;
use std::test::*;
use std::thread;
use std::thread::Threads;

fn one(alloc: Global, value: u64) -> Result<Seq<Number>, Memory>
    ensures { IfOk result (λ items. items ≡ record { value = value } ∷ []) }
{
    let mut items = Seq::new(alloc);
    items.push(Number { value })?;
    Ok(items)
}

/// The three pens, in the order of their writers.
fn three(stream: &Stream<Number>, pens: Seq<Pen<Number>>) -> (Pen<Number>, Pen<Number>, Pen<Number>)
    requires { AreNewPens (place_of stream.now) (writers_of stream.now) 3 pens }
    ensures first { IsNewPen (place_of stream.now) (writers_of stream.now) 0 result.0 }
    ensures second { IsNewPen (place_of stream.now) (writers_of stream.now) 1 result.1 }
    ensures third { IsNewPen (place_of stream.now) (writers_of stream.now) 2 result.2 }
{
    let mut pens = pens.into_vec().into_iter();
    let first = pens.next().unwrap();
    let second = pens.next().unwrap();
    let third = pens.next().unwrap();
    (first, second, third)
}

/// Makes space for one item and draws one position.
fn draw_one<R: Wait + Abort>(
    rt: &R,
    stream: &Stream<Number>,
    pen: &mut Pen<Number>,
) -> Result<Drawn, Full>
    requires stream { place_of_pen pen.old ≡ place_of stream.now }
    requires free { (known pen.old).block ≡ None }
    ensures stream { place_of_pen pen.new ≡ place_of_pen pen.old }
    ensures drawn { IfOk result (λ d. (d.count ≡ 1) × ((known pen.new).block ≡ block_at d.first d.count)) }
{
    stream.reserve(rt, pen, 1).expect(rt, "memory");
    stream.draw(pen, 1)
}

/// Stores one number at a block of one position.
fn finish_one<R: Wait + Abort>(
    rt: &R,
    alloc: Global,
    stream: &Stream<Number>,
    pen: &mut Pen<Number>,
    pass: &mut Pass<Number>,
    drawn: Drawn,
    value: u64,
) -> u64
    requires stream { (place_of_pen pen.old ≡ place_of stream.now) × (place_of_pass pass.old ≡ place_of stream.now) }
    requires block { (drawn.count ≡ 1) × ((known pen.old).block ≡ block_at drawn.first drawn.count) }
    ensures stream { (place_of_pen pen.new ≡ place_of_pen pen.old) × (place_of_pass pass.new ≡ place_of_pass pass.old) }
    ensures free { (known pen.new).block ≡ None }
{
    let items = one(alloc, value).expect(rt, "memory");
    stream.finish(rt, pen, pass, drawn, items)
}

/// The pen of the first writer.
fn first_pen(stream: &Stream<Number>, pens: Seq<Pen<Number>>) -> Pen<Number>
    requires { AreNewPens (place_of stream.now) (writers_of stream.now) 3 pens }
    ensures { IsNewPen (place_of stream.now) (writers_of stream.now) 0 result }
{
    three(stream, pens).0
}

/// A pen of a stream with a block of one position, and a pass with which it stores.
#[derive(Drop)]
struct Holder<'a> {
    stream: &'a Stream<Number>,
    pen: Pen<Number>,
    pass: Pass<Number>,
    drawn: Drawn,
    ghost place: { place_of_pen pen ≡ place_of stream.now },
    ghost reads: { place_of_pass pass ≡ place_of stream.now },
    ghost block: { (drawn.count ≡ 1) × ((known pen).block ≡ block_at drawn.first drawn.count) },
}

fn holding<'a, R: Wait + Abort>(
    rt: &R,
    stream: &'a Stream<Number>,
    mut pen: Pen<Number>,
    from: &mut Pass<Number>,
) -> Holder<'a>
    requires stream { (place_of_pen pen ≡ place_of stream.now) × (place_of_pass from.old ≡ place_of stream.now) }
    requires free { (known pen).block ≡ None }
    ensures { place_of_pass from.new ≡ place_of_pass from.old }
{
    let drawn = draw_one(rt, stream, &mut pen).expect(rt, "space");
    let pass = stream.pass(from).expect(rt, "memory");
    Holder {
        stream,
        pen,
        pass,
        drawn,
    }
}

/// The holders of the positions 1, 2 and 3.
fn three_holding<'a, R: Wait + Abort>(
    rt: &R,
    stream: &'a Stream<Number>,
    pens: Seq<Pen<Number>>,
    pass: &mut Pass<Number>,
) -> (Holder<'a>, Holder<'a>, Holder<'a>)
    requires pens { AreNewPens (place_of stream.now) (writers_of stream.now) 3 pens }
    requires pass { place_of_pass pass.old ≡ place_of stream.now }
    ensures { place_of_pass pass.new ≡ place_of_pass pass.old }
{
    let (first, second, third) = three(stream, pens);
    let first = holding(rt, stream, first, pass);
    let second = holding(rt, stream, second, pass);
    let third = holding(rt, stream, third, pass);
    assert_eq!(rt;
        (first.drawn.first, second.drawn.first, third.drawn.first),
        (1, 2, 3)
    );
    (first, second, third)
}

/// The front after the store of a number.
fn front_after<R: Wait + Abort>(rt: &R, alloc: Global, holder: Holder<'_>, value: u64) -> u64 {
    let Holder {
        stream,
        mut pen,
        mut pass,
        drawn,
    } = holder;
    finish_one(rt, alloc, stream, &mut pen, &mut pass, drawn, value)
}

/// A store above a gap is seen, and leaves the front at 0.
fn expect_store_ahead<R: Wait + Abort>(
    rt: &R,
    alloc: Global,
    stream: &Stream<Number>,
    pass: &mut Pass<Number>,
    third: Holder<'_>,
)
    requires { place_of_pass pass.old ≡ place_of stream.now }
    ensures { place_of_pass pass.new ≡ place_of_pass pass.old }
{
    assert_eq!(rt; front_after(rt, alloc, third, 30), 0);
    expect_items(rt, alloc, stream, pass, 1, &[]);
}

#[test]
fn stores_out_of_order_move_the_front(rt: HostRuntime) {
    let alloc = rt.alloc();
    let (stream, pens, mut pass) = stream::<Number>(alloc, 3, 4).expect(&rt, "memory");
    let (first, second, third) = three_holding(&rt, &stream, pens, &mut pass);
    expect_store_ahead(&rt, alloc, &stream, &mut pass, third);
    assert_eq!(rt; front_after(&rt, alloc, first, 10), 1);
    assert_eq!(rt; front_after(&rt, alloc, second, 20), 3);
    expect_items(&rt, alloc, &stream, &mut pass, 3, &[10, 20, 30]);
    drop(pass);
    drop(stream);
}

/// The last of three stores, the last position below the stop, and then a full stream.
fn expect_last_position<R: Wait + Abort>(rt: &R, alloc: Global, holder: Holder<'_>) {
    let Holder {
        stream,
        mut pen,
        mut pass,
        drawn,
    } = holder;
    assert_eq!(rt;
        finish_one(rt, alloc, stream, &mut pen, &mut pass, drawn, 20),
        3
    );
    let last = draw_one(rt, stream, &mut pen).expect(rt, "space");
    assert_eq!(rt; last.first, 4);
    assert_eq!(rt;
        finish_one(rt, alloc, stream, &mut pen, &mut pass, last, 40),
        4
    );
    assert_eq!(rt; draw_one(rt, stream, &mut pen), Err(Full { next: 4 }));
}

#[test]
fn the_last_position_below_the_stop_is_drawn_and_then_none(rt: HostRuntime) {
    let alloc = rt.alloc();
    let (stream, pens, mut pass) = stream::<Number>(alloc, 3, 4).expect(&rt, "memory");
    let (first, second, third) = three_holding(&rt, &stream, pens, &mut pass);
    assert_eq!(rt; front_after(&rt, alloc, third, 30), 0);
    assert_eq!(rt; front_after(&rt, alloc, first, 10), 1);
    expect_last_position(&rt, alloc, second);
    drop(pass);
    drop(stream);
}

/// Draws and stores the one position of a stream, and then finds it full.
fn expect_one_position<R: Wait + Abort>(
    rt: &R,
    alloc: Global,
    stream: &Stream<Number>,
    pen: &mut Pen<Number>,
    pass: &mut Pass<Number>,
)
    requires stream { (place_of_pen pen.old ≡ place_of stream.now) × (place_of_pass pass.old ≡ place_of stream.now) }
    requires free { (known pen.old).block ≡ None }
{
    let drawn = draw_one(rt, stream, pen).expect(rt, "space");
    assert_eq!(rt; finish_one(rt, alloc, stream, pen, pass, drawn, 10), 1);
    assert_eq!(rt; draw_one(rt, stream, pen), Err(Full { next: 1 }));
}

#[test]
fn a_stream_without_positions_is_full(rt: HostRuntime) {
    let (stream, pens, pass) = stream::<Number>(rt.alloc(), 3, 0).expect(&rt, "memory");
    let mut first = first_pen(&stream, pens);
    assert_eq!(rt; draw_one(&rt, &stream, &mut first), Err(Full { next: 0 }));
    drop(first);
    drop(pass);
    drop(stream);
}

#[test]
fn a_stream_is_full_once_its_positions_are_drawn(rt: HostRuntime) {
    let alloc = rt.alloc();
    let (stream, pens, mut pass) = stream::<Number>(alloc, 3, 1).expect(&rt, "memory");
    let mut first = first_pen(&stream, pens);
    expect_one_position(&rt, alloc, &stream, &mut first, &mut pass);
    drop(first);
    drop(pass);
    drop(stream);
}

/// The fronts that three stores in this order answer.
fn fronts<R: Wait + Abort>(
    rt: &R,
    alloc: Global,
    one: Holder<'_>,
    two: Holder<'_>,
    last: Holder<'_>,
) -> (u64, u64, u64) {
    let first = front_after(rt, alloc, one, 0);
    let second = front_after(rt, alloc, two, 0);
    (first, second, front_after(rt, alloc, last, 0))
}

/// The fronts where the pen of one writer stores after the two others.
fn fronts_with_held<R: Wait + Abort>(rt: &R, alloc: Global, held: u8) -> (u64, u64, u64) {
    let (stream, pens, mut pass) = stream::<Number>(alloc, 3, 4).expect(rt, "memory");
    let (first, second, third) = three_holding(rt, &stream, pens, &mut pass);
    let found = match held {
        0 => fronts(rt, alloc, second, third, first),
        1 => fronts(rt, alloc, first, third, second),
        _ => fronts(rt, alloc, first, second, third),
    };
    drop(pass);
    drop(stream);
    found
}

#[test]
fn each_pen_in_turn_holds_the_front(rt: HostRuntime) {
    let alloc = rt.alloc();
    assert_eq!(rt; fronts_with_held(&rt, alloc, 0), (0, 0, 3));
    assert_eq!(rt; fronts_with_held(&rt, alloc, 1), (1, 1, 3));
    assert_eq!(rt; fronts_with_held(&rt, alloc, 2), (1, 2, 3));
}

/// A pen stores a number, and a pass sees it by a note.
fn store_noted<R: Wait + Abort>(
    rt: &R,
    alloc: Global,
    stream: &Stream<Number>,
    pen: &mut Pen<Number>,
    pass: &mut Pass<Number>,
)
    requires pen { place_of_pen pen.old ≡ place_of stream.now }
    requires free { (known pen.old).block ≡ None }
    requires pass { place_of_pass pass.old ≡ place_of stream.now }
    ensures { place_of_pass pass.new ≡ place_of_pass pass.old }
{
    let drawn = draw_one(rt, stream, pen).expect(rt, "space");
    assert_eq!(rt; finish_one(rt, alloc, stream, pen, pass, drawn, 10), 1);
    assert!(rt; stream.note(pen, pass).is_ok());
}

#[test]
fn passes_meet_and_note(rt: HostRuntime) {
    let alloc = rt.alloc();
    let (stream, pens, mut pass) = stream::<Number>(alloc, 3, 4).expect(&rt, "memory");
    let mut first = first_pen(&stream, pens);
    let mut other = stream.pass(&mut pass).expect(&rt, "memory");
    store_noted(&rt, alloc, &stream, &mut first, &mut pass);
    stream.meet(&mut other, pass);
    expect_items(&rt, alloc, &stream, &mut other, 1, &[10]);
    drop(other);
    drop(first);
    drop(stream);
}

/// The numbers of stores that a pass has seen: after a glance at no store, after one at a first store, which is made with another pass,
/// and after one more.
fn glances<R: Wait + Abort>(
    rt: &R,
    alloc: Global,
    stream: &Stream<Number>,
    pen: &mut Pen<Number>,
    other: &mut Pass<Number>,
    pass: &mut Pass<Number>,
) -> (u64, u64, u64)
    requires pen { place_of_pen pen.old ≡ place_of stream.now }
    requires free { (known pen.old).block ≡ None }
    requires passes { (place_of_pass other.old ≡ place_of stream.now) × (place_of_pass pass.old ≡ place_of stream.now) }
{
    stream.glance(pass);
    let before = pass.stores();
    let drawn = draw_one(rt, stream, pen).expect(rt, "space");
    finish_one(rt, alloc, stream, pen, other, drawn, 10);
    stream.glance(pass);
    let after = pass.stores();
    stream.glance(pass);
    (before, after, pass.stores())
}

#[test]
fn a_glance_sees_what_was_stored(rt: HostRuntime) {
    let alloc = rt.alloc();
    let (stream, pens, mut pass) = stream::<Number>(alloc, 3, 4).expect(&rt, "memory");
    let mut first = first_pen(&stream, pens);
    let mut other = stream.pass(&mut pass).expect(&rt, "memory");
    let seen = glances(&rt, alloc, &stream, &mut first, &mut other, &mut pass);
    drop(other);
    drop(first);
    drop(pass);
    drop(stream);
    assert_eq!(rt; seen, (0, 1, 1));
}

/// A block of 512 numbers, from 0 on.
fn numbers(alloc: Global) -> Result<Seq<Number>, Memory>
    ensures { IfOk result (λ items. length items ≡ 512) }
{
    let mut items = Seq::new(alloc);
    'values: for value in 0..512u64 {
        items.push(Number { value })?;
    }
    Ok(items)
}

/// Stores some blocks of 512 numbers, and looks at all items.
fn after_blocks<R: Wait + Abort>(
    rt: &R,
    alloc: Global,
    stream: &Stream<Number>,
    pen: &mut Pen<Number>,
    pass: &mut Pass<Number>,
    blocks: u8,
) -> Parts<Number>
    requires pen { place_of_pen pen.old ≡ place_of stream.now }
    requires free { (known pen.old).block ≡ None }
    requires pass { place_of_pass pass.old ≡ place_of stream.now }
    ensures pen { place_of_pen pen.new ≡ place_of_pen pen.old }
    ensures free { (known pen.new).block ≡ None }
    ensures pass { place_of_pass pass.new ≡ place_of_pass pass.old }
{
    'stores: for _ in 0..blocks {
        stream.reserve(rt, pen, 512).expect(rt, "memory");
        let drawn = stream.draw(pen, 512).expect(rt, "space");
        let items = numbers(alloc).expect(rt, "memory");
        stream.finish(rt, pen, pass, drawn, items);
    }
    stream.look(rt, alloc, pass).expect(rt, "memory")
}

fn value_at(parts: &Parts<Number>, position: u64) -> Option<u64> {
    parts.at(position).map(|item| item.value)
}

#[test]
fn later_parts_share_the_segments_of_earlier_ones(rt: HostRuntime) {
    let alloc = rt.alloc();
    let (stream, pens, mut pass) = stream::<Number>(alloc, 3, 3000).expect(&rt, "memory");
    let mut first = first_pen(&stream, pens);
    let before = after_blocks(&rt, alloc, &stream, &mut first, &mut pass, 3);
    let after = after_blocks(&rt, alloc, &stream, &mut first, &mut pass, 2);
    assert_eq!(rt; (before.front(), after.front()), (1536, 2560));
    assert_eq!(rt;
        (value_at(&before, 1536), value_at(&before, 1537)),
        (Some(511), None)
    );
    assert_eq!(rt;
        (value_at(&after, 1536), value_at(&after, 1537)),
        (Some(511), Some(0))
    );
    drop(after);
    drop(before);
    drop(first);
    drop(pass);
    drop(stream);
}

/// Stores the second of three numbers, above what a look saw of the two others: the front moves, and what was seen stays.
fn expect_still_seen<R: Wait + Abort>(
    rt: &R,
    alloc: Global,
    seen: &Parts<Number>,
    second: Holder<'_>,
) {
    assert_eq!(rt; front_after(rt, alloc, second, 20), 3);
    assert_eq!(rt; (seen.stores(), seen.front()), (2, 1));
    assert_eq!(rt; (value_at(seen, 1), value_at(seen, 2)), (Some(10), None));
}

#[test]
fn a_look_covers_no_later_store(rt: HostRuntime) {
    let alloc = rt.alloc();
    let (stream, pens, mut pass) = stream::<Number>(alloc, 3, 4).expect(&rt, "memory");
    let (first, second, third) = three_holding(&rt, &stream, pens, &mut pass);
    assert_eq!(rt; front_after(&rt, alloc, third, 30), 0);
    assert_eq!(rt; front_after(&rt, alloc, first, 10), 1);
    let seen = stream.look(&rt, alloc, &mut pass).expect(&rt, "memory");
    expect_still_seen(&rt, alloc, &seen, second);
    drop(seen);
    drop(pass);
    drop(stream);
}

/// A pen of a stream without a block, and a pass with which it stores.
#[derive(Drop)]
struct Writer<'a> {
    stream: &'a Stream<Number>,
    pen: Pen<Number>,
    pass: Pass<Number>,
    ghost place: { place_of_pen pen ≡ place_of stream.now },
    ghost reads: { place_of_pass pass ≡ place_of stream.now },
    ghost free: { (known pen).block ≡ None },
}

/// Stores the numbers from `from` to `from + 69`, one at a time: more than space is made for at once.
fn seventy<R: Wait + Abort>(rt: &R, alloc: Global, writer: Writer<'_>, from: u64) -> bool {
    let Writer {
        stream,
        mut pen,
        mut pass,
    } = writer;
    'writes: for more in 0..70u64 {
        let Ok(drawn) = draw_one(rt, stream, &mut pen) else {
            return false;
        };
        finish_one(rt, alloc, stream, &mut pen, &mut pass, drawn, from | more);
    }
    true
}

fn seventy_each<R: Threads + Wait + Abort + Sync>(
    rt: &R,
    alloc: Global,
    one: Writer<'_>,
    two: Writer<'_>,
) -> (bool, bool) {
    thread::join(
        rt,
        move || seventy(rt, alloc, one, 0),
        move || seventy(rt, alloc, two, 1024),
    )
}

/// The first two of three writers store seventy numbers at once.
fn expect_seventy_each<R: Threads + Wait + Abort + Sync>(
    rt: &R,
    alloc: Global,
    stream: &Stream<Number>,
    pens: Seq<Pen<Number>>,
    pass: &mut Pass<Number>,
)
    requires pens { AreNewPens (place_of stream.now) (writers_of stream.now) 3 pens }
    requires pass { place_of_pass pass.old ≡ place_of stream.now }
    ensures { place_of_pass pass.new ≡ place_of_pass pass.old }
{
    let (first, second, third) = three(stream, pens);
    drop(third);
    let one = Writer {
        stream,
        pen: first,
        pass: stream.pass(pass).expect(rt, "memory"),
    };
    let two = Writer {
        stream,
        pen: second,
        pass: stream.pass(pass).expect(rt, "memory"),
    };
    assert_eq!(rt; seventy_each(rt, alloc, one, two), (true, true));
}

#[test]
fn threads_store_side_by_side(rt: HostRuntime) {
    let alloc = rt.alloc();
    let (stream, pens, mut pass) = stream::<Number>(alloc, 3, 1000).expect(&rt, "memory");
    expect_seventy_each(&rt, alloc, &stream, pens, &mut pass);
    let parts = stream.look(&rt, alloc, &mut pass).expect(&rt, "memory");
    assert_eq!(rt; (parts.stores(), parts.front()), (140, 140));
    assert_eq!(rt; ends_of_runs(&parts, 0, 1024), (70, 1094));
    drop(parts);
    drop(pass);
    drop(stream);
}

#[test]
fn laws_hold_of_numbers() {
    seats_see_one_history::<Number>();
    steps_keep_history::<Number>();
    streams_cross_threads::<Number>();
    writers_cross_threads::<Numbers>();
}
