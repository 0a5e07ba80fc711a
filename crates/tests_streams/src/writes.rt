//! Writes of two writers in turn, in one another's gates, and from two threads.

ghost use Rattle.std.specs.Prelude.{◌≡◌, ◌<◌, ◌≤◌, IfOk};
ghost use Rattle.mx_front.specs.Shown.{place_of, writers_of, place_of_pass};
ghost use Rattle.mx_front.specs.Start.{AreNewPens};
ghost use Rattle.mx_writers.specs.Shown.{place_of_shard};
ghost use Rattle.mx_writers.specs.Start.{AreFreshFolds};

use crate::shown::{ends_of_runs, expect_items};
use mx_front::{Pass, Pen, Stream, stream};
use mx_ids::{Memory, Seq};
use mx_writers::{
    Gate, Number, Numbers, Open, Refused, Shard, Watch, Writers, Written, Zero, numbers, shard,
    write_in, writers,
};
use std::alloc::Global;
use std::process::Abort;
use std::sync::{Mutex, Wait};
use std::test::*;
use std::thread;
use std::thread::Threads;

/// The values of two writers.
fn two_numbers(rt: &impl Abort, alloc: Global) -> Seq<Numbers>
    ensures { AreFreshFolds (λ n. n.writer) (λ n. n.stores.items) 2 result }
{
    let first = numbers(alloc, 0).expect(rt, "memory");
    let second = numbers(alloc, 1).expect(rt, "memory");
    let mut all = Seq::new(alloc);
    all.push(first).expect(rt, "memory");
    all.push(second).expect(rt, "memory");
    all
}

/// Two writers of a stream with this stop, and a pass.
fn two(rt: &impl Abort, alloc: Global, stop: u64) -> (Writers<Numbers>, Pass<Number>)
    requires { stop ≤ 1000 }
    ensures writers { writers_of result.0.stream ≡ 2 }
    ensures pass { place_of_pass result.1 ≡ place_of result.0.stream }
{
    let (stream, pens, pass) = stream(alloc, 2, stop).expect(rt, "memory");
    let writers = writers(alloc, stream, pens, two_numbers(rt, alloc)).expect(rt, "memory");
    (writers, pass)
}

fn stored(first: u64, lane: u64, front: u64) -> Result<Written, Refused<Zero>> {
    Ok(Written {
        first,
        count: 1,
        lane,
        front,
    })
}

/// The shard of a stream's first writer.
fn first_shard(
    alloc: Global,
    stream: &Stream<Number>,
    pens: Seq<Pen<Number>>,
) -> Result<Shard<Numbers>, Memory>
    requires { AreNewPens (place_of stream.now) (writers_of stream.now) 2 pens }
    ensures { IfOk result (λ s. place_of_shard s ≡ place_of stream.now) }
{
    let pen = pens.into_vec().into_iter().next().unwrap();
    Ok(shard(0, 0, numbers(alloc, 0)?, pen))
}

fn expect_write_in<R: Wait + Abort>(
    rt: &R,
    alloc: Global,
    stream: &Stream<Number>,
    shard: &mut Shard<Numbers>,
    pass: &mut Pass<Number>,
    draft: u64,
    answer: Result<Written, Refused<Zero>>,
)
    requires { (place_of_shard shard.old ≡ place_of stream.now) × (place_of_pass pass.old ≡ place_of stream.now) }
    ensures { (place_of_shard shard.new ≡ place_of_shard shard.old) × (place_of_pass pass.new ≡ place_of_pass pass.old) }
{
    let mut watch = Watch::new(&Open);
    assert_eq!(rt;
        write_in(rt, alloc, stream, shard, draft, &mut watch, pass),
        answer
    );
}

fn expect_own_stores<R: Wait + Abort>(
    rt: &R,
    alloc: Global,
    stream: &Stream<Number>,
    first: &mut Shard<Numbers>,
    pass: &mut Pass<Number>,
)
    requires { (place_of_shard first.old ≡ place_of stream.now) × (place_of_pass pass.old ≡ place_of stream.now) }
    ensures { place_of_pass pass.new ≡ place_of_pass pass.old }
{
    expect_write_in(rt, alloc, stream, first, pass, 5, stored(1, 0, 1));
    expect_write_in(
        rt,
        alloc,
        stream,
        first,
        pass,
        0,
        Err(Refused::Fault(Zero, 1)),
    );
    expect_write_in(rt, alloc, stream, first, pass, 7, stored(2, 1, 2));
}

#[test]
fn a_writer_decides_on_its_own_stores(rt: HostRuntime) {
    let alloc = rt.alloc();
    let (stream, pens, mut pass) = stream::<Number>(alloc, 2, 10).expect(&rt, "memory");
    let mut first = first_shard(alloc, &stream, pens).expect(&rt, "memory");
    expect_own_stores(&rt, alloc, &stream, &mut first, &mut pass);
    expect_items(&rt, alloc, &stream, &mut pass, 2, &[5, 7]);
    drop(first);
    drop(pass);
    drop(stream);
}

fn expect_write<R: Wait + Abort>(
    rt: &R,
    alloc: Global,
    writers: &Writers<Numbers>,
    pass: &mut Pass<Number>,
    writer: u8,
    draft: u64,
    answer: Result<Written, Refused<Zero>>,
)
    requires writer { writer < writers_of writers.now.stream }
    requires pass { place_of_pass pass.old ≡ place_of writers.now.stream }
    ensures { place_of_pass pass.new ≡ place_of_pass pass.old }
{
    let written = writers.write_seen(rt, alloc, writer, draft, &Open, pass);
    assert_eq!(rt; written, answer);
}

fn expect_turns<R: Wait + Abort>(
    rt: &R,
    alloc: Global,
    writers: &Writers<Numbers>,
    pass: &mut Pass<Number>,
)
    requires writers { writers_of writers.now.stream ≡ 2 }
    requires pass { place_of_pass pass.old ≡ place_of writers.now.stream }
    ensures { place_of_pass pass.new ≡ place_of_pass pass.old }
{
    expect_write(rt, alloc, writers, pass, 0, 10, stored(1, 0, 1));
    expect_write(rt, alloc, writers, pass, 1, 20, stored(2, 0, 2));
    expect_write(rt, alloc, writers, pass, 0, 0, Err(Refused::Fault(Zero, 1)));
    expect_write(rt, alloc, writers, pass, 0, 30, stored(3, 1, 3));
    expect_write(rt, alloc, writers, pass, 1, 40, Err(Refused::Full(3, 1)));
}

/// A writer whose write was refused writes again.
fn expect_writes_go_on<R: Wait + Abort>(
    rt: &R,
    alloc: Global,
    writers: &Writers<Numbers>,
    pass: &mut Pass<Number>,
)
    requires writers { writers_of writers.now.stream ≡ 2 }
    requires pass { place_of_pass pass.old ≡ place_of writers.now.stream }
    ensures { place_of_pass pass.new ≡ place_of_pass pass.old }
{
    expect_write(rt, alloc, writers, pass, 1, 0, Err(Refused::Fault(Zero, 1)));
    expect_write(rt, alloc, writers, pass, 1, 50, Err(Refused::Full(3, 1)));
}

#[test]
fn a_stream_without_positions_is_full(rt: HostRuntime) {
    let alloc = rt.alloc();
    let (writers, mut pass) = two(&rt, alloc, 0);
    let full = Err(Refused::Full(0, 0));
    expect_write(&rt, alloc, &writers, &mut pass, 0, 10, full);
    drop(pass);
    drop(writers);
}

#[test]
fn two_writers_write_in_turn_until_the_stream_is_full(rt: HostRuntime) {
    let alloc = rt.alloc();
    let (writers, mut pass) = two(&rt, alloc, 3);
    expect_turns(&rt, alloc, &writers, &mut pass);
    expect_writes_go_on(&rt, alloc, &writers, &mut pass);
    expect_items(&rt, alloc, writers.stream(), &mut pass, 3, &[10, 20, 30]);
    drop(pass);
    drop(writers);
}

/// The second writer and a pass of its own.
#[derive(Drop)]
struct Party<'a> {
    writers: &'a Writers<Numbers>,
    pass: Pass<Number>,
    ghost two: { writers_of writers.now.stream ≡ 2 },
    ghost reads: { place_of_pass pass ≡ place_of writers.now.stream },
}

/// A gate at which the second writer writes once, while the first holds the block that begins at 1.
#[derive(Drop)]
struct Between<'r, 'p, 'w, 'a, R: Wait> {
    rt: &'r R,
    alloc: Global,
    party: &'p Mutex<Option<Party<'w>>>,
    answer: &'a Mutex<Option<Written>>,
}

impl<'r, 'p, 'w, 'a, R: Wait> Gate for Between<'r, 'p, 'w, 'a, R> {
    ghost use Rattle.std.specs.Prelude.{true};

    ghost told = { λ gate shard first. true };

    fn drawn(&self, shard: u8, first: u64) {
        if shard != 0 || first != 1 {
            return;
        }
        let party = self.party.lock(self.rt).take();
        if let Some(Party { writers, mut pass }) = party {
            let answer = writers.write_seen(self.rt, self.alloc, 1, 20, &Open, &mut pass);
            *self.answer.lock(self.rt) = answer.ok();
        }
    }
}

/// A write of the first writer, between whose draw and store the second writes.
fn first_at_gate<R: Wait>(
    rt: &R,
    alloc: Global,
    writers: &Writers<Numbers>,
    party: &Mutex<Option<Party<'_>>>,
    answer: &Mutex<Option<Written>>,
    pass: &mut Pass<Number>,
) -> Result<Written, Refused<Zero>>
    requires writers { writers_of writers.now.stream ≡ 2 }
    requires pass { place_of_pass pass.old ≡ place_of writers.now.stream }
    ensures { place_of_pass pass.new ≡ place_of_pass pass.old }
{
    let gate = Between {
        rt,
        alloc,
        party,
        answer,
    };
    writers.write_seen(rt, alloc, 0, 10, &gate, pass)
}

fn expect_second_between<R: Wait + Abort>(
    rt: &R,
    alloc: Global,
    writers: &Writers<Numbers>,
    pass: &mut Pass<Number>,
)
    requires writers { writers_of writers.now.stream ≡ 2 }
    requires pass { place_of_pass pass.old ≡ place_of writers.now.stream }
    ensures { place_of_pass pass.new ≡ place_of_pass pass.old }
{
    let other = writers.stream().pass(pass).expect(rt, "memory");
    let party = Mutex::new(Some(Party {
        writers,
        pass: other,
    }));
    let answer = Mutex::new(None);
    let written = first_at_gate(rt, alloc, writers, &party, &answer, pass);
    assert_eq!(rt; written, stored(1, 0, 2));
    assert_eq!(rt; *answer.lock(rt), stored(2, 0, 0).ok());
    drop(answer);
    drop(party);
}

#[test]
fn a_held_block_holds_the_front(rt: HostRuntime) {
    let alloc = rt.alloc();
    let (writers, mut pass) = two(&rt, alloc, 10);
    expect_second_between(&rt, alloc, &writers, &mut pass);
    expect_items(&rt, alloc, writers.stream(), &mut pass, 2, &[10, 20]);
    drop(pass);
    drop(writers);
}

/// Writes fifty numbers from `from` on, each by one more own store.
fn fifty<R: Wait>(rt: &R, alloc: Global, party: Party<'_>, writer: u8, from: u64) -> bool
    requires { writer < 2 }
{
    let Party { writers, mut pass } = party;
    'writes: for more in 0..50u64 {
        let answer = writers.write_seen(rt, alloc, writer, from | more, &Open, &mut pass);
        if !answer.is_ok_and(|written| written.lane == more && written.count == 1) {
            return false;
        }
    }
    true
}

fn fifty_each<R: Threads + Wait + Sync>(
    rt: &R,
    alloc: Global,
    one: Party<'_>,
    two: Party<'_>,
) -> (bool, bool) {
    thread::join(
        rt,
        move || fifty(rt, alloc, one, 0, 1024),
        move || fifty(rt, alloc, two, 1, 2048),
    )
}

/// Both writers write fifty numbers at once.
fn expect_fifty_each<R: Threads + Wait + Sync + Abort>(
    rt: &R,
    alloc: Global,
    writers: &Writers<Numbers>,
    pass: &mut Pass<Number>,
)
    requires writers { writers_of writers.now.stream ≡ 2 }
    requires pass { place_of_pass pass.old ≡ place_of writers.now.stream }
    ensures { place_of_pass pass.new ≡ place_of_pass pass.old }
{
    let one = Party {
        writers,
        pass: writers.stream().pass(pass).expect(rt, "memory"),
    };
    let two = Party {
        writers,
        pass: writers.stream().pass(pass).expect(rt, "memory"),
    };
    assert_eq!(rt; fifty_each(rt, alloc, one, two), (true, true));
}

#[test]
fn own_lists_are_the_same_whatever_the_schedule(rt: HostRuntime) {
    let alloc = rt.alloc();
    let (writers, mut pass) = two(&rt, alloc, 1000);
    expect_fifty_each(&rt, alloc, &writers, &mut pass);
    let parts = writers
        .stream()
        .look(&rt, alloc, &mut pass)
        .expect(&rt, "memory");
    assert_eq!(rt; (parts.stores(), parts.front()), (100, 100));
    assert_eq!(rt; ends_of_runs(&parts, 1024, 2048), (1074, 2098));
    drop(parts);
    drop(pass);
    drop(writers);
}
