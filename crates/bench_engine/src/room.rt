//! A room that messages are sent to, and that is synced.

ghost use Rattle.std.specs.Prelude.{◌≡◌, Some, IfOk, slice_get};
ghost use Rattle.mx_ask.specs.Asks.{IsAsk};
ghost use Rattle.mx_engine.specs.Shown.{Ties};

use crate::rests::timed_rests;
use crate::unmeasured::Unmeasured;
use crate::users::{user_at, users_file};
use crate::words::{Timed, Wanted};
use mx_ask::{Ask, FilterAsk, Said, Who};
use mx_create::wrong_field;
use mx_engine::{Engine, EnginePass, Setup, engine};
use mx_event::Txn;
use mx_ids::{
    Copied, EventId, Memory, RoomId, Seq, SyncToken, Text, write_event_id, write_room_id,
};
use mx_json::read;
use mx_outside::Clock;
use mx_receipt::ReceiptKind;
use mx_users::read_users;
use mx_writers::Open;
use std::alloc::Global;
use std::sync::Wait;

/// What a user is answered.
#[derive(Clone, Copy)]
pub enum Told {
    Room(RoomId),
    Sent(EventId),
    Synced(SyncToken),
    Done,
    Other,
}

/// The milliseconds that what is wanted takes.
pub fn measure<R: Wait, C: Clock>(
    rt: &R,
    alloc: Global,
    clock: &mut C,
    wanted: Wanted,
) -> Result<u64, Unmeasured> {
    let (engine, mut pass) = started(alloc, wanted.syncs())?;
    let took = measured(rt, alloc, clock, &engine, &mut pass, wanted);
    drop(pass);
    drop(engine);
    took
}

/// An engine with one user and so many others, and a pass.
fn started(alloc: Global, others: u32) -> Result<(Engine<Open>, EnginePass), Unmeasured>
    ensures ties { IfOk result (λ r. Ties r.0 r.1) }
{
    let users = read_users(alloc, users_file(alloc, others)?.as_bytes())?;
    let setup = Setup {
        users,
        workers: 1,
        stop: 281_474_976_694_272,
    };
    Ok(engine(alloc, setup, Open)?)
}

/// The same on an engine without a room.
fn measured<R: Wait, C: Clock>(
    rt: &R,
    alloc: Global,
    clock: &mut C,
    engine: &Engine<Open>,
    pass: &mut EnginePass,
    wanted: Wanted,
) -> Result<u64, Unmeasured>
    requires ties { Ties engine.now pass.old }
{
    let who = user_at(alloc, engine.users(), 0)?;
    let took = measured_by(rt, alloc, clock, engine, pass, &who, wanted);
    drop(who);
    took
}

/// The same by a user.
fn measured_by<R: Wait, C: Clock>(
    rt: &R,
    alloc: Global,
    clock: &mut C,
    engine: &Engine<Open>,
    pass: &mut EnginePass,
    who: &Who,
    wanted: Wanted,
) -> Result<u64, Unmeasured>
    requires ties { Ties engine.now pass.old }
{
    let room = create(rt, alloc, engine, pass, who)?;
    let took = match wanted.timed {
        Timed::Rests | Timed::Wakes => {
            timed_rests(rt, alloc, clock, engine, pass, who, &room, wanted)
        }
        _ => measured_in(rt, alloc, clock, engine, pass, who, &room, wanted),
    };
    drop(room);
    took
}

/// The same in a room without messages.
fn measured_in<R: Wait, C: Clock>(
    rt: &R,
    alloc: Global,
    clock: &mut C,
    engine: &Engine<Open>,
    pass: &mut EnginePass,
    who: &Who,
    room: &Text,
    wanted: Wanted,
) -> Result<u64, Unmeasured>
    requires ties { Ties engine.now pass.old }
{
    let last = send_all(rt, alloc, engine, pass, who, room, 0, wanted.size)?;
    match wanted.timed {
        Timed::Sends => timed_sends(rt, alloc, clock, engine, pass, who, room, wanted),
        Timed::Syncs => {
            read_up_to(rt, alloc, engine, pass, who, room, last)?;
            timed_syncs(rt, alloc, clock, engine, pass, who, room, wanted)
        }
        Timed::Chain => timed_chain(rt, alloc, clock, engine, pass, who, room, wanted),
        _ => timed_syncs(rt, alloc, clock, engine, pass, who, room, wanted),
    }
}

/// The milliseconds of the sends.
fn timed_sends<R: Wait, C: Clock>(
    rt: &R,
    alloc: Global,
    clock: &mut C,
    engine: &Engine<Open>,
    pass: &mut EnginePass,
    who: &Who,
    room: &Text,
    wanted: Wanted,
) -> Result<u64, Unmeasured>
    requires ties { Ties engine.now pass.old }
{
    let start = clock.now();
    send_all(
        rt,
        alloc,
        engine,
        pass,
        who,
        room,
        wanted.size,
        wanted.count,
    )?;
    Ok(clock.now().saturating_sub(start))
}

/// The milliseconds of the syncs of ten messages.
fn timed_syncs<R: Wait, C: Clock>(
    rt: &R,
    alloc: Global,
    clock: &mut C,
    engine: &Engine<Open>,
    pass: &mut EnginePass,
    who: &Who,
    room: &Text,
    wanted: Wanted,
) -> Result<u64, Unmeasured>
    requires ties { Ties engine.now pass.old }
{
    let since = sync(rt, alloc, engine, pass, who, None)?;
    send_all(rt, alloc, engine, pass, who, room, wanted.size, 10)?;
    sync(rt, alloc, engine, pass, who, Some(since))?;
    let start = clock.now();
    sync_all(rt, alloc, engine, pass, who, since, wanted.count)?;
    Ok(clock.now().saturating_sub(start))
}

/// What a user is answered to what it asks.
pub fn ask_engine<R: Wait>(
    rt: &R,
    alloc: Global,
    engine: &Engine<Open>,
    pass: &mut EnginePass,
    who: &Who,
    ask: Ask,
) -> Told
    requires ties { Ties engine.now pass.old }
    requires ask { IsAsk ask }
    ensures ties { Ties engine.now pass.new }
{
    let answered = engine.answer(rt, alloc, pass, who, ask, 1000);
    let told = told_by(&answered.said);
    drop(answered);
    told
}

fn told_by(said: &Said) -> Told {
    match said {
        Said::Room(room) => Told::Room(*room),
        Said::Sent(event) => Told::Sent(*event),
        Said::Synced(reply) => Told::Synced(reply.next),
        Said::Done => Told::Done,
        _ => Told::Other,
    }
}

/// Sends the user's receipt for an event of the room, if there is one. `Other` where it is refused.
pub fn read_up_to<R: Wait>(
    rt: &R,
    alloc: Global,
    engine: &Engine<Open>,
    pass: &mut EnginePass,
    who: &Who,
    room: &Text,
    event: Option<EventId>,
) -> Result<(), Unmeasured>
    requires ties { Ties engine.now pass.old }
    ensures ties { Ties engine.now pass.new }
{
    let Some(event) = event else {
        return Ok(());
    };
    let ask = receipt_ask(alloc, room, event)?;
    match ask_engine(rt, alloc, engine, pass, who, ask) {
        Told::Done => Ok(()),
        _ => Err(Unmeasured::Other),
    }
}

/// What the user's receipt for an event of the room asks.
fn receipt_ask(alloc: Global, room: &Text, event: EventId) -> Result<Ask, Memory>
    ensures { IfOk result IsAsk }
{
    Ok(Ask::Receipt {
        room: room.copy(alloc)?,
        kind: Some(ReceiptKind::Read),
        event: event_text(alloc, event)?,
    })
}

/// An event's id as a text.
fn event_text(alloc: Global, event: EventId) -> Result<Text, Memory> {
    let mut id = Text::new(alloc);
    write_event_id(alloc, &event, "example.org", &mut id)?;
    Ok(id)
}

/// The milliseconds of the syncs of a chain and of the sends before them.
fn timed_chain<R: Wait, C: Clock>(
    rt: &R,
    alloc: Global,
    clock: &mut C,
    engine: &Engine<Open>,
    pass: &mut EnginePass,
    who: &Who,
    room: &Text,
    wanted: Wanted,
) -> Result<u64, Unmeasured>
    requires ties { Ties engine.now pass.old }
{
    let first = sync(rt, alloc, engine, pass, who, None)?;
    let start = clock.now();
    sync_on(rt, alloc, engine, pass, who, room, first, wanted)?;
    Ok(clock.now().saturating_sub(start))
}

/// The syncs of a chain from a token on, with ten messages before each.
fn sync_on<R: Wait>(
    rt: &R,
    alloc: Global,
    engine: &Engine<Open>,
    pass: &mut EnginePass,
    who: &Who,
    room: &Text,
    from: SyncToken,
    wanted: Wanted,
) -> Result<(), Unmeasured>
    requires ties { Ties engine.now pass.old }
    ensures ties { Ties engine.now pass.new }
{
    let mut since = from;
    'syncs: for number in 0..wanted.count {
        let first = wanted.size.saturating_add(number.saturating_mul(10));
        send_all(rt, alloc, engine, pass, who, room, first, 10)?;
        since = sync(rt, alloc, engine, pass, who, Some(since))?;
    }
    Ok(())
}

/// So many syncs since a token.
fn sync_all<R: Wait>(
    rt: &R,
    alloc: Global,
    engine: &Engine<Open>,
    pass: &mut EnginePass,
    who: &Who,
    since: SyncToken,
    count: u32,
) -> Result<(), Unmeasured>
    requires ties { Ties engine.now pass.old }
    ensures ties { Ties engine.now pass.new }
{
    'syncs: for _ in 0..count {
        sync(rt, alloc, engine, pass, who, Some(since))?;
    }
    Ok(())
}

/// The token of a sync. `Other` where it is refused.
fn sync<R: Wait>(
    rt: &R,
    alloc: Global,
    engine: &Engine<Open>,
    pass: &mut EnginePass,
    who: &Who,
    since: Option<SyncToken>,
) -> Result<SyncToken, Unmeasured>
    requires ties { Ties engine.now pass.old }
    ensures ties { Ties engine.now pass.new }
{
    let ask = Ask::Sync {
        since,
        filter: FilterAsk::Absent,
        full_state: false,
        after: false,
        timeout: 0,
    };
    match ask_engine(rt, alloc, engine, pass, who, ask) {
        Told::Synced(next) => Ok(next),
        _ => Err(Unmeasured::Other),
    }
}

fn text(alloc: Global, s: &str) -> Result<Text, Memory> {
    Ok(Text::from_string(String::from_str(alloc, s)?))
}

/// A room of the user that anybody may join, by its id.
pub fn create<R: Wait>(
    rt: &R,
    alloc: Global,
    engine: &Engine<Open>,
    pass: &mut EnginePass,
    who: &Who,
) -> Result<Text, Unmeasured>
    requires ties { Ties engine.now pass.old }
    ensures ties { Ties engine.now pass.new }
{
    match ask_engine(rt, alloc, engine, pass, who, create_ask(alloc)?) {
        Told::Room(room) => Ok(room_text(alloc, room)?),
        _ => Err(Unmeasured::Other),
    }
}

/// A room's id as a text.
fn room_text(alloc: Global, room: RoomId) -> Result<Text, Memory> {
    let mut id = Text::new(alloc);
    write_room_id(alloc, &room, "example.org", &mut id)?;
    Ok(id)
}

/// What the creation of a room that anybody may join asks.
fn create_ask(alloc: Global) -> Result<Ask, Unmeasured>
    ensures { IfOk result IsAsk }
{
    let body = read(alloc, b"{\"preset\":\"public_chat\"}")?;
    match wrong_field(&body) {
        None => Ok(Ask::CreateRoom { body }),
        Some(_) => {
            drop(body);
            Err(Unmeasured::Other)
        }
    }
}

/// Sends so many messages, each in a transaction of its own, which are numbered from `first` on: the last one's id.
fn send_all<R: Wait>(
    rt: &R,
    alloc: Global,
    engine: &Engine<Open>,
    pass: &mut EnginePass,
    who: &Who,
    room: &Text,
    first: u32,
    count: u32,
) -> Result<Option<EventId>, Unmeasured>
    requires ties { Ties engine.now pass.old }
    ensures ties { Ties engine.now pass.new }
{
    let mut last = None;
    'sends: for number in 0..count {
        let number = u64::from(first) + u64::from(number);
        last = Some(send(rt, alloc, engine, pass, who, room, number)?);
    }
    Ok(last)
}

/// Sends a message in a transaction of this number: its id. `Other` where it isn't stored.
pub fn send<R: Wait>(
    rt: &R,
    alloc: Global,
    engine: &Engine<Open>,
    pass: &mut EnginePass,
    who: &Who,
    room: &Text,
    number: u64,
) -> Result<EventId, Unmeasured>
    requires ties { Ties engine.now pass.old }
    ensures ties { Ties engine.now pass.new }
{
    let ask = send_ask(alloc, room, number)?;
    match ask_engine(rt, alloc, engine, pass, who, ask) {
        Told::Sent(event) => Ok(event),
        _ => Err(Unmeasured::Other),
    }
}

/// What the send of a message in a transaction of this number asks.
fn send_ask(alloc: Global, room: &Text, number: u64) -> Result<Ask, Unmeasured>
    ensures { IfOk result IsAsk }
{
    Ok(Ask::Send {
        room: room.copy(alloc)?,
        kind: text(alloc, "m.room.message")?,
        txn: txn(alloc, room, number)?,
        content: read(alloc, b"{\"body\":\"hi\",\"msgtype\":\"m.text\"}")?,
    })
}

/// A transaction of this number that sends a message to the room.
fn txn(alloc: Global, room: &Text, number: u64) -> Result<Txn, Memory>
    ensures { IfOk result (λ t. slice_get t.path 0 ≡ Some room.now) }
{
    let path = path(alloc, room)?;
    let id = format!(in alloc; "t{number}")?;
    Ok(Txn {
        device: 0,
        id: Text::from_string(id),
        path,
    })
}

/// The path of a message to the room.
fn path(alloc: Global, room: &Text) -> Result<Seq<Text>, Memory>
    ensures { IfOk result (λ parts. slice_get parts 0 ≡ Some room.now) }
{
    let parts = [
        room.copy(alloc)?,
        text(alloc, "send")?,
        text(alloc, "m.room.message")?,
    ];
    Ok(Seq::from_vec(Vec::from_array(alloc, parts)?))
}
