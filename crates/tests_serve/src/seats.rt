//! Three connections on two seats of a pool.
use crate::at_once::{Turn, pair, served_on};
use crate::meeting::{Meeting, TurnSink, TurnSource};
use mx_ids::Memory;
use mx_outside::MemListener;
use mx_pool::Served;
use std::alloc::Global;
use std::sync::Arc;
use std::test::Fail;

/// Alice makes a room, and keeps her seat until the two others were answered.
const ALICE: [Turn; 2] = [
    (
        0,
        r#"POST /createRoom tok_a1 {"preset":"public_chat"}
200 {"room_id":"!0-1:example.org"}
"#,
    ),
    (
        3,
        r#"GET /sync?since=s7_0_0_0_7 tok_a1
200 {"account_data":{"events":[]},"next_batch":"s8_0_0_0_7","rooms":{"invite":{},"join":{"!0-1:example.org":{"account_data":{"events":[]},"ephemeral":{"events":[]},"state":{"events":[]},"summary":{"m.heroes":["@bob:example.org","@carol:example.org"],"m.invited_member_count":0,"m.joined_member_count":3},"timeline":{"events":[{"content":{"membership":"join"},"event_id":"$8:example.org","origin_server_ts":1000,"sender":"@carol:example.org","state_key":"@carol:example.org","type":"m.room.member"}],"limited":false,"prev_batch":"p7_8"},"unread_notifications":{"highlight_count":0,"notification_count":0}}},"leave":{}}}
"#,
    ),
];

/// Bob joins once the room is there, and gives his seat back.
const BOB: [Turn; 1] = [(
    1,
    r#"POST /join/!0-1:example.org tok_b1 {}
200 {"room_id":"!0-1:example.org"}
"#,
)];

/// Carol comes third, and joins on the seat that Bob gave back.
const CAROL: [Turn; 1] = [(
    2,
    r#"POST /join/!0-1:example.org tok_c1 {}
200 {"room_id":"!0-1:example.org"}
"#,
)];

/// The three connections, in this order.
fn three(
    alloc: Global,
    meeting: &Arc<Meeting>,
) -> Result<MemListener<TurnSource, TurnSink>, Memory> {
    let pairs = Vec::from_array(
        alloc,
        [
            pair(alloc, meeting, ALICE.as_slice())?,
            pair(alloc, meeting, BOB.as_slice())?,
            pair(alloc, meeting, CAROL.as_slice())?,
        ],
    )?;
    Ok(MemListener::new(pairs, Vec::new(alloc)))
}

/// With one seat Alice waits in vain for the others, and where a seat isn't given back, or nobody is woken then, the test doesn't end.
#[test]
fn who_comes_third_has_the_seat_that_is_given_back(rt: HostRuntime) -> Result<(), Fail> {
    let alloc = rt.alloc();
    let meeting = Arc::new(alloc, Meeting::new())?;
    let mut listener = three(alloc, &meeting)?;
    let served = served_on(&rt, alloc, &meeting, &mut listener);
    drop(listener);
    let counts = meeting.counts();
    drop(meeting);
    assert_eq!(rt; served?, Served::Closed);
    assert_eq!(rt; counts, (4, 0));
    Ok(())
}
