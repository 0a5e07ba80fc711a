//! Requests that are made of what has come from a port.
ghost use Rattle.std.specs.Prelude.{◌<◌};

use mx_http::{Call, Head, HttpFault, Intake, Scratch};
use mx_outside::{MemPort, TookNow};
use std::alloc::Global;
use std::process::Abort;

const TWO: &[u8] =
    b"PUT /a HTTP/1.1\r\nContent-Length: 7\r\n\r\n{\"n\":1}GET /b HTTP/1.1\r\n\r\n\r\n";

/// What a connection holds, and the head of the request whose body is to come.
#[derive(Drop)]
struct Held {
    intake: Intake,
    scratch: Scratch,
    head: Option<Head>,
}

fn nothing_held(alloc: Global) -> Result<Held, HttpFault> {
    Ok(Held {
        intake: Intake::new(alloc)?,
        scratch: Scratch::new(alloc)?,
        head: None,
    })
}

/// The next request of a port that isn't ready at times; none where it has ended. A head is taken apart once.
fn next(alloc: Global, held: &mut Held, port: &mut MemPort) -> Result<Option<Call>, HttpFault> {
    for _ in 0..1000u32 {
        match held.head.take() {
            None => match held.intake.find_head(alloc, &mut held.scratch)? {
                Some(head) => held.head = Some(head),
                None => {
                    if let TookNow::End = held.intake.take_now(port)? {
                        return Ok(None);
                    }
                }
            },
            Some(head) => match held.intake.take_body(alloc, &head)? {
                Some(body) => return Ok(Some(head.with_body(body))),
                None => {
                    let _ = held.intake.take_now(port)?;
                    held.head = Some(head);
                }
            },
        }
    }
    Ok(None)
}

/// Asserts that two requests come from a port that gives so many bytes at a time and isn't ready at times, and that line ends are left.
fn expect_two(rt: &impl Abort, alloc: Global, piece: usize)
    requires { 0 < piece }
{
    let bytes = Vec::from_slice(alloc, TWO).expect(rt, "memory");
    let busy = Vec::from_slice(alloc, &[0u64, 3, 4]).expect(rt, "memory");
    let mut port = MemPort::new(alloc, bytes, piece, busy, Vec::new(alloc));
    let mut held = nothing_held(alloc).expect(rt, "memory");
    for wanted in [["PUT", "/a", "{\"n\":1}"], ["GET", "/b", ""]] {
        let next = next(alloc, &mut held, &mut port).expect(rt, "no fault");
        let call = next.expect(rt, "a request");
        let [method, target, body] = wanted;
        assert_eq!(rt; call.method.as_str(), method);
        assert_eq!(rt; call.target.as_str(), target);
        assert_eq!(rt; call.body.as_slice(), body.as_bytes());
    }
    let last = next(alloc, &mut held, &mut port).expect(rt, "no fault");
    assert!(rt; last.is_none() && held.intake.is_blank());
}

#[test]
fn the_same_requests_come_in_any_pieces_from_a_port(rt: HostRuntime) {
    for piece in [1usize, 7, 4096] {
        expect_two(&rt, rt.alloc(), piece);
    }
}
