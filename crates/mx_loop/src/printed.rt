//! The bytes of an answer, in memory.
ghost use Rattle.std.specs.Prelude.{◌≡◌, ◌≤◌, [], IfOk, Some};
ghost use Rattle.mx_http.specs.Answers.{body_text, response_bytes};
ghost use Rattle.mx_outside.specs.Causes.{Rose};
ghost use Rattle.mx_outside.specs.Moves.{Adds};
ghost use Rattle.mx_loop.specs.Printing.{KeepsRefusal};
ghost use Rattle.mx_render.specs.Rendered.{no_memory_text};

use mx_http::{Answer, Body, write_answer};
use mx_ids::Memory;
use mx_outside::{Put, Sink};
use std::alloc::Global;

/// Bytes in memory as a sink. Its faults are refusals of memory, of which the last is kept.
#[derive(Drop)]
struct Paper {
    bytes: Vec<u8>,
    faults: u64,
    refused: Option<Memory>,
    ghost kept: { KeepsRefusal faults refused },
}

impl Sink for Paper {
    ghost written = { λ s. Some s.bytes.items };

    ghost faults = { λ s. s.faults };

    fn put(&mut self, bytes: &[u8]) -> Put
        ensures bytes { Adds (Some self.old.bytes.items) (Some self.new.bytes.items) result bytes.now }
        ensures count { self.old.faults ≤ self.new.faults }
        ensures cause { result ≡ Put.Failed → Rose self.old.faults self.new.faults }
    {
        match self.bytes.extend_from_slice(bytes) {
            Ok(()) => Put::Done,
            Err(refused) => {
                self.refused = Some(refused.into());
                self.faults = self.faults.saturating_add(1);
                Put::Failed
            }
        }
    }

    /// Memory doesn't go away.
    fn is_gone(&mut self) -> bool {
        false
    }
}

/// The bytes of an answer, in memory.
pub(crate) fn printed(
    alloc: Global,
    answer: &Answer,
    head_only: bool,
    close: bool,
) -> Result<Vec<u8>, Memory>
    ensures { IfOk result (λ bytes. bytes.items ≡ response_bytes answer.now.status (body_text answer.now.body) head_only close) }
{
    let mut paper = Paper {
        bytes: Vec::new(alloc),
        faults: 0,
        refused: None,
    };
    let wrote = write_answer(&mut paper, answer, head_only, close);
    let Paper {
        bytes,
        faults: _,
        refused,
    } = paper;
    match (wrote, refused) {
        (Ok(()), _) => Ok(bytes),
        (Err(_), Some(refused)) => Err(refused),
        (Err(_), None) => unreachable!(),
    }
}

/// The bytes of the answer for want of memory.
pub(crate) fn spare_bytes(alloc: Global, head_only: bool, close: bool) -> Result<Vec<u8>, Memory>
    ensures { IfOk result (λ bytes. bytes.items ≡ response_bytes 503 no_memory_text head_only close) }
{
    let answer = spare_answer();
    let bytes = printed(alloc, &answer, head_only, close);
    drop(answer);
    bytes
}

/// The answer for want of memory.
fn spare_answer() -> Answer
    ensures status { result.status ≡ 503 }
    ensures body { body_text result.body ≡ no_memory_text }
{
    Answer {
        status: 503,
        body: Body::Fixed(b"{\"errcode\":\"ORG_MXSYNC_NO_MEMORY\",\"error\":\"no memory\"}"),
    }
}
