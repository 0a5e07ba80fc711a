//! The texts of stores.

ghost use Rattle.std.specs.Prelude.{◌≡◌, ℕ, List, IfOk};

use mx_ids::{Seq, Text};
use mx_records::{RecordFault, Recorded, put_front, stream_text};
use mx_wait::StreamName;
use std::alloc::Global;

/// The texts of a stream's stores. A store's text ends with its first position in decimal and a `]`.
pub trait Texts<I> {
    // The text of a writer's store of these items, as far as its first position.
    ghost front: { Self → ℕ → List I → List ℕ };

    /// The text as far as the first position.
    fn front(&self, alloc: Global, writer: u8, items: &Seq<I>) -> Result<Text, RecordFault>
        ensures { IfOk result (λ text. text ≡ front self.now writer items.now) };
}

/// The texts of a stream whose items have values, each beginning with the stream's name.
#[derive(Clone, Copy, Debug, Drop, PartialEq, Eq)]
pub struct StreamTexts {
    pub stream: StreamName,
}

impl<I: Recorded> Texts<I> for StreamTexts {
    ghost use Rattle.mx_records.specs.Texts.{front_text, stream_text};

    ghost front = { λ t writer items. front_text I.value (stream_text t.stream) writer items };

    fn front(&self, alloc: Global, writer: u8, items: &Seq<I>) -> Result<Text, RecordFault> {
        let mut text = Text::new(alloc);
        put_front(alloc, &mut text, stream_text(self.stream), writer, items)?;
        Ok(text)
    }
}
