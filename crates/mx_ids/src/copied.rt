ghost use Rattle.std.specs.Prelude.{◌≡◌, IfOk};

use crate::event_id::EventId;
use crate::memory::Memory;
use crate::page_token::PageToken;
use crate::room_id::RoomId;
use crate::seq::Seq;
use crate::sync_token::SyncToken;
use crate::text::Text;
use std::alloc::Global;

/// A value of which an equal one can be made. What a stream or a reply holds is of such a type.
pub trait Copied: Sized + Drop {
    /// An equal value. `Memory` where an allocation that its texts and lists need is refused.
    fn copy(&self, alloc: Global) -> Result<Self, Memory>
        ensures { IfOk result (λ c. c ≡ self.now) };
}

impl Copied for () {
    fn copy(&self, _alloc: Global) -> Result<(), Memory> {
        Ok(())
    }
}

impl Copied for bool {
    fn copy(&self, _alloc: Global) -> Result<bool, Memory> {
        Ok(*self)
    }
}

impl Copied for u8 {
    fn copy(&self, _alloc: Global) -> Result<u8, Memory> {
        Ok(*self)
    }
}

impl Copied for u16 {
    fn copy(&self, _alloc: Global) -> Result<u16, Memory> {
        Ok(*self)
    }
}

impl Copied for u32 {
    fn copy(&self, _alloc: Global) -> Result<u32, Memory> {
        Ok(*self)
    }
}

impl Copied for u64 {
    fn copy(&self, _alloc: Global) -> Result<u64, Memory> {
        Ok(*self)
    }
}

impl Copied for i64 {
    fn copy(&self, _alloc: Global) -> Result<i64, Memory> {
        Ok(*self)
    }
}

impl Copied for SyncToken {
    fn copy(&self, _alloc: Global) -> Result<SyncToken, Memory> {
        Ok(*self)
    }
}

impl Copied for PageToken {
    fn copy(&self, _alloc: Global) -> Result<PageToken, Memory> {
        Ok(*self)
    }
}

impl Copied for RoomId {
    fn copy(&self, _alloc: Global) -> Result<RoomId, Memory> {
        Ok(*self)
    }
}

impl Copied for EventId {
    fn copy(&self, _alloc: Global) -> Result<EventId, Memory> {
        Ok(*self)
    }
}

impl Copied for Text {
    fn copy(&self, alloc: Global) -> Result<Text, Memory> {
        let text = String::from_str(alloc, self.as_str())?;
        Ok(Text::from_string(text))
    }
}

impl<T: Copied> Copied for Option<T> {
    fn copy(&self, alloc: Global) -> Result<Option<T>, Memory> {
        match self {
            None => Ok(None),
            Some(value) => Ok(Some(value.copy(alloc)?)),
        }
    }
}

impl<T: Copied> Copied for Seq<T> {
    /// Takes the room for the whole list in one allocation.
    fn copy(&self, alloc: Global) -> Result<Seq<T>, Memory> {
        let mut copies = Vec::with_capacity(alloc, self.len())?;
        for item in self.as_slice() {
            copies.push(item.copy(alloc)?)?;
        }
        Ok(Seq::from_vec(copies))
    }
}
