use mx_ids::Memory;
use thiserror::Error;

/// Why a text is not read. Where several causes hold, the one that stands first here is given.
#[derive(Debug, PartialEq, Eq, Drop, Error)]
pub enum JsonFault {
    /// The bytes aren't UTF-8 or no JSON text (RFC 8259), or nest more than 127 deep.
    #[error("not JSON")]
    NotJson,
    /// A number isn't held as a whole number: it has a point or an exponent, is `-0`, or is out of 64 bits.
    #[error("bad JSON: fraction")]
    Fraction,
    /// A whole number lies outside plus or minus 9,007,199,254,740,991 (Appendices, Canonical JSON).
    #[error("bad JSON: integer out of range")]
    IntegerRange,
    /// Want of memory.
    #[error("out of memory")]
    Memory(Memory),
}

impl From<Memory> for JsonFault {
    ghost use Rattle.std.specs.Prelude.{◌≡◌};
    ghost use Rattle.mx_json.specs.declared.fault.JsonFault.TheVariants as faults;

    ghost from_gives = { λ m e. e ≡ faults.Memory m };

    fn from(refused: Memory) -> JsonFault {
        JsonFault::Memory(refused)
    }
}
