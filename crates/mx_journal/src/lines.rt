//! Lines of a journal, as they are made and as they are found at the start.

ghost use Rattle.std.specs.Prelude.{◌≡◌, ◌∷◌, [], ◌++◌, ℕ, List, true, OnOk, IsErrOf, MatchOption};
ghost use Rattle.mx_lines.specs.Lines.{IsOpen, ends, file_of};
ghost use Rattle.mx_journal.specs.Kept.{AreLines, IsFound};

use mx_ids::Memory;
use mx_lines::{First, first_line, put_line};

/// Why a line isn't made.
#[derive(Clone, Copy, Debug, PartialEq, Eq)]
pub enum LineFault {
    /// The text has the end of a line in it.
    End,
    /// An allocation was refused.
    Memory(Memory),
}

impl From<Memory> for LineFault {
    ghost use Rattle.std.specs.Prelude.{◌≡◌};
    ghost use Rattle.mx_journal.specs.declared.lines.LineFault.TheVariants as faults;

    ghost from_gives = { λ m e. e ≡ faults.Memory m };

    fn from(refused: Memory) -> LineFault {
        LineFault::Memory(refused)
    }
}

/// Puts the line of a text behind other lines. At `End` these stay as they were.
pub fn add_line(lines: &mut Vec<u8>, text: &[u8]) -> Result<(), LineFault>
    ensures same { IsErrOf result LineFault.End → lines.new ≡ lines.old }
    ensures added { (texts : List (List ℕ)) → AreLines lines.old.items texts → OnOk result (AreLines lines.new.items (texts ++ text.now ∷ [])) }
{
    if has_end(text) {
        return Err(LineFault::End);
    }
    Ok(put_line(lines, text)?)
}

/// Whether a line ends among bytes.
fn has_end(bytes: &[u8]) -> bool
    ensures { result ≡ ends bytes.now }
{
    let mut rest = bytes;
    'bytes: while let [first, behind @ ..] = rest {
        if *first == b'\n' {
            return true;
        }
        rest = behind;
    }
    false
}

/// How many bytes the whole lines of a file have, where what stands behind them is no line's end; else the number of the
/// first line that is none, from 1. Takes no memory.
pub fn whole_lines(bytes: &[u8]) -> Result<usize, u64>
    ensures { IsFound bytes.now result }
{
    let mut rest = bytes;
    let mut number = 1u64;
    'lines: loop {
        match first_line(rest) {
            First::Line(_, behind) => {
                rest = behind;
                number += 1;
            }
            First::Open => return Ok(bytes.len() - rest.len()),
            First::Wrong => return Err(number),
        }
    }
}
