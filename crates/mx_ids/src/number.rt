ghost use Rattle.std.specs.Prelude.{◌≡◌, ◌^◌, ◌-◌, Option, None, ℕ, List};
ghost use Rattle.mx_ids.specs.Decimal.{digits_behind, number_at};
ghost use Rattle.mx_ids.specs.Mark.{marked_at, found_at};

/// The numbers of tokens and the positions of ids are below this.
pub const LIMIT: u64 = 1 << 48;

/// The number that the digits at the front of `bytes` spell, and the bytes that follow them.
/// A number that no `u64` holds is read as `u64::MAX`.
fn read_digits(bytes: &[u8]) -> (u64, &[u8])
    ensures { (result.0, result.1.now) ≡ digits_behind (2 ^ 64 - 1) 0 bytes.now }
{
    let mut number: u64 = 0;
    let mut rest = bytes;
    while let [digit @ b'0'..=b'9', after @ ..] = rest {
        number = number
            .saturating_mul(10)
            .saturating_add(u64::from(*digit - b'0'));
        rest = after;
    }
    (number, rest)
}

/// The number without leading zeros at the front of `bytes`, and the bytes that follow it.
fn read_number(bytes: &[u8]) -> Option<(u64, &[u8])>
    ensures { found_at result ≡ number_at (2 ^ 64 - 1) bytes.now }
{
    match bytes {
        [b'0', rest @ ..] => Some((0, rest)),
        [b'1'..=b'9', ..] => Some(read_digits(bytes)),
        _ => None,
    }
}

/// The number behind the byte `mark` at the front of `bytes`, and the bytes that follow it.
/// A number that no `u64` holds is read as `u64::MAX`.
#[tactic(auto, unfolding(crate::specs::Mark::marked_at))]
pub fn read_marked(mark: u8, bytes: &[u8]) -> Option<(u64, &[u8])>
    ensures { found_at result ≡ marked_at (2 ^ 64 - 1) mark bytes.now }
{
    match bytes {
        [first, rest @ ..] if *first == mark => read_number(rest),
        _ => None,
    }
}
