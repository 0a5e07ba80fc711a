//! How a count stands to a number in a text.
ghost use Rattle.std.specs.Prelude.{◌≡◌, ◌+◌, ◌-◌, ◌*◌, ◌≤◌, ◌^◌, MatchOption, nat_eq, nat_le, nat_lt};
ghost use Rattle.std.specs.List.{list_all};
ghost use Rattle.std.specs.Char.{is_ascii_digit};
ghost use Rattle.mx_rules.specs.Forms.{is_numeral};
ghost use Rattle.mx_push.specs.Conditions.{is_count, number_of, stands_to};
ghost use Rattle.mx_push.specs.Counts.{is_met, test_of};

/// How a count is to stand to a number.
#[derive(Clone, Copy, Debug, PartialEq, Eq)]
enum Bound {
    Equal,
    Below,
    Above,
    AtMost,
    AtLeast,
}

/// Whether a count stands to a number as the text says: `<`, `>`, `<=`, `>=`, `==` or nothing before its digits.
pub(crate) fn is_count(bound: &[u8], count: u64) -> bool
    ensures { result ≡ is_count bound.now count }
{
    match bound {
        [b'<', b'=', digits @ ..] => stands_to(Bound::AtMost, digits, count),
        [b'<', digits @ ..] => stands_to(Bound::Below, digits, count),
        [b'>', b'=', digits @ ..] => stands_to(Bound::AtLeast, digits, count),
        [b'>', digits @ ..] => stands_to(Bound::Above, digits, count),
        [b'=', b'=', digits @ ..] => stands_to(Bound::Equal, digits, count),
        digits => stands_to(Bound::Equal, digits, count),
    }
}

#[tactic(auto, using(crate::proofs::Numbers::met))]
fn stands_to(bound: Bound, digits: &[u8], count: u64) -> bool
    ensures { result ≡ stands_to (test_of bound) digits.now count }
{
    is_numeral(digits) && bound.is_met(count, number_of(digits))
}

impl Bound {
    /// Whether a count stands so to a number, or to one that no `u64` holds.
    fn is_met(self, count: u64, number: Option<u64>) -> bool
        ensures { result ≡ is_met self count number }
    {
        match number {
            Some(number) => match self {
                Bound::Equal => count == number,
                Bound::Below => count < number,
                Bound::Above => count > number,
                Bound::AtMost => count <= number,
                Bound::AtLeast => count >= number,
            },
            None => self == Bound::Below || self == Bound::AtMost,
        }
    }
}

/// The number of digits, or `None` where no `u64` holds it.
#[tactic(auto, using(crate::proofs::Numbers::too_large))]
fn number_of(digits: &[u8]) -> Option<u64>
    ensures { MatchOption result (2 ^ 64 ≤ number_of digits.now) (λ n. n ≡ number_of digits.now) }
{
    let mut number: u64 = 0;
    let mut rest = digits;
    'digits: while let [digit, after @ ..] = rest {
        match with_digit(number, *digit) {
            Some(longer) => number = longer,
            None => return None,
        }
        rest = after;
    }
    Some(number)
}

/// The number that a further digit makes, or `None` where no `u64` holds it.
fn with_digit(number: u64, digit: u8) -> Option<u64>
    ensures { MatchOption result (2 ^ 64 ≤ number * 10 + (digit - 48)) (λ n. n ≡ number * 10 + (digit - 48)) }
{
    let tenfold = number.checked_mul(10)?;
    tenfold.checked_add(u64::from(digit.saturating_sub(b'0')))
}

/// Whether bytes are digits with no leading zero.
fn is_numeral(bytes: &[u8]) -> bool
    ensures { result ≡ is_numeral bytes.now }
{
    match bytes {
        [] => false,
        [first, rest @ ..] => {
            first.is_ascii_digit() && (*first != b'0' || rest.is_empty()) && all_digits(rest)
        }
    }
}

fn all_digits(bytes: &[u8]) -> bool
    ensures { result ≡ list_all is_ascii_digit bytes.now }
{
    bytes.iter().all(|byte| byte.is_ascii_digit())
}
