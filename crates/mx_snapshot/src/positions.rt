//! Positions in rising order.

ghost use Rattle.std.specs.Prelude.{◌*◌, ◌+◌, ◌-◌, ◌^◌, ◌≡◌, ◌≤◌, ◌&&◌, ℕ, length, take, drop, filter, nat_le, nat_lt};
ghost use Rattle.std.specs.List.Sorted.{IsNonDecreasingBy};
ghost use Rattle.mx_snapshot.specs.Lists.{always, itself};
ghost use Rattle.mx_window.specs.Lasts.{last, last_of};
ghost use Rattle.mx_snapshot.specs.Looks.{last_position};
ghost use Rattle.mx_snapshot.specs.Halving.{IsBetween, search_cost};

use crate::steps::Steps;

/// How many of some rising positions are at most a position. Looks back from the end in strides that double, and then by halves
/// in the last stride: compares at most two positions for each binary digit of the number of those that lie later, and one more.
pub(crate) fn count_to(positions: &[u64], last: u64, steps: &mut Steps) -> usize
    requires { IsNonDecreasingBy itself positions.now }
    ensures bound { result ≤ length positions.now }
    ensures front { take result positions.now ≡ filter (λ p. nat_le p last) positions.now }
    ensures back { drop result positions.now ≡ filter (λ p. nat_lt last p) positions.now }
    ensures more { steps.old ≤ steps.new }
    ensures cost { 2 ^ (steps.new - steps.old) ≤ search_cost (length positions.now - result) }
{
    let (from, end) = last_stride(positions, last, steps);
    halve(positions, last, from, end, steps)
}

/// Two ends between which the count lies of those that are at most a position, found from the end back in strides that double.
fn last_stride(positions: &[u64], last: u64, steps: &mut Steps) -> (usize, usize)
    requires { IsNonDecreasingBy itself positions.now }
    ensures between { IsBetween positions.now last result.0 result.1 }
    ensures near { result.1 - result.0 ≤ length positions.now - result.1 }
    ensures more { steps.old ≤ steps.new }
    ensures cost { 2 ^ (steps.new - steps.old) ≤ 2 * (length positions.now - result.1) + 2 }
{
    let count = positions.len();
    let mut high = count;
    'strides: while high > 0 {
        let at = high.saturating_sub(count - high + 1);
        if steps.is_upto(positions[at], last) {
            return (at + 1, high);
        }
        high = at;
    }
    (0, 0)
}

/// The count of those that are at most a position, which lies between two ends. Compares one position for each binary digit of
/// the number between them.
fn halve(positions: &[u64], last: u64, from: usize, end: usize, steps: &mut Steps) -> usize
    requires sorted { IsNonDecreasingBy itself positions.now }
    requires between { IsBetween positions.now last from end }
    ensures found { IsBetween positions.now last result result }
    ensures within { result ≤ end }
    ensures more { steps.old ≤ steps.new }
    ensures cost { 2 ^ (steps.new - steps.old) ≤ 2 * (end - from) + 1 }
{
    let mut low = from;
    let mut high = end;
    'halves: while low < high {
        let middle = low + (high - low) / 2;
        if steps.is_upto(positions[middle], last) {
            low = middle + 1;
        } else {
            high = middle;
        }
    }
    low
}

/// Those of some rising positions that lie after `low` and up to `high`. Logarithmic in their number.
pub(crate) fn within(positions: &[u64], low: u64, high: u64) -> &[u64]
    requires { IsNonDecreasingBy itself positions.now }
    ensures { result.now ≡ filter (λ p. nat_le p high) (filter (λ p. nat_lt low p) positions.now) }
{
    let mut steps = Steps::new();
    let from = count_to(positions, low, &mut steps);
    let rest = &positions[from..];
    let count = count_to(rest, high, &mut steps);
    &rest[..count]
}

/// The last of some rising positions that is at most a position. Compares as many of them as `count_to`.
pub(crate) fn last_to(positions: &[u64], last: u64, steps: &mut Steps) -> Option<u64>
    requires { IsNonDecreasingBy itself positions.now }
    ensures found { result ≡ last_of (λ p. nat_le p last) positions.now }
    ensures more { steps.old ≤ steps.new }
    ensures cost { 2 ^ (steps.new - steps.old) ≤ search_cost (length (filter (λ p. nat_lt last p) positions.now)) }
{
    let count = count_to(positions, last, steps);
    if count == 0 {
        None
    } else {
        Some(positions[count - 1])
    }
}

/// The last of some rising positions up to `high`, at most `most` of them. Logarithmic in their number.
pub(crate) fn ending(positions: &[u64], high: u64, most: u64) -> &[u64]
    requires { IsNonDecreasingBy itself positions.now }
    ensures { result.now ≡ last most (filter (λ p. nat_le p high) positions.now) }
{
    let mut steps = Steps::new();
    let count = count_to(positions, high, &mut steps);
    let front = &positions[..count];
    let from = front.len().saturating_sub(most as usize);
    &front[from..]
}

/// The last of some positions, or 0 where there are none.
pub(crate) fn last_one(positions: &[u64]) -> u64
    ensures { result ≡ last_position itself always positions.now }
{
    let count = positions.len();
    if count == 0 { 0 } else { positions[count - 1] }
}

/// The last of some positions, where there are any.
pub(crate) fn top(positions: &[u64]) -> Option<u64>
    ensures { result ≡ last_of always positions.now }
{
    let count = positions.len();
    if count == 0 {
        None
    } else {
        Some(positions[count - 1])
    }
}
