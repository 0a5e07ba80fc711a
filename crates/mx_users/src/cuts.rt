//! Texts and bytes, cut at a mark.
ghost use Rattle.std.specs.Prelude.{◌≡◌, ◌==◌, ◌<◌, IfSome, length, position};
ghost use Rattle.std.specs.List.{before_first, after_first};

/// What stands before the first `at` and what stands behind it. Where there is none, this is the
/// whole text and an empty one.
pub(crate) fn cut(text: &str, at: char) -> (&str, &str)
    requires { at < 128 }
    ensures before { result.0.now ≡ before_first (λ c. c == at) text.now }
    ensures after { result.1.now ≡ after_first (λ c. c == at) text.now }
{
    match text.split_once(at) {
        Some((before, after)) => (before, after),
        None => (text, ""),
    }
}

/// The first line, and the lines behind it.
pub(crate) fn cut_line(bytes: &[u8]) -> (&[u8], &[u8])
    ensures before { result.0.now ≡ before_first (λ c. c == 10) bytes.now }
    ensures after { result.1.now ≡ after_first (λ c. c == 10) bytes.now }
{
    match line_end(bytes) {
        Some(at) => (&bytes[..at], &bytes[at + 1..]),
        None => (bytes, &[]),
    }
}

/// Where the first line ends, if LF ends it.
fn line_end(bytes: &[u8]) -> Option<usize>
    ensures is { result ≡ position (λ c. c == 10) bytes.now }
    ensures within { IfSome result (λ at. at < length bytes.now) }
{
    bytes.iter().position(|byte| *byte == b'\n')
}
