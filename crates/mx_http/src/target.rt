//! Whether bytes end inside the target of a request: the head parser judges a target only at its end.
ghost use Rattle.std.specs.Prelude.{◌≡◌, ◌↔◌, ◌==◌, ◌||◌, false, IsTrue};
ghost use Rattle.std.specs.List.{list_all};
ghost use Rattle.httparse.specs.Grammar.{EndsInTarget, is_token_byte, is_uri_byte};
ghost use Rattle.mx_http.specs.Calls.{AreLineEnds};
ghost use Rattle.mx_http.specs.Target.{behind_lines, behind_token, ends_in_target};

/// Whether the bytes end inside the target of a request.
#[tactic(auto, using(crate::proofs::Targets::test_decides))]
pub fn ends_in_target(bytes: &[u8]) -> bool
    ensures { IsTrue result ↔ EndsInTarget bytes.now }
{
    is_inside_target(bytes)
}

fn is_inside_target(bytes: &[u8]) -> bool
    ensures { result ≡ ends_in_target bytes.now }
{
    let line = skip_line_ends(bytes);
    let after = skip_token(line);
    match after {
        [b' ', target @ ..] => after.len() < line.len() && are_target_bytes(target),
        _ => false,
    }
}

/// The bytes from the first that is no part of an empty line.
fn skip_line_ends(bytes: &[u8]) -> &[u8]
    ensures { result.now ≡ behind_lines false bytes.now }
{
    let mut rest = bytes;
    while let [b'\n', after @ ..] | [b'\r', b'\n', after @ ..] = rest {
        rest = after;
    }
    rest
}

/// The bytes from the first that is no part of a token.
fn skip_token(bytes: &[u8]) -> &[u8]
    ensures { result.now ≡ behind_token bytes.now }
{
    let mut rest = bytes;
    while let [byte, after @ ..] = rest
        && is_token_byte(*byte)
    {
        rest = after;
    }
    rest
}

fn are_target_bytes(bytes: &[u8]) -> bool
    ensures { result ≡ list_all is_uri_byte bytes.now }
{
    bytes.iter().all(|byte| *byte > b' ' && *byte != 0x7f)
}

/// Whether a byte may stand in a token (RFC 9110, section 5.6.2).
#[tactic(auto, unfolding(httparse::specs::Grammar::is_token_byte))]
fn is_token_byte(byte: u8) -> bool
    ensures { result ≡ is_token_byte byte }
{
    byte.is_ascii_alphanumeric() || b"!#$%&'*+-.^_`|~".contains(&byte)
}

/// Whether each byte is CR or LF.
#[tactic(auto, using(crate::proofs::Targets::line_ends_decide))]
pub fn are_line_ends(bytes: &[u8]) -> bool
    ensures { IsTrue result ↔ AreLineEnds bytes.now }
{
    pass_line_ends(bytes)
}

fn pass_line_ends(bytes: &[u8]) -> bool
    ensures { result ≡ list_all (λ b. b == 13 || b == 10) bytes.now }
{
    bytes.iter().all(|byte| *byte == b'\r' || *byte == b'\n')
}
