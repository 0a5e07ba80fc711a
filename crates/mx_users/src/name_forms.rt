//! The forms of a server's name, and of localparts, device ids and access tokens.
ghost use Rattle.std.specs.Prelude.{◌≡◌};
ghost use Rattle.std.specs.Char.{is_ascii_digit};
ghost use Rattle.std.specs.List.{list_all};
ghost use Rattle.mx_ids.specs.Name as forms;

use crate::cuts::cut;

/// Whether a text is a server's name (Appendices, Server Name): 1 to 230 bytes of `a-z`, `0-9`,
/// `.` and `-`, then optionally `:` and 1 to 5 digits.
pub(crate) fn is_server_name(text: &str) -> bool
    ensures { result ≡ forms.is_server_name text.now }
{
    let (host, port) = cut(text, ':');
    is_host(text) || (is_host(host) && is_port(port))
}

fn is_host(text: &str) -> bool
    ensures { result ≡ forms.is_host text.now }
{
    1 <= text.len() && text.len() <= 230 && all_host_bytes(text.as_bytes())
}

fn all_host_bytes(bytes: &[u8]) -> bool
    ensures { result ≡ list_all forms.is_host_byte bytes.now }
{
    bytes.iter().all(|byte| {
        byte.is_ascii_lowercase() || byte.is_ascii_digit() || *byte == b'.' || *byte == b'-'
    })
}

fn is_port(text: &str) -> bool
    ensures { result ≡ forms.is_port text.now }
{
    1 <= text.len() && text.len() <= 5 && all_digits(text.as_bytes())
}

fn all_digits(bytes: &[u8]) -> bool
    ensures { result ≡ list_all is_ascii_digit bytes.now }
{
    bytes.iter().all(|byte| byte.is_ascii_digit())
}

/// Whether a text can be the localpart of a user that the users file names
/// (Appendices, User Identifiers): 1 or more of `a-z`, `0-9`, `.`, `_`, `=`, `-`, `/` and `+`.
pub(crate) fn is_localpart(text: &str) -> bool
    ensures { result ≡ forms.is_localpart text.now }
{
    1 <= text.len() && all_localpart_bytes(text.as_bytes())
}

fn all_localpart_bytes(bytes: &[u8]) -> bool
    ensures { result ≡ list_all forms.is_localpart_byte bytes.now }
{
    bytes.iter().all(|byte| is_localpart_byte(*byte))
}

fn is_localpart_byte(byte: u8) -> bool
    ensures { result ≡ forms.is_localpart_byte byte }
{
    byte.is_ascii_lowercase()
        || byte.is_ascii_digit()
        || matches!(byte, b'.' | b'_' | b'=' | b'-' | b'/' | b'+')
}

/// Whether a text is a device id: 1 to 64 letters, digits, `_` and `-`.
pub(crate) fn is_device_name(text: &str) -> bool
    ensures { result ≡ forms.is_device_name text.now }
{
    1 <= text.len() && text.len() <= 64 && all_device_bytes(text.as_bytes())
}

fn all_device_bytes(bytes: &[u8]) -> bool
    ensures { result ≡ list_all forms.is_device_byte bytes.now }
{
    bytes.iter().all(|byte| is_device_byte(*byte))
}

fn is_device_byte(byte: u8) -> bool
    ensures { result ≡ forms.is_device_byte byte }
{
    byte.is_ascii_alphanumeric() || byte == b'_' || byte == b'-'
}

/// Whether a text is an access token: 1 to 255 letters, digits, `_`, `-`, `.` and `~`.
pub(crate) fn is_access_token(text: &str) -> bool
    ensures { result ≡ forms.is_access_token text.now }
{
    1 <= text.len() && text.len() <= 255 && all_token_bytes(text.as_bytes())
}

fn all_token_bytes(bytes: &[u8]) -> bool
    ensures { result ≡ list_all forms.is_token_byte bytes.now }
{
    bytes.iter().all(|byte| is_device_byte(*byte) || *byte == b'.' || *byte == b'~')
}
