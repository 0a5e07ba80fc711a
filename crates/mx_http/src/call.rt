use mx_ids::{Seq, Text};

/// A request, as its head and its body say it.
#[derive(Drop)]
pub struct Call {
    /// The method, as it stands.
    pub method: Text,
    /// The target, as it stands: a path, and a query after the first `?`.
    pub target: Text,
    /// What follows `Bearer ` in the first `Authorization` field; none where that field doesn't
    /// begin so, or isn't there (Client-Server API, Using access tokens).
    pub bearer: Option<Text>,
    /// The body, of at most 1,048,576 bytes.
    pub body: Seq<u8>,
    /// Whether the connection is to end after the answer.
    pub close: bool,
}
