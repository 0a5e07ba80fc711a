use mx_ids::Memory;

/// Why no request could be read. After it the reader isn't used again.
#[derive(Clone, Copy, Debug, PartialEq, Eq)]
pub enum HttpFault {
    /// No head stands at the front of the bytes, whatever follows: it breaks its form.
    Head,
    /// The first 16,384 bytes hold no whole head, and are no `Head`.
    HeadTooLong,
    /// The `Content-Length` is more than 1,048,576.
    BodyTooLong,
    /// A `Content-Length` isn't 1 to 19 digits, or two of them differ as numbers.
    BadLength,
    /// There is a `Transfer-Encoding`.
    Coding,
    /// The source ended inside a request.
    Cut,
    /// The source failed, and its count of faults rose.
    ReadFault,
    /// Want of memory.
    Memory(Memory),
}

impl From<Memory> for HttpFault {
    ghost use Rattle.std.specs.Prelude.{◌≡◌};
    ghost use Rattle.mx_http.specs.declared.fault.HttpFault.TheVariants as faults;

    ghost from_gives = { λ m e. e ≡ faults.Memory m };

    fn from(refused: Memory) -> Self {
        HttpFault::Memory(refused)
    }
}
