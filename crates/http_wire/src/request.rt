//! What is read of a stream.

use wire_asks::Refusal;

/// A request with its body.
#[derive(Drop)]
pub struct Request {
    /// The method's bytes, not empty; methods compare by case.
    pub method: Vec<u8>,
    /// The target's bytes, as they came: not empty, and UTF-8.
    pub target: Vec<u8>,
    /// The minor version: 0 or 1.
    pub minor: u8,
    /// The connection ends behind this request: HTTP/1.0, or a Connection field with the option
    /// `close` in any ASCII case.
    pub close: bool,
    /// The body, of at most 65,536 bytes.
    pub body: Vec<u8>,
}

/// What comes next of a stream.
#[derive(Drop)]
pub enum Framed {
    /// A whole request.
    Request(Request),
    /// What comes is refused.
    Refused(Refusal),
    /// The stream ended between two requests.
    End,
    /// The stream ended inside a request.
    Truncated,
    /// A read failed: the source's count of faults rose.
    Failed,
}
