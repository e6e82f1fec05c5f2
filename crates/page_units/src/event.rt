//! What comes to a page from outside, a user's event and the answer to a request; and the request
//! itself.
ghost use Rattle.std.specs.Prelude.{◌≡◌};

use crate::fault::NoMemory;
use crate::text::Text;
use crate::value::CellName;

/// A user's event: the id of its target, its type, and the new value of the target, if it has one.
#[derive(Drop)]
pub struct PageEvent {
    pub target: Text,
    pub type_text: Text,
    pub value: Option<Text>,
}

/// The method of a request (RFC 9110, 9.3.1 and 9.3.3).
#[derive(Clone, Copy, Debug, PartialEq, Eq)]
pub enum Verb {
    /// It asks for what is at the address.
    Get,
    /// It sends a text to the address.
    Post,
}

/// A request that page code added (this project's own).
#[derive(Drop)]
pub struct Request {
    pub verb: Verb,
    /// The address.
    pub url: Text,
    /// The text that is sent, empty for a `Get`.
    pub body: Text,
    /// The function that gets the answer.
    pub callback: CellName,
}

impl Clone for Request {
    ghost is_clone = { λ a b. b ≡ a };

    fn clone(&self) -> Result<Request, NoMemory> {
        Ok(Request {
            verb: self.verb,
            url: self.url.clone()?,
            body: self.body.clone()?,
            callback: self.callback,
        })
    }
}

/// The answer to a page's request: an HTTP status from 100 to 999, and a text of at most 65,535
/// units.
#[derive(Drop)]
pub struct Response {
    pub status: u16,
    pub text: Text,
}
