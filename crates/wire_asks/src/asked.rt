//! What is asked, and why it is refused.
ghost use Rattle.std.specs.Prelude.{◌≡◌};
ghost use Rattle.wire_asks.specs.Refusals.{name_of, code_of, allowed_by, closes, ends_connection};
ghost use Rattle.wire_asks.specs.Routes.{method_name};

use page_units::{PageEvent, Text};

/// The method that a route takes.
#[derive(Clone, Copy, Debug, PartialEq, Eq)]
pub enum Asks {
    /// GET
    Get,
    /// POST
    Post,
}

impl Asks {
    /// The method's name.
    pub fn name(self) -> &'static str
        ensures { result.now ≡ method_name self }
    {
        match self {
            Asks::Get => "GET",
            Asks::Post => "POST",
        }
    }
}

/// What a request asks for.
#[derive(Drop)]
pub enum Asked {
    /// GET `/dom`: the tree text of the document.
    Dom,
    /// GET `/load`: what loading the page gave.
    Load,
    /// GET `/node/{id}`: the tree text of the element with this id, which is not empty.
    Node(Text),
    /// GET `/stats`: the host's counts.
    Stats,
    /// POST `/event`: a user's event, whose type is not empty.
    Event(PageEvent),
    /// POST `/tick`: so many milliseconds pass, from 1 to 86,400,000.
    Tick(i64),
    /// POST `/halt`: the host is to end.
    Halt,
}

/// Why a request is refused. The first six close the connection.
#[derive(Clone, Copy, Debug, PartialEq, Eq)]
pub enum Refusal {
    /// No bytes that follow make the first 16,384 a head.
    BadHead,
    /// The head isn't whole in 16,384 bytes.
    HeadTooLarge,
    /// A Transfer-Encoding field.
    LeftOut,
    /// More than one Content-Length field, or a value that isn't 1 to 19 digits.
    BadLength,
    /// A Content-Length above 65,536.
    TooLarge,
    /// A POST without a Content-Length field.
    NoLength,
    /// The target's path is none of the routes, or isn't UTF-8.
    NoRoute,
    /// The route takes this other method.
    BadMethod(Asks),
    /// The body isn't the object that the route takes.
    BadBody,
    /// No element has the id.
    NoTarget,
}

impl Refusal {
    /// Its name, which its reply's body has.
    pub fn name(self) -> &'static str
        ensures { result.now ≡ name_of self }
    {
        match self {
            Refusal::BadHead => "BadHead",
            Refusal::HeadTooLarge => "HeadTooLarge",
            Refusal::LeftOut => "LeftOut",
            Refusal::BadLength => "BadLength",
            Refusal::TooLarge => "TooLarge",
            Refusal::NoLength => "NoLength",
            Refusal::NoRoute => "NoRoute",
            Refusal::BadMethod(_) => "BadMethod",
            Refusal::BadBody => "BadBody",
            Refusal::NoTarget => "NoTarget",
        }
    }

    /// The status code of its reply (RFC 9110, 15).
    pub fn code(self) -> u16
        ensures { result ≡ code_of self }
    {
        match self {
            Refusal::BadHead | Refusal::BadLength | Refusal::BadBody => 400,
            Refusal::NoRoute | Refusal::NoTarget => 404,
            Refusal::BadMethod(_) => 405,
            Refusal::NoLength => 411,
            Refusal::TooLarge => 413,
            Refusal::HeadTooLarge => 431,
            Refusal::LeftOut => 501,
        }
    }

    /// The method that the route takes, with 405 alone: that of its reply's Allow field.
    pub fn allowed(self) -> Option<Asks>
        ensures { result ≡ allowed_by self }
    {
        match self {
            Refusal::BadMethod(asks) => Some(asks),
            Refusal::BadHead
            | Refusal::HeadTooLarge
            | Refusal::LeftOut
            | Refusal::BadLength
            | Refusal::TooLarge
            | Refusal::NoLength
            | Refusal::NoRoute
            | Refusal::BadBody
            | Refusal::NoTarget => None,
        }
    }

    /// Whether the connection is closed after it.
    pub fn closes(self) -> bool
        ensures { result ≡ closes self }
    {
        match self {
            Refusal::BadHead
            | Refusal::HeadTooLarge
            | Refusal::LeftOut
            | Refusal::BadLength
            | Refusal::TooLarge
            | Refusal::NoLength => true,
            Refusal::NoRoute | Refusal::BadMethod(_) | Refusal::BadBody | Refusal::NoTarget => {
                false
            }
        }
    }
}

/// Whether the connection ends after what came: after a `/halt`, and after a refusal that closes.
pub fn ends_connection(asked: &Result<Asked, Refusal>) -> bool
    ensures { result ≡ ends_connection asked.now }
{
    match asked {
        Ok(Asked::Halt) => true,
        Ok(_) => false,
        Err(refusal) => refusal.closes(),
    }
}
