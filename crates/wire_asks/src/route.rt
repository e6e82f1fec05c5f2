//! The seven routes.
ghost use Rattle.std.specs.Prelude.{◌≡◌};
ghost use Rattle.wire_asks.specs.Routes.{method_of};

use crate::asked::Asks;

/// What a path names.
#[derive(Clone, Copy, Debug, PartialEq, Eq)]
pub enum Route {
    /// `/dom`
    Dom,
    /// `/load`
    Load,
    /// `/node/{id}`
    Node,
    /// `/stats`
    Stats,
    /// `/event`
    Event,
    /// `/tick`
    Tick,
    /// `/halt`
    Halt,
}

impl Route {
    /// The method that the route takes.
    pub fn method(self) -> Asks
        ensures { result ≡ method_of self }
    {
        match self {
            Route::Dom | Route::Load | Route::Node | Route::Stats => Asks::Get,
            Route::Event | Route::Tick | Route::Halt => Asks::Post,
        }
    }
}
