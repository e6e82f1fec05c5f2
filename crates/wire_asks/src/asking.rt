//! What a request asks by its route.
ghost use Rattle.std.specs.Prelude.{◌≡◌, IfOk, Some};
ghost use Rattle.page_units.specs.Coding.{units_of_utf8};
ghost use Rattle.wire_asks.specs.Asking.{asked_at as asked_at_route};
ghost use Rattle.wire_asks.specs.Routes.{route_of};

use crate::asked::{Asked, Refusal};
use crate::bodies::{event_of, tick_of};
use crate::route::Route;
use page_units::{NoMemory, Text};
use std::alloc::Global;

/// What stands before the id of a node.
const NODE_PREFIX: &str = "/node/";

/// What a request of this route, which its path names, asks. BadBody: the body isn't the object
/// that the route takes.
pub fn asked_at(
    alloc: Global,
    route: Route,
    path: &str,
    body: &[u8],
) -> Result<Result<Asked, Refusal>, NoMemory>
    requires { route_of path.now ≡ Some route }
    ensures { IfOk result (λ judged. judged ≡ asked_at_route route path.now body.now) }
{
    match route {
        Route::Dom => Ok(Ok(Asked::Dom)),
        Route::Load => Ok(Ok(Asked::Load)),
        Route::Node => match path.strip_prefix(NODE_PREFIX) {
            Some(id) => Ok(Ok(Asked::Node(Text::of_str(alloc, id)?))),
            None => unreachable!(),
        },
        Route::Stats => Ok(Ok(Asked::Stats)),
        Route::Event => match event_of(alloc, body)? {
            Some(event) => Ok(Ok(Asked::Event(event))),
            None => Ok(Err(Refusal::BadBody)),
        },
        Route::Tick => match tick_of(alloc, body)? {
            Some(ms) => Ok(Ok(Asked::Tick(ms))),
            None => Ok(Err(Refusal::BadBody)),
        },
        Route::Halt => Ok(Ok(Asked::Halt)),
    }
}
