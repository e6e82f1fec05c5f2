//! The table of the routes, and what a request asks by it.
ghost use Rattle.std.specs.Prelude.{◌≡◌, [], IfOk, OnOk, position};
ghost use Rattle.matchit.specs.Route.{parse_route};
ghost use Rattle.wire_asks.specs.Asking.{asked_by};
ghost use Rattle.wire_asks.specs.Routes.{is_query_mark, path_of, route_of};
ghost use Rattle.wire_asks.specs.Table.{IsFree, IsTable, with_route};

use crate::asked::{Asked, Refusal};
use crate::asking::asked_at;
use crate::route::Route;
use matchit::{InsertError, Router};
use page_units::NoMemory;
use std::alloc::{AllocError, Global};

/// The table of the seven routes.
#[derive(Drop)]
pub struct Routes {
    router: Router<Route>,
    ghost is_table: { IsTable router },
}

impl Routes {
    /// The table. NoMemory: memory was refused.
    pub fn new(alloc: Global) -> Result<Routes, NoMemory> {
        let mut router = Router::new(alloc);
        fill(&mut router)?;
        Ok(Routes { router })
    }

    /// What a request of this method, target and body asks. NoRoute: the path, which is the target
    /// up to its first `?`, names no route or isn't UTF-8; BadMethod: the route takes another
    /// method, which the error names; BadBody: the body isn't the object that the route takes. The
    /// bodies of all requests but `/event` and `/tick` are ignored. NoMemory: memory was refused.
    pub fn asked(
        &self,
        alloc: Global,
        method: &[u8],
        target: &[u8],
        body: &[u8],
    ) -> Result<Result<Asked, Refusal>, NoMemory>
        ensures { IfOk result (λ judged. judged ≡ asked_by method.now target.now body.now) }
    {
        let Ok(path) = str::from_utf8(before_query(target)) else {
            return Ok(Err(Refusal::NoRoute));
        };
        let Some(route) = self.route_at(path) else {
            return Ok(Err(Refusal::NoRoute));
        };
        let takes = route.method();
        if method != takes.name().as_bytes() {
            return Ok(Err(Refusal::BadMethod(takes)));
        }
        asked_at(alloc, route, path, body)
    }

    /// The route that a path names.
    fn route_at(&self, path: &str) -> Option<Route>
        ensures { result ≡ route_of path.now }
    {
        match self.router.at(path) {
            Ok(found) => Some(*found.value),
            Err(_) => None,
        }
    }
}

/// Adds the seven routes to a router without any. NoMemory: memory was refused.
fn fill(router: &mut Router<Route>) -> Result<(), NoMemory>
    requires { router.old ≡ [] }
    ensures { OnOk result (IsTable router.new) }
{
    add(router, "/dom", Route::Dom)?;
    add(router, "/load", Route::Load)?;
    add(router, "/node/{id}", Route::Node)?;
    add(router, "/stats", Route::Stats)?;
    add(router, "/event", Route::Event)?;
    add(router, "/tick", Route::Tick)?;
    add(router, "/halt", Route::Halt)
}

/// Adds a route whose pattern reads well and conflicts with no other. NoMemory: memory was refused.
fn add(router: &mut Router<Route>, pattern: &str, route: Route) -> Result<(), NoMemory>
    requires { IsFree (parse_route pattern.now) router.old }
    ensures { OnOk result (router.new ≡ with_route (parse_route pattern.now) route router.old) }
{
    match router.insert(pattern, route) {
        Ok(()) => Ok(()),
        Err(error) => match error {
            InsertError::OutOfMemory => Err(AllocError),
            _ => unreachable!(),
        },
    }
}

/// The path of a target.
fn before_query(target: &[u8]) -> &[u8]
    ensures { result.now ≡ path_of target.now }
{
    match query_at(target) {
        Some(end) => &target[..end],
        None => target,
    }
}

/// Where the first `?` stands.
fn query_at(target: &[u8]) -> Option<usize>
    ensures { result ≡ position is_query_mark target.now }
{
    target.iter().position(|byte| *byte == b'?')
}
