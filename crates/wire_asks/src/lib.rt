//! What a request asks of the host: its route, its method and its body (this project's own routes
//! over RFC 9110 and RFC 9112), or why it is refused.
#![tactic(auto)]

pub mod asked;
mod asking;
mod bodies;
mod route;
pub mod routes;

pub use asked::{Asked, Asks, Refusal, ends_connection};
pub use routes::Routes;
