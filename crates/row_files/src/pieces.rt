//! How the bytes of a source in memory come.
ghost use Rattle.std.specs.Prelude.{◌<◌, IsTrue, IfOk};
ghost use Rattle.byte_ports.specs.Memory.{are_pieces};

use std::alloc::{AllocError, Global};

/// So many bytes in pieces of this length, at least 1, the last maybe shorter.
pub fn pieces_of(alloc: Global, length: usize, count: usize) -> Result<Vec<usize>, AllocError>
    requires { 0 < length }
    ensures { IfOk result (λ pieces. IsTrue (are_pieces pieces.items)) }
{
    let mut pieces = vec![in alloc; length; count / length]?;
    if count % length > 0 {
        pieces.push(count % length)?;
    }
    Ok(pieces)
}
