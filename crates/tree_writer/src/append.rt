//! Bytes behind bytes, up to a bound.
ghost use Rattle.std.specs.Prelude.{◌≤◌, length, IfOk};
ghost use Rattle.tree_writer.specs.Appends.{Appended};

use page_units::NoMemory;

/// Appends bytes; false where that would be more than `most` in all.
pub fn append(bytes: &[u8], most: u64, out: &mut Vec<u8>) -> Result<bool, NoMemory>
    requires { length out.old.items ≤ most }
    ensures { IfOk result (λ whole. Appended whole most out.old.items out.new.items bytes.now) }
{
    if bytes.len() as u64 > most - out.len() as u64 {
        return Ok(false);
    }
    out.extend_from_slice(bytes)?;
    Ok(true)
}
