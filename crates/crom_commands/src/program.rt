//! The top call.
ghost use Rattle.std.specs.Prelude.{◌≡◌, ◌↔◌, ℕ, List, map, Some, None};
ghost use Rattle.std.specs.String.{string_bytes};
ghost use Rattle.crom_commands.specs.Words as spec;
ghost use Rattle.crom_commands.specs.Headline.{counts, Causes, RunsStdio};
ghost use Rattle.crom_commands.specs.Checking.{RunsCheck};

use crate::check::check;
use crate::status::Status;
use crate::stdio::stdio;
use crate::words::{Command, command_of};
use page_units::{Shelf, Sink, Source};
use std::alloc::Global;

/// Runs the command that the program's arguments name. `stdio PAGE` loads the page and answers the requests of the input, each
/// before the input is asked again; `check PAGE` reads the page and its scripts, and writes how many there
/// are.
pub fn run<F: Shelf, S: Source, W: Sink>(
    alloc: Global,
    words: &Vec<String>,
    shelf: &mut F,
    input: &mut S,
    output: &mut W,
) -> Status
    ensures usage { (result ≡ Status.Usage)
        ↔ (spec.command_of (map string_bytes words.now.items) ≡ None) }
    // A fault comes only where its device's count rose, and an end without one where none did.
    ensures causes { Causes result
        (counts (F.faults shelf.old) (S.faults input.old) (W.faults output.old))
        (counts (F.faults shelf.new) (S.faults input.new) (W.faults output.new)) }
    ensures stdio { (name : List ℕ)
        → spec.command_of (map string_bytes words.now.items) ≡ Some (spec.stdio name)
        → RunsStdio result (F.file shelf.old name)
        (S.left input.old) (S.left input.new) (W.told output.old) (W.told output.new)
        (counts (F.faults shelf.old) (S.faults input.old) (W.faults output.old))
        (counts (F.faults shelf.new) (S.faults input.new) (W.faults output.new)) }
    ensures check { (name : List ℕ)
        → spec.command_of (map string_bytes words.now.items) ≡ Some (spec.check name)
        → RunsCheck result (F.file shelf.old name) (W.told output.old) (W.told output.new)
        (counts (F.faults shelf.old) (S.faults input.old) (W.faults output.old))
        (counts (F.faults shelf.new) (S.faults input.new) (W.faults output.new)) }
    // Checking reads nothing of the input.
    ensures unread { (name : List ℕ)
        → spec.command_of (map string_bytes words.now.items) ≡ Some (spec.check name)
        → input.new ≡ input.old }
{
    match command_of(words) {
        Some(Command::Stdio(name)) => stdio(alloc, name, shelf, input, output),
        Some(Command::Check(name)) => check(alloc, name, shelf, output),
        None => Status::Usage,
    }
}
