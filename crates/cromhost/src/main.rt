//! The page host's program: hands `run` the arguments, the real files and the real streams.
#![tactic(auto)]

use crom_commands::{Status, run};
use page_units::{FileShelf, StdSink, StdSource};
use std::env;
use std::process::ExitCode;

/// Runs the command of the program's arguments over the files, standard input and standard output,
/// prints the status's line to standard error, and ends with its number.
fn main(rt: HostRuntime) -> ExitCode {
    let status = match env::args(&rt) {
        Ok(args) => match args.skip(1).collect::<Vec<_>>(rt.alloc()) {
            Ok(words) => run(
                rt.alloc(),
                &words,
                &mut FileShelf::new(rt),
                &mut StdSource::new(rt.stdin()),
                &mut StdSink::new(rt.stdout()),
            ),
            Err(_) => Status::NoMemory,
        },
        Err(_) => Status::Usage,
    };
    if status != Status::Ended {
        let _ = rt.eprintln(status);
    }
    ExitCode::from(status.number())
}
