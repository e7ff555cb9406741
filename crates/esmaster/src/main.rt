//! The program: it reads a script, performs it, and writes the report of what came of it.
#![tactic(auto)]

#[cfg(test)]
mod ack_rows;
mod answers;
#[cfg(test)]
mod command_rows;
mod commands;
mod exits;
#[cfg(test)]
mod long_rows;
mod replays;
#[cfg(test)]
mod script_tests;
#[cfg(test)]
mod tests;
#[cfg(test)]
mod turn_rows;

use commands::esmaster;
use edge_io::{MillisClock, OpenGate, StdSink, StdSource};
use exits::Exit;
use std::env::Env;
use std::process::ExitCode;
use std::{env, io};

fn main(rt: HostRuntime) -> ExitCode {
    let exit = match words(&rt) {
        Ok(words) => {
            let mut source = StdSource::new(rt.reader());
            let mut sink = StdSink::new(io::writer(&rt));
            let clock = MillisClock::new(&rt);
            esmaster(
                &rt,
                rt.alloc(),
                words.as_slice(),
                &mut source,
                &mut sink,
                &clock,
                &OpenGate,
            )
        }
        Err(error) if error.kind() == io::ErrorKind::OutOfMemory => Exit::OutOfMemory,
        Err(_) => Exit::Usage,
    };
    ExitCode::from(exit.status())
}

/// The words after the program's name. A word that isn't text is an error.
fn words<R: Env + AllocGlobal>(rt: &R) -> io::Result<Vec<String>> {
    let mut words = Vec::new(rt.alloc());
    for word in env::args(rt)?.skip(1) {
        words.push(word)?;
    }
    Ok(words)
}
