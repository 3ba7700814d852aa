//! The program.
#![tactic(auto)]

mod answer;
mod command;
#[cfg(test)]
mod failing;
mod inputs;
#[cfg(test)]
mod large;
mod laws;
#[cfg(test)]
mod meeting;
mod run;
#[cfg(test)]
mod tests;

use crate::run::run;
use command_steps::NO_MEMORY;
use or_host::{FileStore, StreamSink};
use std::env;
use std::io::ErrorKind;
use std::process::ExitCode;

/// The words after the program's name. A word that isn't UTF-8 leaves no words, which is no form.
fn words(rt: &HostRuntime) -> Option<Vec<String>> {
    let mut words = Vec::new(rt.alloc());
    let args = match env::args(rt) {
        Ok(args) => args,
        Err(error) if error.kind() == ErrorKind::OutOfMemory => return None,
        Err(_) => return Some(words),
    };
    for word in args.skip(1) {
        match words.push(word) {
            Ok(()) => {}
            Err(_) => return None,
        }
    }
    Some(words)
}

fn main(rt: HostRuntime) -> ExitCode {
    let Some(words) = words(&rt) else {
        return ExitCode::from(NO_MEMORY);
    };
    let mut store = FileStore::new(rt);
    let mut out = StreamSink::new(rt);
    ExitCode::from(run(&rt, rt.alloc(), &words, &mut store, &mut out))
}
