//! Runs a file. The words are those of the command line, the files those of the system.
#![tactic(auto)]

ghost use Rattle.std.specs.IoError.{error_kind};
ghost use Rattle.std.specs.Prelude.{◌≡◌};
ghost use Rattle.vvp_top.specs.Ends.{Says};
ghost use Rattle.vvp_top.specs.Texts.{line_of, status_of};

use std::io::ErrorKind;
use std::process::ExitCode;
use std::{env, io};
use vvp_edge::{DirStore, OutSink, Sink};
use vvp_top::{Outcome, vvp_main};

// Why there are no words: memory ran out, or they were refused, as a word that isn't UTF-8.
fn without_words(error: &io::Error) -> Outcome
    ensures memory { error_kind error.now ≡ ErrorKind.OutOfMemory → result ≡ Outcome.Memory }
    ensures refused { (error_kind error.now ≡ ErrorKind.OutOfMemory → ⊥) → result ≡ Outcome.BadWords }
{
    match error.kind() {
        ErrorKind::OutOfMemory => Outcome::Memory,
        _ => Outcome::BadWords,
    }
}

// Says the outcome's line, and answers its status.
fn end_with<M: Sink>(outcome: Outcome, errs: &mut M) -> u8
    ensures status { result ≡ status_of outcome }
    ensures said { Says (line_of outcome) (M.held errs.old) (M.held errs.new) (M.faults errs.old) (M.faults errs.new) }
{
    outcome.say(errs);
    outcome.status()
}

fn main(rt: HostRuntime) -> ExitCode {
    let alloc = rt.alloc();
    let mut errs = OutSink::new(rt.stderr());
    let arguments = match env::args(&rt) {
        Ok(arguments) => arguments,
        Err(error) => return ExitCode::from(end_with(without_words(&error), &mut errs)),
    };
    let words: Vec<String> = match arguments.skip(1).collect(alloc) {
        Ok(words) => words,
        Err(_) => return ExitCode::from(end_with(Outcome::Memory, &mut errs)),
    };
    let mut store = DirStore::new(&rt);
    let mut out = OutSink::new(rt.stdout());
    ExitCode::from(vvp_main(alloc, &words, &mut store, &mut out, &mut errs))
}
