//! `x86emu run | check | gen SEED COUNT`: the words after the program's name, standard input and
//! standard output, through a buffer that is flushed at the end, are handed to the top call, whose
//! status is the program's.
#![tactic(auto)]

ghost use Rattle.std.specs.Prelude.{◌≡◌, drop, IfOk, IfErr};
ghost use Rattle.std.specs.Process.{exit_status};
ghost use Rattle.x86emu.specs.Ending.{exit_number};

use std::env::Env;
use std::io::{BufWriter, Write};
use std::process::ExitCode;
use std::{env, io};
use xe_run::{ReaderSource, Status, WriterSink, run};

/// The status where the system doesn't give the words.
const NO_WORDS: u8 = 6;

/// How many bytes of output go to the system at once: some hundred lines of a trace, since a call of
/// the system costs as much as a step.
const OUTPUT_AT_ONCE: usize = 1 << 16;

/// The arguments behind the first, which is the program's name.
fn behind_the_name(arguments: Vec<String>) -> Vec<String>
    ensures { result.items ≡ drop 1 arguments.items }
{
    let mut words = arguments;
    if !words.is_empty() {
        words.remove(0);
    }
    words
}

/// The words that the program was called with.
fn words<R: Env + AllocGlobal>(rt: &R) -> io::Result<Vec<String>> {
    Ok(behind_the_name(env::args(rt)?.collect(rt.alloc())?))
}

/// The status of a run, once the last of its output was handed to the system, or couldn't be: then it is a
/// write fault, as where an earlier part couldn't be written.
fn handed_on(status: Status, flushed: io::Result<()>) -> Status
    ensures ok { IfOk flushed (λ _. result ≡ status) }
    ensures err { IfErr flushed (λ _. result ≡ Status.WriteFault) }
{
    match flushed {
        Ok(()) => status,
        Err(_) => Status::WriteFault,
    }
}

/// How the program ends: with the number of the run's status, and where the system didn't give the
/// words, so that nothing was run, with one of its own.
fn exit_code(status: Option<Status>) -> ExitCode
    ensures { exit_status result ≡ exit_number status }
{
    match status {
        Some(status) => ExitCode::from(status.number()),
        None => ExitCode::from(NO_WORDS),
    }
}

fn main(rt: HostRuntime) -> ExitCode {
    let status = match words(&rt) {
        Ok(words) => {
            match BufWriter::with_capacity(rt.alloc(), OUTPUT_AT_ONCE, io::writer(&rt)) {
                Ok(mut output) => {
                    let mut source = ReaderSource::new(rt.reader());
                    let mut sink = WriterSink::new(&mut output);
                    let status = run(rt.alloc(), &words, &mut source, &mut sink);
                    Some(handed_on(status, output.flush()))
                }
                Err(_) => Some(Status::NoMemory),
            }
        }
        Err(_) => None,
    };
    exit_code(status)
}
