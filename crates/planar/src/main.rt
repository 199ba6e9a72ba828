//! The program `planar`: a script on standard input, its replies on standard output.
#![tactic(auto)]

ghost use Rattle.std.specs.Prelude.{◌≡◌};
ghost use Rattle.std.specs.Process.{exit_status};
ghost use Rattle.planar_run.specs.Status.{exit_code};

use arr_notes::Observer;
use mirror_observer::Mirror;
use no_memory::NoMemory;
use outside::{StdSink, StdSource};
use planar_run::{Status, planar};
use std::env;
use std::io::ErrorKind;
use std::process::ExitCode;

// How many observers a script has.
const MIRRORS: usize = 4;

// The words of the command line. Where one of them isn't text there are none at all, which is outside every grammar.
fn words(rt: &HostRuntime) -> Result<Vec<String>, NoMemory> {
    let mut words = Vec::new(rt.alloc());
    match env::args(rt) {
        Ok(args) => {
            for word in args {
                words.push(word)?;
            }
        }
        Err(error) => {
            if error.kind() == ErrorKind::OutOfMemory {
                return Err(NoMemory);
            }
        }
    }
    Ok(words)
}

// The observers of a script are mirrors without a limit.
fn run(rt: &HostRuntime) -> Result<Status, NoMemory> {
    let alloc = rt.alloc();
    let mut source = StdSource::new(rt.stdin());
    let mut sink = StdSink::new(rt.stdout());
    let words = words(rt)?;
    let mut observers: Vec<Box<dyn Observer>> = Vec::new(alloc);
    for _ in 0..MIRRORS {
        let mirror = Mirror::new(alloc, None)?;
        observers.push(Box::new(alloc, mirror)?)?;
    }
    Ok(planar(alloc, &words, &mut source, &mut sink, observers))
}

// The exit status that tells how a run ended.
fn code_of(status: Status) -> ExitCode
    ensures { exit_status result ≡ exit_code status }
{
    ExitCode::from(status.exit_code())
}

fn main(rt: HostRuntime) -> ExitCode {
    match run(&rt) {
        Ok(status) => code_of(status),
        Err(NoMemory) => code_of(Status::NoMemory),
    }
}
