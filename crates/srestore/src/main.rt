//! `srestore`: runs the command of the command line over files and standard output.
#![tactic(auto)]

ghost use Rattle.std.specs.Prelude.{◌≡◌};
ghost use Rattle.std.specs.Process.{exit_status};
ghost use Rattle.restore_program.specs.Status.{code_of};

use restore_program::{Status, run};
use sr_outside::{FileInputs, StdSink};
use std::env;
use std::io::{self, ErrorKind};
use std::process::ExitCode;

/// Runs the command that the words ask for, over files and standard output, and ends with the status's code.
/// Words that are not all UTF-8 are refused as no words are. Where there is no memory for them, nothing is written.
fn main(rt: HostRuntime) -> ExitCode {
    let mut inputs = FileInputs::new(&rt);
    let mut out = StdSink::new(&rt);
    let status = match words(&rt) {
        Ok(words) => run(&rt, rt.alloc(), &words, &mut inputs, &mut out),
        Err(error) if error.kind() == ErrorKind::InvalidData => {
            run(&rt, rt.alloc(), &[], &mut inputs, &mut out)
        }
        Err(_) => Status::NoMemory,
    };
    exit_code(status)
}

/// The exit code that is the status's code.
fn exit_code(status: Status) -> ExitCode
    ensures { exit_status result ≡ code_of status }
{
    ExitCode::from(status.code())
}

/// The words of the command line, without the program's name.
fn words(rt: &HostRuntime) -> io::Result<Vec<String>> {
    Ok(env::args(rt)?.skip(1).collect(rt.alloc())?)
}
