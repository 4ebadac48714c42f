//! The program `plt`: it makes the real files, standard output and the gate, and hands the words of the command line
//! to the top call.
#![tactic(auto)]

ghost use Rattle.std.specs.Prelude.{◌≡◌};
ghost use Rattle.std.specs.Process.{exit_status};

use pl_io::{HostFiles, HostOutput, Open};
use pl_term::{Memory, Text};
use std::alloc::Global;
use std::process::ExitCode;
use std::{env, io};
use toplevel::run::Report;

/// The exit status where there is no memory for the words.
const NO_MEMORY: u8 = 255;

fn main(rt: HostRuntime) -> ExitCode {
    let Ok(words) = words(&rt, rt.alloc()) else {
        return ExitCode::from(NO_MEMORY);
    };
    let mut files = HostFiles::new(&rt);
    let mut out = HostOutput::new(&rt);
    let report = toplevel::run::run(
        &rt,
        rt.alloc(),
        words.as_slice(),
        &mut files,
        &mut out,
        &Open,
    );
    exit_code(&report)
}

/// The exit code whose status is the report's.
fn exit_code(report: &Report) -> ExitCode
    ensures { exit_status result ≡ report.now.status }
{
    ExitCode::from(report.status)
}

/// The words of the command line after the program's name. Where one is not UTF-8, or they cannot be had, there is
/// no word, which is no command line either. The only error is out of memory.
fn words<R: std::rt::Env + AllocGlobal>(rt: &R, alloc: Global) -> Result<Vec<Text>, Memory> {
    let args = match env::args(rt) {
        Ok(args) => args,
        Err(e) if e.kind() == io::ErrorKind::OutOfMemory => return Err(Memory),
        Err(_) => return Ok(Vec::new(alloc)),
    };
    let mut words = Vec::new(alloc);
    for arg in args.skip(1) {
        words.push(Text::from_str(alloc, arg.as_str())?)?;
    }
    Ok(words)
}
