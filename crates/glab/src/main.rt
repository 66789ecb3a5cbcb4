//! `glab`: GraphLab on the command line. Its exit status is the number of the engine's status.
#![tactic(auto)]

ghost use Rattle.std.specs.Prelude.{◌≡◌, ◌<◌, IfOk, length};
ghost use Rattle.std.specs.Process.{exit_status};
ghost use Rattle.engine_cli.specs.Status.{exit_number};

use engine_cli::{Status, engine};
use gl_base::UsageFault;
use gl_outside::{HostFiles, NoteSink, OpenGate, OutSink};
use std::process::ExitCode;
use std::rt::Env;
use std::{env, io};

/// As many words as no command has, and as the engine does not take.
const TOO_MANY_WORDS: usize = 4294967295;

fn main(rt: HostRuntime) -> ExitCode {
    let words = match words_of(&rt) {
        Ok(words) => words,
        Err(status) => return exit_code(&status),
    };
    let mut files = HostFiles::new(rt.alloc(), &rt);
    let mut out = OutSink::new(io::writer(&rt));
    let mut note = NoteSink::new(rt.stderr());
    let ended = engine(
        &rt,
        rt.alloc(),
        &words,
        &mut files,
        &mut out,
        &mut note,
        &OpenGate,
    );
    exit_code(&ended.status)
}

/// What the program ends with: the number of the status.
fn exit_code(status: &Status) -> ExitCode
    ensures { exit_status result ≡ exit_number status.now }
{
    ExitCode::from(status.number())
}

/// The words after the program's name. Words that are no text are no command, and neither are more
/// than any command has.
fn words_of<R: Env + AllocGlobal>(rt: &R) -> Result<Vec<String>, Status>
    ensures { IfOk result (λ words. length words.items < 4294967295) }
{
    let args = env::args(rt).map_err(status_of)?;
    let Ok(words): Result<Vec<String>, _> = args.skip(1).collect(rt.alloc()) else {
        return Err(Status::NoMemory);
    };
    if words.len() >= TOO_MANY_WORDS {
        return Err(Status::Usage(UsageFault::Line));
    }
    Ok(words)
}

/// Why the words could not be read.
fn status_of(error: io::Error) -> Status {
    match error.kind() {
        io::ErrorKind::OutOfMemory => Status::NoMemory,
        _ => Status::Usage(UsageFault::Line),
    }
}
