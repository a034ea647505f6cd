// The program: reads scripts from the files that are named as arguments, or from standard input, and runs them.
#![tactic(auto)]

mod run;

use run::{RunFault, run};
use script::statement::{Numbered, ScriptFault, parse};
use std::alloc::{AllocError, AllocFailed};
use std::process::ExitCode;
use std::{env, fmt, fs, io};

#[derive(Drop)]
enum Cause {
    Memory,
    // standard input, the arguments or a script's file are not read
    Input(io::Error),
    Script(ScriptFault),
    Run(RunFault),
}

impl fmt::Display for Cause {
    fn fmt<W: fmt::Write>(&self, f: &mut fmt::Formatter<W>) -> fmt::Result {
        match self {
            Cause::Memory => write!(f, "no memory"),
            Cause::Input(e) => write!(f, "{e}"),
            Cause::Script(fault) => write!(f, "{fault}"),
            Cause::Run(fault) => write!(f, "{fault}"),
        }
    }
}

// Why the program ends with status 1, and in which file, where that is to be said.
#[derive(Drop)]
struct Fault {
    name: Option<String>,
    cause: Cause,
}

impl fmt::Display for Fault {
    fn fmt<W: fmt::Write>(&self, f: &mut fmt::Formatter<W>) -> fmt::Result {
        let cause = &self.cause;
        match &self.name {
            Some(name) => write!(f, "{name}: {cause}"),
            None => write!(f, "{cause}"),
        }
    }
}

impl From<Cause> for Fault {
    fn from(cause: Cause) -> Fault {
        Fault { name: None, cause }
    }
}

impl From<AllocError> for Fault {
    fn from(_e: AllocError) -> Fault {
        Fault::from(Cause::Memory)
    }
}

impl<T: Drop> From<AllocFailed<T>> for Fault {
    fn from(_e: AllocFailed<T>) -> Fault {
        Fault::from(Cause::Memory)
    }
}

impl From<io::Error> for Fault {
    fn from(e: io::Error) -> Fault {
        Fault::from(Cause::Input(e))
    }
}

// A script, and its file's name, where faults are to name it.
#[derive(Drop)]
struct Source {
    name: Option<String>,
    statements: Vec<Numbered>,
}

fn read_source(rt: &HostRuntime, name: Option<String>, text: &str) -> Result<Source, Fault> {
    match parse(rt.alloc(), text) {
        Ok(statements) => Ok(Source { name, statements }),
        Err(fault) => Err(Fault {
            name,
            cause: Cause::Script(fault),
        }),
    }
}

fn load(rt: &HostRuntime, name: String, alone: bool) -> Result<Source, Fault> {
    match fs::read_to_string(rt, name.as_str()) {
        Ok(text) => read_source(rt, Some(name).filter(|_| !alone), text.as_str()),
        Err(e) => Err(Fault {
            name: Some(name),
            cause: Cause::Input(e),
        }),
    }
}

fn run_source(rt: &HostRuntime, source: Source) -> Result<(), Fault> {
    let Source { name, statements } = source;
    run(rt, statements.as_slice()).map_err(|fault| Fault {
        name,
        cause: Cause::Run(fault),
    })
}

// All files are read before the first statement runs.
fn run_files(rt: &HostRuntime, names: Vec<String>) -> Result<(), Fault> {
    let alone = names.len() == 1;
    let mut sources = Vec::new(rt.alloc());
    for name in names {
        sources.push(load(rt, name, alone)?)?;
    }
    for source in sources {
        run_source(rt, source)?;
    }
    Ok(())
}

fn run_input(rt: &HostRuntime) -> Result<(), Fault> {
    let text = io::read_to_string(rt.alloc(), rt.stdin())?;
    run_source(rt, read_source(rt, None, text.as_str())?)
}

fn run_all(rt: &HostRuntime) -> Result<(), Fault> {
    let mut names = Vec::new(rt.alloc());
    for name in env::args(rt)?.skip(1) {
        names.push(name)?;
    }
    if names.is_empty() {
        return run_input(rt);
    }
    run_files(rt, names)
}

fn main(rt: HostRuntime) -> ExitCode {
    match run_all(&rt) {
        Ok(()) => ExitCode::SUCCESS,
        Err(fault) => {
            let _ = eprintln!(rt; "{fault}");
            ExitCode::FAILURE
        }
    }
}
