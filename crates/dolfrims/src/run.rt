// Running a script. The answers go through one buffer to standard output.
use capture::reader::{Capture, CaptureFault};
use classifier::Classifier;
use datapath::{Level, Tables};
use pair::book::{Book, Differ};
use pair::session::Session;
use pair::switches::Switches;
use pile::AnyClassifier;
use script::piles::piles_of;
use script::statement::{Call, Numbered, Recorded, Sent, Statement};
use std::alloc::{AllocError, AllocFailed};
use std::fs::File;
use std::io::BufReader;
use std::{fmt, fs, io};
use switch::Switch;
use text::key::key_line;
use text::page::Page;
use text::place::Place;

// Why a capture is not read to its end.
#[derive(Debug, Drop)]
pub enum FramesFault {
    Open(io::Error),
    Read(CaptureFault),
}

impl fmt::Display for FramesFault {
    fn fmt<W: fmt::Write>(&self, f: &mut fmt::Formatter<W>) -> fmt::Result {
        match self {
            FramesFault::Open(e) => write!(f, "{e}"),
            FramesFault::Read(e) => write!(f, "{e}"),
        }
    }
}

impl From<io::Error> for FramesFault {
    fn from(e: io::Error) -> FramesFault {
        FramesFault::Open(e)
    }
}

impl From<CaptureFault> for FramesFault {
    fn from(e: CaptureFault) -> FramesFault {
        FramesFault::Read(e)
    }
}

// Why a script that was read is not run to its end.
#[derive(Debug, Drop)]
pub enum RunFault {
    Memory,
    Write(io::Error),
    // the line, the path of a capture, and what is wrong with it
    Frames {
        line: u64,
        path: String,
        fault: FramesFault,
    },
    Differ(Differ),
}

impl fmt::Display for RunFault {
    fn fmt<W: fmt::Write>(&self, f: &mut fmt::Formatter<W>) -> fmt::Result {
        match self {
            RunFault::Memory => write!(f, "no memory"),
            RunFault::Write(e) => write!(f, "standard output: {e}"),
            RunFault::Frames { line, path, fault } => write!(f, "line {line}: {path}: {fault}"),
            RunFault::Differ(e) => write!(f, "{e}"),
        }
    }
}

impl From<AllocError> for RunFault {
    fn from(_e: AllocError) -> RunFault {
        RunFault::Memory
    }
}

impl<T: Drop> From<AllocFailed<T>> for RunFault {
    fn from(_e: AllocFailed<T>) -> RunFault {
        RunFault::Memory
    }
}

impl From<Differ> for RunFault {
    fn from(e: Differ) -> RunFault {
        RunFault::Differ(e)
    }
}

// The buffer is written out where it holds this many bytes.
const FULL: usize = 65536;

fn flush(rt: &HostRuntime, page: &mut Page) -> Result<(), RunFault> {
    rt.write_all(page.as_slice()).map_err(RunFault::Write)?;
    page.clear();
    Ok(())
}

fn flush_full(rt: &HostRuntime, page: &mut Page) -> Result<(), RunFault> {
    if page.len() < FULL {
        return Ok(());
    }
    flush(rt, page)
}

// A capture that is open, and its file.
#[derive(Drop)]
struct Frames {
    input: BufReader<File>,
    capture: Capture,
}

fn open_frames(rt: &HostRuntime, path: &str) -> Result<Frames, FramesFault> {
    let mut input = BufReader::new(rt.alloc(), fs::open(rt, path)?)?;
    let capture = Capture::open(rt.alloc(), &mut input)?;
    Ok(Frames { input, capture })
}

// A fault of the capture that a line names.
fn at(rt: &HostRuntime, line: u64, path: &str, fault: FramesFault) -> RunFault {
    match String::from_str(rt.alloc(), path) {
        Ok(path) => RunFault::Frames { line, path, fault },
        Err(e) => RunFault::from(e),
    }
}

// Answers each frame of a capture.
fn run_recorded<L: Level, M: Level, F>(
    rt: &HostRuntime,
    session: &mut Session<L, M>,
    line: u64,
    recorded: &Recorded,
    answer: F,
) -> Result<(), RunFault>
where
    F: Fn(&mut Session<L, M>, Place, u16, &[u8]) -> Result<(), AllocError>,
    requires { F.IsAlwaysCallable answer }
{
    let path = recorded.path.as_str();
    let Frames {
        mut input,
        mut capture,
    } = open_frames(rt, path).map_err(|e| at(rt, line, path, e))?;
    for _ in 0..u64::MAX {
        let read = capture.next_record(&mut input);
        let Some(record) = read.map_err(|e| at(rt, line, path, FramesFault::from(e)))? else {
            break;
        };
        let frame = Some(record.number);
        answer(session, Place { line, frame }, recorded.port, record.frame)?;
        flush_full(rt, &mut session.book.page)?;
    }
    Ok(())
}

// What the switches are called for.
fn run_call<L: Level, M: Level>(
    rt: &HostRuntime,
    session: &mut Session<L, M>,
    line: u64,
    call: &Call,
) -> Result<(), RunFault> {
    let place = Place { line, frame: None };
    match call {
        Call::Add(rule) => session.add(line, rule)?,
        Call::Remove(name) => session.remove(line, *name)?,
        Call::Count(name) => session.count(line, *name)?,
        Call::Frame(Sent { port, frame }) => session.frame(place, *port, frame.as_slice())?,
        Call::Frames(recorded) => run_recorded(rt, session, line, recorded, Session::frame)?,
        Call::Peek(Sent { port, frame }) => session.peek(line, *port, frame.as_slice())?,
        Call::Totals => session.totals(line)?,
        Call::Report => session.report(line)?,
    }
    Ok(())
}

// Answers `key` for a frame.
fn run_key<L: Level, M: Level>(
    session: &mut Session<L, M>,
    place: Place,
    port: u16,
    frame: &[u8],
) -> Result<(), AllocError> {
    key_line(&mut session.book.page, place, port, frame)
}

fn run_statement<L: Level, M: Level>(
    rt: &HostRuntime,
    session: &mut Session<L, M>,
    numbered: &Numbered,
) -> Result<(), RunFault> {
    let line = numbered.line;
    let place = Place { line, frame: None };
    match &numbered.statement {
        Statement::Key(Sent { port, frame }) => run_key(session, place, *port, frame.as_slice())?,
        Statement::Keys(recorded) => run_recorded(rt, session, line, recorded, run_key)?,
        Statement::Switch { .. } => {}
        Statement::Call(call) => run_call(rt, session, line, call)?,
    }
    flush_full(rt, &mut session.book.page)
}

fn run_statements<L: Level, M: Level>(
    rt: &HostRuntime,
    session: &mut Session<L, M>,
    script: &[Numbered],
) -> Result<(), RunFault> {
    for numbered in script {
        run_statement(rt, session, numbered)?;
    }
    Ok(())
}

// Runs the statements in their order, up to the first that fails. What was answered is written in any case.
pub fn run(rt: &HostRuntime, script: &[Numbered]) -> Result<(), RunFault> {
    let book = Book::new(rt.alloc(), FULL + 1024)?;
    let piles = piles_of(script);
    let a = Tables::<AnyClassifier>::new(rt.alloc(), piles.a.classifier)?;
    let b = Tables::<AnyClassifier>::new(rt.alloc(), piles.b.classifier)?;
    let switches = Switches {
        a: Switch::new(a),
        b: Switch::new(b),
    };
    let mut session = Session { switches, book };
    let result = run_statements(rt, &mut session, script);
    flush(rt, &mut session.book.page)?;
    result?;
    session.book.verdict()?;
    Ok(())
}
