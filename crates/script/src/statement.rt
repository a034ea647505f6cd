// The statements of a script, one to a line.
ghost use Rattle.std.specs.Prelude.{◌≡◌, Some, vec_items, string_bytes};
ghost use Rattle.script.specs.declared.statement.LineFault.TheVariants.{Memory, Draft};
ghost use Rattle.script.specs.Statements.{SaysPort, SaysFrame, SaysPath};
ghost use Rattle.script.specs.Texts.{line_text, script_text};

use datapath::{RuleName, RuleRecord};
use numeral::hex::{HexFault, hex_bytes};
use numeral::number::number;
use pile::ClassifierKind;
use rule::draft::{Draft as RuleDraft, DraftFault, WordFault, blank};
use std::alloc::{AllocError, Global};
use std::fmt;
use std::str::SplitWhitespace;

// A frame that comes in at a port.
#[derive(Drop)]
pub struct Sent {
    pub port: u16,
    pub frame: Vec<u8>,
}

// The frames of the capture at a path, at a port.
#[derive(Drop)]
pub struct Recorded {
    pub port: u16,
    pub path: String,
}

#[derive(Drop)]
pub enum Statement {
    // print the key of a frame, or of each frame of a capture
    Key(Sent),
    Keys(Recorded),
    // what one of the two switches is made of
    Switch { side: Side, pile: Pile },
    Call(Call),
}

// What both switches are called for.
#[derive(Drop)]
pub enum Call {
    Add(RuleRecord),
    Remove(RuleName),
    Count(RuleName),
    Frame(Sent),
    Frames(Recorded),
    Peek(Sent),
    Totals,
    // the count of each standing rule
    Report,
}

#[derive(Debug, Clone, Copy, PartialEq, Eq)]
pub enum Side {
    A,
    B,
}

// What a switch is made of: how a table finds its rule for a key.
#[derive(Clone, Copy)]
pub struct Pile {
    pub classifier: ClassifierKind,
}

// A statement with its line's number, counted from 1.
#[derive(Drop)]
pub struct Numbered {
    pub line: u64,
    pub statement: Statement,
}

// What is wrong with a line.
#[derive(Debug, Drop)]
pub enum LineFault {
    Memory,
    // a word that begins no statement
    Unknown(String),
    // a word of the statement that is not there
    Missing(&'static str),
    // a word behind the statement's last
    Extra(String),
    // a word that is no number of 16 bits
    Port(String),
    Hex(HexFault),
    // a word NAME=VALUE
    Word(String, WordFault),
    // the words make no rule
    Draft(DraftFault),
    // a word that names none of the two switches, or nothing that a switch is made of
    Side(String),
    Pile(String),
    // a switch is made behind the first call
    Late,
}

impl fmt::Display for LineFault {
    ghost output = { λ fault. Some (line_text fault) };

    fn fmt<W: fmt::Write>(&self, f: &mut fmt::Formatter<W>) -> fmt::Result {
        match self {
            LineFault::Memory => write!(f, "no memory"),
            LineFault::Unknown(word) => write!(f, "unknown statement '{word}'"),
            LineFault::Missing(what) => write!(f, "{what} is missing"),
            LineFault::Extra(word) => write!(f, "'{word}' is one word too many"),
            LineFault::Port(word) => write!(
                f,
                "'{word}' is no port: a decimal or 0x number of 16 bits"
            ),
            LineFault::Hex(fault) => write!(f, "{fault}"),
            LineFault::Word(word, fault) => write!(f, "'{word}': {fault}"),
            LineFault::Draft(fault) => write!(f, "{fault}"),
            LineFault::Side(word) => write!(f, "'{word}' is no switch: A or B"),
            LineFault::Pile(word) => write!(
                f,
                "'{word}' is nothing that a switch is made of: linear or tuple"
            ),
            LineFault::Late => write!(f, "a switch is set up behind the first call"),
        }
    }
}

impl From<AllocError> for LineFault {
    ghost from_gives = { λ _ r. r ≡ Memory };

    fn from(_e: AllocError) -> LineFault {
        LineFault::Memory
    }
}

impl From<DraftFault> for LineFault {
    ghost from_gives = { λ e r. r ≡ Draft e };

    fn from(e: DraftFault) -> LineFault {
        LineFault::Draft(e)
    }
}

impl LineFault {
    // The same as the fault of a script, in this line.
    fn at(self, line: u64) -> ScriptFault {
        ScriptFault { line, fault: self }
    }
}

// What is wrong with a script, and in which line.
#[derive(Debug, Drop)]
pub struct ScriptFault {
    pub line: u64,
    pub fault: LineFault,
}

impl fmt::Display for ScriptFault {
    ghost output = { λ fault. Some (script_text fault) };

    fn fmt<W: fmt::Write>(&self, f: &mut fmt::Formatter<W>) -> fmt::Result {
        let line = self.line;
        let fault = &self.fault;
        write!(f, "line {line}: {fault}")
    }
}

// The port that a word writes.
fn port(heap: Global, word: &str) -> Result<u16, LineFault>
    ensures { SaysPort word.now result }
{
    match number(word) {
        Some(port) => Ok(port),
        None => Err(LineFault::Port(String::from_str(heap, word)?)),
    }
}

// The frame that digits write.
fn frame(heap: Global, digits: &[u8]) -> Result<Vec<u8>, LineFault>
    ensures { SaysFrame vec_items digits.now result }
{
    hex_bytes(heap, digits).map_err(LineFault::Hex)
}

// The path that a word is.
fn path(heap: Global, word: &str) -> Result<String, LineFault>
    ensures { SaysPath string_bytes word.now result }
{
    Ok(String::from_str(heap, word)?)
}

// The words of a line that are to be read, and the memory for what they say.
#[derive(Drop)]
struct Words<'a> {
    heap: Global,
    left: SplitWhitespace<'a>,
}

impl<'a> Words<'a> {
    // The next word, which is missing where there is none.
    fn next(&mut self, what: &'static str) -> Result<&'a str, LineFault> {
        self.left.next().ok_or(LineFault::Missing(what))
    }

    fn port(&mut self) -> Result<u16, LineFault> {
        let word = self.next("the port")?;
        port(self.heap, word)
    }

    // A port and a frame, which may be absent and is an empty one then.
    fn sent(&mut self) -> Result<Sent, LineFault> {
        let port = self.port()?;
        let digits = self.left.next().unwrap_or("");
        let frame = frame(self.heap, digits.as_bytes())?;
        Ok(Sent { port, frame })
    }

    // A port and the path of a capture.
    fn recorded(&mut self) -> Result<Recorded, LineFault> {
        let port = self.port()?;
        let word = self.next("the capture's path")?;
        let path = path(self.heap, word)?;
        Ok(Recorded { port, path })
    }

    fn side(&mut self) -> Result<Side, LineFault> {
        let word = self.next("the switch, A or B,")?;
        match word {
            "A" => Ok(Side::A),
            "B" => Ok(Side::B),
            _ => Err(LineFault::Side(String::from_str(self.heap, word)?)),
        }
    }

    fn pile(&mut self) -> Result<Pile, LineFault> {
        let word = self.next("what the switch is made of")?;
        let classifier = match word {
            "linear" => ClassifierKind::Linear,
            "tuple" => ClassifierKind::Tuple,
            _ => return Err(LineFault::Pile(String::from_str(self.heap, word)?)),
        };
        Ok(Pile { classifier })
    }

    // Puts into a draft what the words NAME=VALUE say, each of which is taken so.
    fn fill<F: Fn(&mut RuleDraft, &str) -> Result<(), WordFault>>(
        &mut self,
        draft: &mut RuleDraft,
        take: F,
    ) -> Result<(), LineFault>
        requires { F.IsAlwaysCallable take }
    {
        for word in self.left.by_ref() {
            if let Err(fault) = take(draft, word) {
                return Err(LineFault::Word(String::from_str(self.heap, word)?, fault));
            }
        }
        Ok(())
    }

    fn rule(&mut self) -> Result<RuleRecord, LineFault> {
        let mut draft = blank();
        self.fill(&mut draft, |draft, word| draft.take(word))?;
        Ok(draft.finish()?)
    }

    fn name(&mut self) -> Result<RuleName, LineFault> {
        let mut draft = blank();
        self.fill(&mut draft, |draft, word| draft.take_name(word))?;
        Ok(draft.name()?)
    }

    // The statement of a verb.
    fn statement(&mut self, verb: &str) -> Result<Statement, LineFault> {
        Ok(match verb {
            "key" => Statement::Key(self.sent()?),
            "keys" => Statement::Keys(self.recorded()?),
            "switch" => Statement::Switch {
                side: self.side()?,
                pile: self.pile()?,
            },
            "add" => Statement::Call(Call::Add(self.rule()?)),
            "remove" => Statement::Call(Call::Remove(self.name()?)),
            "count" => Statement::Call(Call::Count(self.name()?)),
            "frame" => Statement::Call(Call::Frame(self.sent()?)),
            "frames" => Statement::Call(Call::Frames(self.recorded()?)),
            "peek" => Statement::Call(Call::Peek(self.sent()?)),
            "totals" => Statement::Call(Call::Totals),
            "report" => Statement::Call(Call::Report),
            _ => return Err(LineFault::Unknown(String::from_str(self.heap, verb)?)),
        })
    }
}

// The statement of a line, or none where the line has only blanks and a comment.
pub fn parse_line(heap: Global, line: &str) -> Result<Option<Statement>, LineFault> {
    let code = line.split_once('#').map_or(line, |(code, _)| code);
    let mut words = Words {
        heap,
        left: code.split_whitespace(),
    };
    let Some(verb) = words.left.next() else {
        return Ok(None);
    };
    let statement = words.statement(verb)?;
    match words.left.next() {
        Some(word) => Err(LineFault::Extra(String::from_str(heap, word)?)),
        None => Ok(Some(statement)),
    }
}

// The statements of a script, or the first fault in it.
pub fn parse(heap: Global, text: &str) -> Result<Vec<Numbered>, ScriptFault> {
    let mut script = Vec::new(heap);
    let mut called = false;
    for (line, code) in (1..u64::MAX).zip(text.lines()) {
        // by a match: with `map_err` and `?` an empty line takes 389 instructions here and not 77, since a statement's place is
        // moved at each
        match parse_line(heap, code) {
            Ok(Some(statement)) => {
                if called && matches!(&statement, Statement::Switch { .. }) {
                    return Err(LineFault::Late.at(line));
                }
                called = called || matches!(&statement, Statement::Call(_));
                script
                    .push(Numbered { line, statement })
                    .map_err(|_| LineFault::Memory.at(line))?;
            }
            Ok(None) => {}
            Err(fault) => return Err(fault.at(line)),
        }
    }
    Ok(script)
}
