// The lines that answer the calls of the two switches.
// The functions here that begin with `put` ask for room in the buffer, and then cannot fail.
ghost use Rattle.std.specs.Prelude.{◌≡◌, ℕ, ◌+◌, ◌<◌, ◌≤◌, [], ◌++◌, cond, codes, is_ok, if◌then◌else◌, vec_len, vec_capacity};
ghost use Rattle.text.specs.Texts.{Appended, decimal_text};
ghost use Rattle.text.specs.Answers.{none_lower, ports_text, reply_text, said_text, same_answer, same_ports, both_text, verb_text, start_text};
ghost use Rattle.text.specs.Answers.{answer_line, word_line, depths_text, forwarded_text, frame_line, masks_text, peeked_text, peek_line, rule_text, report_line, counted_text, totals_line};

use super::page::Page;
use super::place::{Place, put_place};
use super::put::{put, put_byte, put_number, put_refusal, put_row};
use datapath::RuleName;
use refusal::Refusal;
use sides::Sides;
use std::alloc::AllocError;
use switch::Totals;

// What one switch answers to a call that it accepts.
#[derive(Debug, Clone, Copy, PartialEq, Eq)]
pub enum Reply {
    Done,
    Count(u64),
    // bit p for port p
    Ports(u64),
}

// What one switch answers.
pub type Answer = Result<Reply, Refusal>;

// The word of the call that a line answers.
#[derive(Clone, Copy)]
pub enum Verb {
    Add,
    Remove,
    Count,
    Frame,
    Peek,
    Totals,
    Report,
}

// Room for a line: none of those below is longer.
const LONGEST: usize = 1024;

// A port of a set, behind a comma where a lower one is in the set.
fn put_port(out: &mut Vec<u8>, set: u64, port: u32)
    requires { (vec_len out.old + 4 ≤ vec_capacity out.old) × (port < 64) }
    ensures items { Appended out.old.items out.new.items (cond (none_lower set port) [] (codes ",") ++ decimal_text port) }
    ensures len { vec_len out.new ≤ vec_len out.old + 4 }
    ensures capacity { vec_capacity out.old ≤ vec_capacity out.new }
{
    if set % (1u64 << port) == 0 {
        put_byte(out, port as u8);
    } else {
        put(out, b",");
        put_byte(out, port as u8);
    }
}

// The ports of a set, with commas between, or none.
fn put_ports(out: &mut Vec<u8>, set: u64)
    requires { vec_len out.old + 256 ≤ vec_capacity out.old }
    ensures items { Appended out.old.items out.new.items (ports_text set) }
    ensures len { vec_len out.new ≤ vec_len out.old + 256 }
    ensures capacity { vec_capacity out.old ≤ vec_capacity out.new }
{
    if set == 0 {
        put(out, b"none");
        return;
    }
    let mut below = 0u32;
    while below < 64 && set >> below != 0 {
        let port = below + (set >> below).trailing_zeros();
        put_port(out, set, port);
        below = port + 1;
    }
}

// What one switch answers to a call that it accepts.
fn put_reply(out: &mut Vec<u8>, reply: Reply)
    requires { vec_len out.old + 262 ≤ vec_capacity out.old }
    ensures items { Appended out.old.items out.new.items (reply_text reply) }
    ensures len { vec_len out.new ≤ vec_len out.old + 262 }
    ensures capacity { vec_capacity out.old ≤ vec_capacity out.new }
{
    match reply {
        Reply::Done => put(out, b"ok"),
        Reply::Count(n) => {
            put(out, b"count=");
            put_number(out, n);
        }
        Reply::Ports(set) => {
            put(out, b"ports=");
            put_ports(out, set);
        }
    }
}

// What one switch answers.
fn put_said(out: &mut Vec<u8>, answer: Answer)
    requires { vec_len out.old + 262 ≤ vec_capacity out.old }
    ensures items { Appended out.old.items out.new.items (said_text answer) }
    ensures len { vec_len out.new ≤ vec_len out.old + 262 }
    ensures capacity { vec_capacity out.old ≤ vec_capacity out.new }
{
    match answer {
        Ok(reply) => put_reply(out, reply),
        Err(refusal) => put_refusal(out, refusal),
    }
}

// Whether both answer the same.
fn same(answers: &Sides<Answer>) -> bool
    ensures { result ≡ same_answer answers.now.a answers.now.b }
{
    answers.a == answers.b
}

// One answer where both are the same, else both.
fn put_both(out: &mut Vec<u8>, answers: Sides<Answer>)
    requires { vec_len out.old + 536 ≤ vec_capacity out.old }
    ensures items { Appended out.old.items out.new.items (both_text answers.a answers.b) }
    ensures len { vec_len out.new ≤ vec_len out.old + 536 }
    ensures capacity { vec_capacity out.old ≤ vec_capacity out.new }
{
    if same(&answers) {
        put_said(out, answers.a);
        return;
    }
    put(out, b"differ A=");
    put_said(out, answers.a);
    put(out, b" B=");
    put_said(out, answers.b);
}

fn put_verb(out: &mut Vec<u8>, verb: Verb)
    requires { vec_len out.old + 6 ≤ vec_capacity out.old }
    ensures items { Appended out.old.items out.new.items (verb_text verb) }
    ensures len { vec_len out.new ≤ vec_len out.old + 6 }
    ensures capacity { vec_capacity out.old ≤ vec_capacity out.new }
{
    match verb {
        Verb::Add => put(out, b"add"),
        Verb::Remove => put(out, b"remove"),
        Verb::Count => put(out, b"count"),
        Verb::Frame => put(out, b"frame"),
        Verb::Peek => put(out, b"peek"),
        Verb::Totals => put(out, b"totals"),
        Verb::Report => put(out, b"report"),
    }
}

// The place and the word that begin a line.
fn put_start(out: &mut Vec<u8>, place: Place, verb: Verb)
    requires { vec_len out.old + 50 ≤ vec_capacity out.old }
    ensures items { Appended out.old.items out.new.items (start_text place verb) }
    ensures len { vec_len out.new ≤ vec_len out.old + 50 }
    ensures capacity { vec_capacity out.old ≤ vec_capacity out.new }
{
    put_place(out, place);
    put(out, b" ");
    put_verb(out, verb);
    put(out, b": ");
}

// The line that answers a call, or nothing where there is no memory for it.
pub fn answer_line(
    page: &mut Page,
    place: Place,
    verb: Verb,
    answers: Sides<Answer>,
) -> Result<(), AllocError>
    ensures { page.new ≡ (if is_ok result then page.old ++ answer_line place verb answers.a answers.b else page.old) }
{
    let out = &mut page.text;
    out.reserve(LONGEST)?;
    put_start(out, place, verb);
    put_both(out, answers);
    put(out, b"\n");
    Ok(())
}

// The line that answers a call by a word of the caller's, or nothing where there is no memory for it.
pub fn word_line(
    page: &mut Page,
    place: Place,
    word: &str,
    answers: Sides<Answer>,
) -> Result<(), AllocError>
    ensures { page.new ≡ (if is_ok result then page.old ++ word_line place word.now answers.a answers.b else page.old) }
{
    let out = &mut page.text;
    out.reserve(LONGEST + word.len())?;
    put_place(out, place);
    put(out, b" ");
    put(out, word.as_bytes());
    put(out, b": ");
    put_both(out, answers);
    put(out, b"\n");
    Ok(())
}

// Whether both name the same ports.
fn name_same(answers: &Sides<Answer>) -> bool
    ensures { result ≡ same_ports answers.now.a answers.now.b }
{
    matches!(answers.a, Ok(Reply::Ports(_))) && same(answers)
}

// The depths at which A and B decided.
fn put_depths(out: &mut Vec<u8>, depths: Sides<u8>)
    requires { vec_len out.old + 18 ≤ vec_capacity out.old }
    ensures items { Appended out.old.items out.new.items (depths_text depths.a depths.b) }
    ensures len { vec_len out.new ≤ vec_len out.old + 18 }
    ensures capacity { vec_capacity out.old ≤ vec_capacity out.new }
{
    let Sides { a, b } = depths;
    put(out, b" depth=A:");
    put_byte(out, a);
    put(out, b",B:");
    put_byte(out, b);
}

// The ports of a frame, with the depths of both switches, or how the answers differ.
fn put_forwarded(out: &mut Vec<u8>, answers: Sides<Answer>, depths: Sides<u8>)
    requires { vec_len out.old + 554 ≤ vec_capacity out.old }
    ensures items { Appended out.old.items out.new.items (forwarded_text answers.a answers.b depths.a depths.b) }
    ensures len { vec_len out.new ≤ vec_len out.old + 554 }
    ensures capacity { vec_capacity out.old ≤ vec_capacity out.new }
{
    put_both(out, answers);
    if name_same(&answers) {
        put_depths(out, depths);
    }
}

// The line that answers a frame, or nothing where there is no memory for it.
pub fn frame_line(
    page: &mut Page,
    place: Place,
    answers: Sides<Answer>,
    depths: Sides<u8>,
) -> Result<(), AllocError>
    ensures { page.new ≡ (if is_ok result then page.old ++ frame_line place answers.a answers.b depths.a depths.b else page.old) }
{
    let out = &mut page.text;
    out.reserve(LONGEST)?;
    put_start(out, place, Verb::Frame);
    put_forwarded(out, answers, depths);
    put(out, b"\n");
    Ok(())
}

// The masks of A and B.
fn put_masks(out: &mut Vec<u8>, masks: &Sides<[u8; 36]>)
    requires { vec_len out.old + 155 ≤ vec_capacity out.old }
    ensures items { Appended out.old.items out.new.items (masks_text masks.now.a masks.now.b) }
    ensures len { vec_len out.new ≤ vec_len out.old + 155 }
    ensures capacity { vec_capacity out.old ≤ vec_capacity out.new }
{
    put(out, b" mask=A:");
    put_row(out, &masks.a);
    put(out, b",B:");
    put_row(out, &masks.b);
}

// The ports of a frame, with the masks of both switches, or how the answers differ.
fn put_peeked(out: &mut Vec<u8>, answers: Sides<Answer>, masks: &Sides<[u8; 36]>)
    requires { vec_len out.old + 691 ≤ vec_capacity out.old }
    ensures items { Appended out.old.items out.new.items (peeked_text answers.a answers.b masks.now.a masks.now.b) }
    ensures len { vec_len out.new ≤ vec_len out.old + 691 }
    ensures capacity { vec_capacity out.old ≤ vec_capacity out.new }
{
    put_both(out, answers);
    if name_same(&answers) {
        put_masks(out, masks);
    }
}

// The line that answers `peek`, or nothing where there is no memory for it.
pub fn peek_line(
    page: &mut Page,
    place: Place,
    answers: Sides<Answer>,
    masks: &Sides<[u8; 36]>,
) -> Result<(), AllocError>
    ensures { page.new ≡ (if is_ok result then page.old ++ peek_line place answers.a answers.b masks.now.a masks.now.b else page.old) }
{
    let out = &mut page.text;
    out.reserve(LONGEST)?;
    put_start(out, place, Verb::Peek);
    put_peeked(out, answers, masks);
    put(out, b"\n");
    Ok(())
}

// A rule by its table and its id.
fn put_rule(out: &mut Vec<u8>, name: RuleName)
    requires { vec_len out.old + 51 ≤ vec_capacity out.old }
    ensures items { Appended out.old.items out.new.items (rule_text name.table name.id) }
    ensures len { vec_len out.new ≤ vec_len out.old + 51 }
    ensures capacity { vec_capacity out.old ≤ vec_capacity out.new }
{
    let RuleName { table, id } = name;
    put(out, b"table=");
    put_number(out, u64::from(table));
    put(out, b" id=");
    put_number(out, u64::from(id));
    put(out, b" ");
}

// The line of a standing rule in a report, or nothing where there is no memory for it.
pub fn report_line(
    page: &mut Page,
    place: Place,
    name: RuleName,
    answers: Sides<Answer>,
) -> Result<(), AllocError>
    ensures { page.new ≡ (if is_ok result then page.old ++ report_line place name.table name.id answers.a answers.b else page.old) }
{
    let out = &mut page.text;
    out.reserve(LONGEST)?;
    put_start(out, place, Verb::Report);
    put_rule(out, name);
    put_both(out, answers);
    put(out, b"\n");
    Ok(())
}

// What one switch has counted.
fn put_counted(out: &mut Vec<u8>, totals: Totals)
    requires { vec_len out.old + 112 ≤ vec_capacity out.old }
    ensures items { Appended out.old.items out.new.items (counted_text totals) }
    ensures len { vec_len out.new ≤ vec_len out.old + 112 }
    ensures capacity { vec_capacity out.old ≤ vec_capacity out.new }
{
    put(out, b" frames=");
    put_number(out, totals.frames);
    put(out, b" depth1=");
    put_number(out, totals.depth1);
    put(out, b" depth2=");
    put_number(out, totals.depth2);
    put(out, b" deeper=");
    put_number(out, totals.deeper);
}

// The line that answers `totals`, or nothing where there is no memory for it.
pub fn totals_line(page: &mut Page, place: Place, totals: Sides<Totals>) -> Result<(), AllocError>
    ensures { page.new ≡ (if is_ok result then page.old ++ totals_line place totals.a totals.b else page.old) }
{
    let Sides { a, b } = totals;
    let out = &mut page.text;
    out.reserve(LONGEST)?;
    put_start(out, place, Verb::Totals);
    put(out, b"A");
    put_counted(out, a);
    put(out, b"; B");
    put_counted(out, b);
    put(out, b"\n");
    Ok(())
}
