// Holds the reader to a table of frames whose fields another program read: docs/VECTORS.md says which.
#![tactic(auto)]

mod fields;
mod limits;
mod text;

use fields::Line;
use packet::Reader;
use std::io::{BufRead, BufReader};

// Where the table's reading stands: lines, frames, and frames that agree.
#[derive(Clone, Copy)]
struct Tally {
    lines: u64,
    frames: u64,
    agree: u64,
}

// One frame of the table: its in-port, its bytes in hex, and what is to be read.
fn agrees(line: Line<'_>, words: &[&str]) -> anyhow::Result<bool> {
    let Line { rt, number } = line;
    let [port_word, hex, said @ ..] = words else {
        println!(rt; "line {number}: an in-port and a frame are missing")?;
        return Ok(false);
    };
    let Ok(port) = port_word.parse::<u16>() else {
        println!(rt; "line {number}: {port_word} is no in-port")?;
        return Ok(false);
    };
    let Some(frame) = text::hex_bytes(rt.alloc(), hex)? else {
        println!(rt; "line {number}: the frame is not in hex")?;
        return Ok(false);
    };
    match Reader::open(port, frame.as_slice()) {
        Ok(reader) => line.same_fields(port_word, &reader, said),
        Err(fault) => line.same_refusal(fault, said),
    }
}

// A line of the table; an empty one and one that begins with # say nothing.
fn take_line(rt: &HostRuntime, tally: Tally, text: &str) -> anyhow::Result<Tally> {
    let lines = tally.lines.wrapping_add(1);
    if text.is_empty() || text.starts_with("#") {
        return Ok(Tally { lines, ..tally });
    }
    let words = text.split_whitespace().collect::<Vec<&str>>(rt.alloc())?;
    let agree = agrees(Line { rt, number: lines }, words.as_slice())?;
    Ok(Tally {
        lines,
        frames: tally.frames.wrapping_add(1),
        agree: tally.agree.wrapping_add(u64::from(agree)),
    })
}

fn run(rt: &HostRuntime) -> anyhow::Result<()> {
    limits::show(rt)?;
    let mut tally = Tally {
        lines: 0,
        frames: 0,
        agree: 0,
    };
    for line in BufReader::new(rt.alloc(), rt.stdin())?.lines(rt.alloc()) {
        tally = take_line(rt, tally, line?.as_str())?;
    }
    let frames = tally.frames;
    let agree = tally.agree;
    println!(rt; "{frames} frames, {agree} agree")?;
    Ok(())
}

fn main(rt: HostRuntime) -> anyhow::Result<()> {
    run(&rt)
}
