// Books from lines, as `plain` prints them: a line that begins with 00 is a start, one that begins with 01 a morning, each with its bytes in hexadecimal behind that; others are printed as they are.
#![tactic(auto)]

ghost use Rattle.std.specs.Prelude.{◌<◌};

use anyhow::anyhow;
use history::{History, NotTaken};
use mornings::{Start, judge_start};
use std::alloc::AllocError;

// The worth of a hexadecimal digit, 0 for others. So in `judge_lines`: a program can't use another, and the library's reader of hexadecimal ends with an error where this goes on.
fn digit(b: u8) -> u8
    ensures { result < 16 }
{
    match b {
        b'0'..=b'9' => b - b'0',
        b'a'..=b'f' => b - b'a' + 10,
        _ => 0,
    }
}

// The bytes that a text stands for, two digits each; of an odd last digit nothing.
fn bytes_of(rt: &HostRuntime, text: &str) -> Result<Vec<u8>, AllocError> {
    let mut bytes = Vec::new(rt.alloc());
    for pair in text.as_bytes().chunks_exact(2) {
        bytes.push(digit(pair[0]) * 16 + digit(pair[1]))?;
    }
    Ok(bytes)
}

// A morning: what is paid, or its refusal, as `plain` prints them, by the same match: of what is printed a library could promise nothing.
fn morning(rt: &HostRuntime, history: &mut History, bytes: &[u8]) -> anyhow::Result<()> {
    match history.take(bytes) {
        Ok(()) => print!(rt; "{history}")?,
        Err(NotTaken::Refused(refusal)) => println!(rt; "{refusal}")?,
        Err(e) => return Err(anyhow!(format!(in rt.alloc(); "{e}")?)),
    }
    Ok(())
}

// A new history, from a start; one that is refused has no houses.
fn begin(rt: &HostRuntime, bytes: &[u8]) -> anyhow::Result<History> {
    let start = match judge_start(bytes) {
        Ok(start) => start,
        Err(e) => {
            println!(rt; "{e}")?;
            Start::default()
        }
    };
    Ok(History::new(rt.alloc(), start))
}

// A line: a start, a morning, or something else.
fn line(rt: &HostRuntime, history: &mut History, text: &str) -> anyhow::Result<()> {
    if let Some(start) = text.strip_prefix("00") {
        let bytes = bytes_of(rt, start)?;
        *history = begin(rt, bytes.as_slice())?;
    } else if let Some(day) = text.strip_prefix("01") {
        let bytes = bytes_of(rt, day)?;
        morning(rt, history, bytes.as_slice())?;
    } else {
        println!(rt; "{text}")?;
    }
    Ok(())
}

fn main(rt: HostRuntime) -> anyhow::Result<()> {
    let mut history = begin(&rt, &[0; 5])?;
    for text in rt.lines(rt.alloc()) {
        let text = text?;
        line(&rt, &mut history, text.as_str())?;
    }
    Ok(())
}
