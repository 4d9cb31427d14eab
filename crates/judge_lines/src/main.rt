// Reads each line as bytes in hexadecimal: one that is 0 for a thin house and else 1, five of a start, four of the day, four of the deals so far, then a morning. Prints the verdict.
#![tactic(auto)]

ghost use Rattle.std.specs.Prelude.{◌<◌};

use mornings::{Ends, Refusal, judge_morning, judge_start};
use octets::Word;
use std::io;
use texts::stages::Stage;

// The worth of a hexadecimal digit, 0 for others. So in `plain_lines`: a program can't use another, and the library's reader of hexadecimal ends with an error where this goes on.
fn digit(b: u8) -> u8
    ensures { result < 16 }
{
    match b {
        b'0'..=b'9' => b - b'0',
        b'a'..=b'f' => b - b'a' + 10,
        _ => 0,
    }
}

// The verdict on a line.
fn judge(bytes: &[u8]) -> Result<Ends, Refusal> {
    if bytes.len() < 14 {
        return Err(Refusal::NoMorning(bytes.len()));
    }
    let stage = if bytes[0] == 0 {
        Stage::Thin
    } else {
        Stage::All
    };
    let start = judge_start(&bytes[1..6])?;
    let day = u32::read(bytes, 6);
    let so_far = u32::read(bytes, 10);
    judge_morning(&bytes[14..], start, day, so_far, stage)
}

fn main(rt: HostRuntime) -> io::Result<()> {
    for line in rt.lines(rt.alloc()) {
        let line = line?;
        let mut bytes: Vec<u8> = Vec::new(rt.alloc());
        for pair in line.as_str().as_bytes().chunks_exact(2) {
            bytes.push(digit(pair[0]) * 16 + digit(pair[1]))?;
        }
        match judge(bytes.as_slice()) {
            Ok(Ends { deals, choices, .. }) => {
                println!(rt; "taken, {deals} deals, {choices} choices")?
            }
            Err(e) => println!(rt; "{e}")?,
        }
    }
    Ok(())
}
