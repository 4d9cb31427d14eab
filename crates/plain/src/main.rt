// Reads a start and mornings from the files that are named, and prints what is paid on each day, worked out anew from all days so far, and the refusal of each that is refused.
#![tactic(auto)]

use anyhow::anyhow;
use history::{History, NotTaken};
use mornings::{Start, judge_start};
use std::env::Args;
use std::{env, fs};

// The bytes of a file. So in `house`: of what a file gives a library could promise nothing.
fn bytes_of(rt: &HostRuntime, name: &str) -> anyhow::Result<Vec<u8>> {
    match fs::read(rt, name) {
        Ok(bytes) => Ok(bytes),
        Err(e) => Err(anyhow!(format!(in rt.alloc(); "cannot read {name}: {e}")?)),
    }
}

// Mornings, one after the other. One that is refused is not done at all: the next is tried as the same day.
fn mornings(rt: &HostRuntime, start: Start, names: Args) -> anyhow::Result<()> {
    let mut history = History::new(rt.alloc(), start);
    for name in names {
        let bytes = bytes_of(rt, name.as_str())?;
        // The same match stands in `plain_lines`: a program can't use another, and of what is printed a library could promise nothing.
        match history.take(bytes.as_slice()) {
            Ok(()) => print!(rt; "{history}")?,
            Err(NotTaken::Refused(refusal)) => println!(rt; "{refusal}")?,
            Err(e) => return Err(anyhow!(format!(in rt.alloc(); "{e}")?)),
        }
    }
    Ok(())
}

// The start, and then the mornings. So in `house`: what is done with each morning differs.
fn run(rt: &HostRuntime) -> anyhow::Result<()> {
    let mut names = env::args(rt)?;
    let _program = names.next();
    let Some(name) = names.next() else {
        return Err(anyhow!(format!(in rt.alloc(); "usage: plain START MORNING...")?));
    };
    let bytes = bytes_of(rt, name.as_str())?;
    match judge_start(bytes.as_slice()) {
        Ok(start) => mornings(rt, start, names),
        Err(e) => Ok(println!(rt; "{e}")?),
    }
}

fn main(rt: HostRuntime) -> anyhow::Result<()> {
    run(&rt)
}
