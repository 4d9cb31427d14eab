// Reads a start and mornings from the files that are named, and prints what is paid on each day, and the refusal of each that is refused. With --time before them it reads all first, and prints one line alone: how long all mornings took, how many days and deals there are then, and the sum of all payments.
#![tactic(auto)]

ghost use Rattle.std.specs.Prelude.{◌≤◌};

use anyhow::{anyhow, bail};
use fixings::DAYS;
use mornings::payments::{PAYMENT, read_payment};
use mornings::{Start, judge_start};
use settlement::room::{DEALS, SLOT, WORK};
use settlement::{House, NotTaken};
use std::alloc::{AllocError, Global};
use std::env::Args;
use std::io::{BufWriter, Write};
use std::time::Instant;
use std::{env, fs, io};

// A house, and the memory that is lent to it. The same slices stand in `lent_lines`, just as long as it is told: a program can't use another.
#[derive(Drop)]
struct Memory {
    house: House,
    deals: Vec<u8>,
    rates: Vec<i64>,
    work: Vec<u64>,
    payments: Vec<u8>,
    sums: Vec<u8>,
}

// Makes it long enough for so many deals, with so many bytes each; the bytes that there are stay.
fn lengthen(bytes: &mut Vec<u8>, each: usize, deals: usize) -> Result<(), AllocError>
    requires small { each ≤ 16384 }
    requires few { deals ≤ 65536 }
{
    let n = bytes.len().max(each * deals);
    bytes.reserve_exact(n - bytes.len())?;
    bytes.resize(n, 0)
}

impl Memory {
    // A house with no deals, and what it is lent whatever comes.
    fn new(alloc: Global, start: Start) -> Result<Memory, AllocError> {
        let rates = DAYS * start.rates as usize;
        Ok(Memory {
            house: House::new(start),
            deals: Vec::new(alloc),
            rates: vec![in alloc; 0; rates]?,
            work: vec![in alloc; 0; WORK]?,
            payments: Vec::new(alloc),
            sums: Vec::new(alloc),
        })
    }

    // Room for a morning that wants more: for as many deals as it brings, as its first two bytes say, and then for a quarter more, so that the next ones find room. A payment for each deal and currency is always enough, and spares the house from counting pairs.
    fn make_room(&mut self, bytes: &[u8]) -> Result<(), AllocError> {
        let new = bytes
            .first_chunk::<2>()
            .map_or(0, |two| u16::from_le_bytes(*two) as usize);
        let wanted = self.house.deals as usize + new;
        let deals = (wanted + wanted / 4).min(DEALS);
        let paid = PAYMENT * self.house.start.currencies as usize;
        lengthen(&mut self.deals, SLOT, deals)?;
        lengthen(&mut self.payments, paid, deals)?;
        lengthen(&mut self.sums, paid, deals)
    }

    // Takes a morning: how many payments there are, or why it is not taken.
    fn take(&mut self, bytes: &[u8]) -> Result<usize, NotTaken> {
        self.house.take(
            bytes,
            self.deals.as_mut_slice(),
            self.rates.as_mut_slice(),
            self.work.as_mut_slice(),
            self.payments.as_mut_slice(),
            self.sums.as_slice(),
        )
    }

    // The same, with more memory where that is wanting: so a morning that is refused costs none. The payments are handed out, 13 bytes each.
    fn pay(&mut self, bytes: &[u8]) -> anyhow::Result<Result<&[u8], NotTaken>> {
        let mut taken = self.take(bytes);
        if let Err(NotTaken::TooShort(_)) = taken {
            self.make_room(bytes)?;
            taken = self.take(bytes);
        }
        Ok(match taken {
            Ok(count) => {
                let end = count.saturating_mul(PAYMENT);
                Ok(self.payments.get(..end).unwrap_or(&[]))
            }
            Err(e) => Err(e),
        })
    }
}

// The bytes of a file. So in `plain`: of what a file gives a library could promise nothing.
fn bytes_of(rt: &HostRuntime, name: &str) -> anyhow::Result<Vec<u8>> {
    match fs::read(rt, name) {
        Ok(bytes) => Ok(bytes),
        Err(e) => Err(anyhow!(format!(in rt.alloc(); "cannot read {name}: {e}")?)),
    }
}

// A morning: its payments, one to a line, or its refusal. A history prints its payments by the same loop: a struct for both, made only to be printed, would be no shorter.
fn morning(memory: &mut Memory, bytes: &[u8], out: &mut impl Write) -> anyhow::Result<()> {
    let day = memory.house.day;
    match memory.pay(bytes)? {
        Ok(payments) => {
            for bytes in payments.chunks_exact(PAYMENT) {
                let payment = read_payment(bytes, 0);
                writeln!(out, "day {day} {payment}")?;
            }
        }
        Err(e) => writeln!(out, "{e}")?,
    }
    Ok(())
}

// Mornings, one after the other. One that is refused is not done at all: the next is tried as the same day.
fn mornings(rt: &HostRuntime, start: Start, names: Args) -> anyhow::Result<()> {
    let mut memory = Memory::new(rt.alloc(), start)?;
    let mut out = BufWriter::new(rt.alloc(), io::writer(rt))?;
    for name in names {
        let bytes = bytes_of(rt, name.as_str())?;
        morning(&mut memory, bytes.as_slice(), &mut out)?;
        // What a morning came to is seen before the next file is waited for.
        out.flush()?;
    }
    Ok(())
}

// The start, and then the mornings. So in `plain`: what is done with each morning differs.
fn run(rt: &HostRuntime, first: &str, names: Args) -> anyhow::Result<()> {
    let bytes = bytes_of(rt, first)?;
    match judge_start(bytes.as_slice()) {
        Ok(start) => mornings(rt, start, names),
        Err(e) => Ok(println!(rt; "{e}")?),
    }
}

// Takes a morning: all that is paid on it, together, modulo 2^64; nothing where it is refused.
fn paid_on(memory: &mut Memory, bytes: &[u8]) -> anyhow::Result<u64> {
    let mut sum: u64 = 0;
    for bytes in memory.pay(bytes)?.unwrap_or(&[]).chunks_exact(PAYMENT) {
        sum = sum.wrapping_add(read_payment(bytes, 0).amount);
    }
    Ok(sum)
}

// Mornings after a start, with the clock, which counts the memory too. The sum is printed as a number with sign.
fn time_mornings(rt: &HostRuntime, start: Start, mornings: &[Vec<u8>]) -> anyhow::Result<()> {
    let began = Instant::now(rt)?;
    let mut memory = Memory::new(rt.alloc(), start)?;
    let mut sum: u64 = 0;
    for bytes in mornings {
        sum = sum.wrapping_add(paid_on(&mut memory, bytes.as_slice())?);
    }
    let ns = began.elapsed(rt)?.as_nanos();
    let House { day, deals, .. } = memory.house;
    let sum = sum.cast_signed();
    Ok(println!(rt; "{ns} ns, {day} days, {deals} deals, {sum}")?)
}

// The same as `run` with the clock: all files are read before.
fn time(rt: &HostRuntime, names: Args) -> anyhow::Result<()> {
    let mut files = Vec::new(rt.alloc());
    for name in names {
        files.push(bytes_of(rt, name.as_str())?)?;
    }
    let Some((first, mornings)) = files.split_first() else {
        return usage();
    };
    match judge_start(first.as_slice()) {
        Ok(start) => time_mornings(rt, start, mornings),
        Err(e) => Ok(println!(rt; "{e}")?),
    }
}

// How it is called.
fn usage() -> anyhow::Result<()> {
    bail!("usage: house [--time] START MORNING...")
}

fn main(rt: HostRuntime) -> anyhow::Result<()> {
    let mut names = env::args(&rt)?;
    let _program = names.next();
    match names.next() {
        None => usage(),
        Some(first) if first.as_str() == "--time" => time(&rt, names),
        Some(first) => run(&rt, first.as_str(), names),
    }
}
