// Books of a house over lent slices, one to a line, in words. A word with commas says how long the slices are from then on: deals, rates, work, payments and sums, rates and work in words of eight bytes; behind these five comes the pattern that fills what is new. A word with @ puts bytes in hexadecimal at a place of the deals. Of the others, in hexadecimal, the first is a start and each behind it a morning. Prints what each morning is answered, and whether all is as it was that must be. Lines that begin with # are printed as they are.
#![tactic(auto)]

use mornings::judge_start;
use mornings::payments::PAYMENT;
use settlement::House;
use std::alloc::{AllocError, Global};

// The lent slices. So in `house`, where they grow.
#[derive(Clone, PartialEq, Drop)]
struct Lent {
    deals: Vec<u8>,
    rates: Vec<i64>,
    work: Vec<u64>,
    payments: Vec<u8>,
    sums: Vec<u8>,
}

// What stands at a place before anything is written there.
fn filling(pattern: usize, at: usize) -> u64 {
    (at as u64)
        .wrapping_add(pattern as u64)
        .wrapping_mul(0x9e37_79b9_7f4a_7c15)
}

// Makes it just n long: what there is stays as far as there is room for it, and what is new is made by its place.
fn fit<T: Drop, F: Fn(usize) -> T>(items: &mut Vec<T>, n: usize, make: F) -> Result<(), AllocError>
    requires { F.IsAlwaysCallable make }
{
    items.truncate(n);
    for at in items.len()..n {
        items.push(make(at))?;
    }
    Ok(())
}

// The number k of a list, 0 where there is none.
fn number(list: &str, k: usize) -> usize {
    list.split(',')
        .nth(k)
        .and_then(|text| text.parse::<usize>().ok())
        .unwrap_or(0)
}

impl Lent {
    // None of them holds anything.
    fn new(alloc: Global) -> Lent {
        Lent {
            deals: Vec::new(alloc),
            rates: Vec::new(alloc),
            work: Vec::new(alloc),
            payments: Vec::new(alloc),
            sums: Vec::new(alloc),
        }
    }

    // Makes them just so long.
    fn fit(&mut self, lengths: &str) -> Result<(), AllocError> {
        let pattern = number(lengths, 5);
        let byte = |at| (filling(pattern, at) >> 56) as u8;
        let rate = |at| filling(pattern, at).cast_signed();
        let word = |at| filling(pattern, at);
        fit(&mut self.deals, number(lengths, 0), byte)?;
        fit(&mut self.rates, number(lengths, 1), rate)?;
        fit(&mut self.work, number(lengths, 2), word)?;
        fit(&mut self.payments, number(lengths, 3), byte)?;
        fit(&mut self.sums, number(lengths, 4), byte)
    }

    // Puts bytes at a place of the deals, as far as there is room for them.
    fn put(&mut self, place: usize, bytes: &[u8]) {
        for (byte, new) in self.deals.iter_mut().skip(place).zip(bytes) {
            *byte = *new;
        }
    }
}

// Whether nothing has changed, in words.
fn kept(same: bool) -> &'static str {
    if same { "as it was" } else { "changed" }
}

// A morning: how many payments there are and their bytes, and whether those behind them are as they were; or why it is not taken, and whether all is as it was.
fn morning(
    rt: &HostRuntime,
    house: &mut House,
    lent: &mut Lent,
    bytes: &[u8],
) -> anyhow::Result<()> {
    let before = lent.clone()?;
    let House { day, deals, .. } = *house;
    let taken = house.take(
        bytes,
        lent.deals.as_mut_slice(),
        lent.rates.as_mut_slice(),
        lent.work.as_mut_slice(),
        lent.payments.as_mut_slice(),
        lent.sums.as_slice(),
    );
    match taken {
        Ok(count) => {
            let end = count.saturating_mul(PAYMENT);
            let paid = hex::encode(rt.alloc(), lent.payments.get(..end).unwrap_or(&[]))?;
            let rest = kept(lent.payments.get(end..) == before.payments.get(end..));
            println!(rt; "{count} paid {paid}, the rest {rest}")?;
        }
        Err(e) => {
            // A house has no `==`, which one test alone would need; no call writes its start.
            let same = house.day == day && house.deals == deals;
            let all = kept(same && *lent == before);
            println!(rt; "{e}, all {all}")?;
        }
    }
    Ok(())
}

// A book: its words in order.
fn book(rt: &HostRuntime, text: &str) -> anyhow::Result<()> {
    let mut lent = Lent::new(rt.alloc());
    let mut house: Option<House> = None;
    for word in text.split_whitespace() {
        if word.contains(',') {
            lent.fit(word)?;
            continue;
        }
        if let Some((place, text)) = word.split_once('@') {
            lent.put(number(place, 0), hex::decode(rt.alloc(), text)?.as_slice());
            continue;
        }
        let bytes = hex::decode(rt.alloc(), word)?;
        match &mut house {
            Some(house) => morning(rt, house, &mut lent, bytes.as_slice())?,
            None => match judge_start(bytes.as_slice()) {
                Ok(start) => house = Some(House::new(start)),
                Err(e) => println!(rt; "{e}")?,
            },
        }
    }
    Ok(())
}

fn main(rt: HostRuntime) -> anyhow::Result<()> {
    for line in rt.lines(rt.alloc()) {
        let line = line?;
        if line.as_str().starts_with('#') {
            println!(rt; "{}", line.as_str())?;
        } else {
            book(&rt, line.as_str())?;
        }
    }
    Ok(())
}
