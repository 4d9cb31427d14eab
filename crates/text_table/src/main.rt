// Reads each line as the text of a contract, with 256 rates and 64 currencies, and prints it anew, or why and where it is refused.
#![tactic(auto)]

use std::io;
use std::io::{BufRead, BufReader};
use texts::nodes::Tree;
use texts::reader::Reading;
use texts::reading::read_part;
use texts::writing::write_contract;

// Prints a contract. So in `rewrite`.
fn print_anew(rt: &HostRuntime, tree: &Tree) -> io::Result<()> {
    let mut out = [0u8; 8192];
    let Ok(n) = write_contract(tree, &mut out) else {
        return println!(rt; "not written");
    };
    rt.stdout().write_all(&out[0..n])?;
    println!(rt; "")
}

fn print_verdict(rt: &HostRuntime, text: &[u8]) -> io::Result<()> {
    let mut read = Reading::new();
    match read_part(text, 0, text.len(), 256, 64, &mut read) {
        Ok(()) => print_anew(rt, &read.tree),
        Err(refusal) => println!(rt; "{refusal}"),
    }
}

fn main(rt: HostRuntime) -> io::Result<()> {
    for line in BufReader::new(rt.alloc(), rt.stdin())?.lines(rt.alloc()) {
        let line = line?;
        print_verdict(&rt, line.as_str().as_bytes())?;
    }
    Ok(())
}
