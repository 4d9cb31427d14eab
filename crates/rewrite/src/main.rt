// Reads the text of a contract on standard input, of which one line feed at its end is no part, and prints it anew, or why and where it is refused.
#![tactic(auto)]

use std::io;
use std::io::Read;
use texts::nodes::Tree;
use texts::reader::Reading;
use texts::reading::read_part;
use texts::writing::write_contract;

// Prints a contract; a text of at most 8,192 bytes has room for it. So in `text_table`: of what is printed a library could promise nothing.
fn print_anew(rt: &HostRuntime, tree: &Tree) -> io::Result<()> {
    let mut out = [0u8; 8192];
    let Ok(n) = write_contract(tree, &mut out) else {
        return println!(rt; "not written");
    };
    rt.stdout().write_all(&out[0..n])?;
    println!(rt; "")
}

fn main(rt: HostRuntime) -> io::Result<()> {
    let mut bytes = Vec::new(rt.alloc());
    rt.stdin().read_to_end(&mut bytes)?;
    let text = bytes.strip_suffix(b"\n").unwrap_or(&bytes);
    let mut read = Reading::new();
    match read_part(text, 0, text.len(), 256, 64, &mut read) {
        Ok(()) => print_anew(&rt, &read.tree),
        Err(refusal) => println!(rt; "{refusal}"),
    }
}
