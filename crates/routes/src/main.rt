// Prints a line for each permutation that `stdin` names, n and then the n values, a byte each: the permutation, and the moves that lead to it from the identity; and where the
// check does not say yes to them, that. `stdout` comes from another author's generator.
#![tactic(auto)]

use print::{Joined, Pairs};
use std::io;
use std::io::Write;

// The line of a permutation.
fn print_line<W: Write>(out: &mut W, s: &[u8]) -> io::Result<()> {
    let mut list = [0u8; 60];
    let count = moves::list(s, &mut list).unwrap_or(0);
    let moves = &list[..2 * count as usize];
    write!(out, "{} | {}", Joined(s, " "), Pairs(moves))?;
    if !moves::check(s, moves).unwrap_or(false) {
        write!(out, " not valid")?;
    }
    writeln!(out)
}

fn main(rt: HostRuntime) -> io::Result<()> {
    // Not shared with the other programs that read records: the size is in the array's type, and a function for all would take it, `split` and `each`.
    let mut text = [0u8; 4096];
    let size = print::read_full(&mut rt.stdin(), &mut text);
    let mut out = rt.stdout();
    print::each_record(&text[..size], print::split_row, |s| print_line(&mut out, s))?;
    out.flush()
}
