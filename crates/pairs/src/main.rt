// Prints a line for each two permutations that `stdin` names, n and then the n values of the one and of the other, a byte each: both, and the pairs of positions
// whose values are exchanged to turn the one into the other. `stdout` comes from another author's generator.
#![tactic(auto)]

use print::{Joined, Pairs};
use std::io;
use std::io::Write;

// The two permutations at the front of a text, and what stands after them.
fn split_two(text: &[u8]) -> Option<((&[u8], &[u8]), &[u8])> {
    let (from, rest) = print::split_row(text)?;
    let (to, rest) = rest.split_at_checked(from.len())?;
    Some(((from, to), rest))
}

// The line of two permutations.
fn print_exchanges<W: Write>(out: &mut W, from: &[u8], to: &[u8]) -> io::Result<()> {
    let mut list = [0u8; 38];
    let written = exchanges::between(from, to, &mut list).map_or(0, |answer| answer.written);
    let pairs = &list[..written as usize];
    writeln!(
        out,
        "{} | {} | {}",
        Joined(from, " "),
        Joined(to, " "),
        Pairs(pairs)
    )
}

fn main(rt: HostRuntime) -> io::Result<()> {
    // Not shared with the other programs that read records: the size is in the array's type, and a function for all would take it, `split` and `each`.
    let mut text = [0u8; 12288];
    let size = print::read_full(&mut rt.stdin(), &mut text);
    let mut out = rt.stdout();
    print::each_record(&text[..size], split_two, |(from, to)| {
        print_exchanges(&mut out, from, to)
    })?;
    out.flush()
}
