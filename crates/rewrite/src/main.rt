// Reads a filed sheet from standard input and writes it to standard output without leading zeros. What is read and written is `sheet::rewrite`'s, by its
// contract.
#![tactic(auto)]

use std::io;

// Reading ends at the input's end, or when one byte more than the longest text is there, or when a read fails: the bytes read so far are the text.
// When a write fails the program stops writing, and says so by its exit status.
// These lines stand in `stablist` too: one function for both would take the function, its promise that the length fits, and the size of what is written.
fn main(rt: HostRuntime) -> io::Result<()> {
    let mut text = [0u8; sheet::MOST_READ];
    let size = print::read_full(&mut rt.stdin(), &mut text);
    let mut out = [0u8; sheet::REWRITTEN_CAPACITY];
    let length = sheet::rewrite(&text[..size], &mut out);
    rt.write_all(&out[..length])
}
