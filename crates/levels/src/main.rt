// Prints a line for each permutation that `stdin` names, n and then its n values, a byte each: the permutation, its k and place, and the rows that explain the place,
// from n down to 1: letter, block, reading, rows before. `stdout` comes from another author's generator.
#![tactic(auto)]

use explain::Level;
use print::Joined;
use std::io::Write;
use std::{fmt, io};

// Rows as they are printed, semicolons between.
#[derive(Drop)]
struct Rows<'a>(&'a [Level]);

impl fmt::Display for Rows<'_> {
    fn fmt<W: fmt::Write>(&self, f: &mut fmt::Formatter<W>) -> fmt::Result {
        for (at, row) in self.0.iter().enumerate() {
            if at > 0 {
                f.write_str("; ")?;
            }
            // with the spaces round it, since each piece of text is a write of its own
            let reading = if row.backward {
                " backward "
            } else {
                " forward "
            };
            write!(
                f,
                "{} {}{reading}{}",
                char::from(row.letter),
                row.block,
                row.before
            )?;
        }
        Ok(())
    }
}

// The line of a permutation.
fn print_explained<W: Write>(out: &mut W, s: &[u8]) -> io::Result<()> {
    write!(out, "{} | ", Joined(s, " "))?;
    match explain::explain(s, s.len()) {
        Ok(explained) => writeln!(
            out,
            "{} {} | {}",
            explained.k,
            explained.place,
            Rows(&explained.rows[..explained.count])
        ),
        Err(_) => writeln!(out, "0 0 | "),
    }
}

fn main(rt: HostRuntime) -> io::Result<()> {
    // Not shared with the other programs that read records: the size is in the array's type, and a function for all would take it, `split` and `each`.
    let mut text = [0u8; 8192];
    let size = print::read_full(&mut rt.stdin(), &mut text);
    let mut out = rt.stdout();
    print::each_record(&text[..size], print::split_row, |s| {
        print_explained(&mut out, s)
    })?;
    out.flush()
}
