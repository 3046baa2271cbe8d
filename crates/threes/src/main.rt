// Walks through every list S(n,k) with n up to 8, by forward from place 0 to the last place, and counts the steps that change three entries of the array. A line has the
// numbers of one n, for k = 0 to n; 0 where there is no list. A step that changes more entries, or none, is told. `stdout` comes from another author's generator.
#![tactic(auto)]

use cursor::Cursor;
use std::io;
use std::io::Write;

// The longest permutations that are walked through.
const LONGEST: u64 = 8;

// How many of the steps from place 0 of S(n,k) to the last place change three entries.
fn count_threes<W: Write>(out: &mut W, n: u64, k: u64) -> io::Result<u64> {
    let mut step = Cursor::open(n, k);
    let mut threes = 0;
    for _place in 1..stirling::lookup(n, k) {
        step = step.cursor.forward();
        match step.answer.changed {
            1 | 2 => {}
            3 => threes += 1,
            changed => write!(out, "changed: {changed} ")?,
        }
    }
    Ok(threes)
}

// The line of n.
fn print_line<W: Write>(out: &mut W, n: u64) -> io::Result<()> {
    let threes = count_threes(out, n, 0)?;
    write!(out, "{threes}")?;
    for k in 1..=n {
        let threes = count_threes(out, n, k)?;
        write!(out, " {threes}")?;
    }
    writeln!(out)
}

fn main(rt: HostRuntime) -> io::Result<()> {
    let mut out = rt.stdout();
    for n in 0..=LONGEST {
        print_line(&mut out, n)?;
    }
    out.flush()
}
