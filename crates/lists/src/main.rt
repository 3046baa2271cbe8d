// Prints every list S(n,k) for n up to 7, a row to a line: n, k and the place, the permutation, its transposition array. A row is what unrank writes for its
// place, and the k and the place that are printed are what rank finds for that row. `stdout` comes from another author's generator.
#![tactic(auto)]

ghost use Rattle.std.specs.Prelude.{◌≤◌};

use print::Spaced;
use rank::Stand;
use std::io;
use std::io::Write;

// The line of the row at a place.
fn print_row<W: Write>(out: &mut W, n: u64, k: u64, place: u64) -> io::Result<()>
    requires { n ≤ 7 }
{
    let row = &mut [0u8; 7][..n as usize];
    let array = &mut [0u8; 7][..n as usize];
    // No call is refused: k is from 1 to n, and the place below the count. Not `unwrap`, since nothing is asked of k and the place here, so that the proof does not know it.
    let _ = rank::unrank(n, k, place, row);
    let _ = perm::to_array(row, array);
    let Ok(Stand { k, place, .. }) = rank::rank(row) else {
        return Ok(());
    };
    writeln!(out, "{n} {k} {place} |{} |{}", Spaced(row), Spaced(array))
}

// The rows of S(n,k).
fn print_list<W: Write>(out: &mut W, n: u64, k: u64) -> io::Result<()>
    requires { n ≤ 7 }
{
    for place in 0..stirling::lookup(n, k) {
        print_row(out, n, k, place)?;
    }
    Ok(())
}

// The lists for n. Not by `print::each_list`: it may call what it is handed with every n, and a row here has room for seven values.
fn print_lists<W: Write>(out: &mut W, n: u64) -> io::Result<()>
    requires { n ≤ 7 }
{
    for k in 1..=n {
        print_list(out, n, k)?;
    }
    Ok(())
}

fn main(rt: HostRuntime) -> io::Result<()> {
    let mut out = rt.stdout();
    for n in 1..=7 {
        print_lists(&mut out, n)?;
    }
    out.flush()
}
