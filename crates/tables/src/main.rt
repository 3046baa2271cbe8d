// Prints a line for each inversion table that `stdin` names, n and then the n entries, a byte each: the table, by way of its sequence and back; the sequence; and how many
// elements of the sequence are record lows. `stdout` comes from another author's generator.
#![tactic(auto)]

ghost use Rattle.std.specs.Prelude.{◌≡◌};
ghost use Rattle.inversion.specs.Table.{record_lows};

use print::Joined;
use std::io;
use std::io::Write;

// How many elements are below all before them.
fn record_lows(q: &[u8]) -> usize
    ensures { result ≡ record_lows q.now }
{
    let mut count = 0;
    // Above every byte, so that the first element is below it.
    let mut low = 256;
    for byte in q {
        let element = usize::from(*byte);
        if element < low {
            low = element;
            count += 1;
        }
    }
    count
}

// The line of a table of at most 20 entries.
fn print_table<W: Write>(out: &mut W, a: &[u8]) -> io::Result<()> {
    let n = a.len();
    if 20 < n {
        return Ok(());
    }
    let sequence = &mut [0u8; 20][..n];
    let table = &mut [0u8; 20][..n];
    // A refused call leaves the zeros, and they are printed.
    let _ = inversion::from_inversions(a, sequence);
    let _ = inversion::to_inversions(sequence, table);
    writeln!(
        out,
        "{} | {} | {}",
        Joined(table, " "),
        Joined(sequence, " "),
        record_lows(sequence)
    )
}

fn main(rt: HostRuntime) -> io::Result<()> {
    // Not shared with the other programs that read records: the size is in the array's type, and a function for all would take it, `split` and `each`.
    let mut text = [0u8; 4096];
    let size = print::read_full(&mut rt.stdin(), &mut text);
    let mut out = rt.stdout();
    print::each_record(
        &text[..size],
        print::split_row,
        |a| print_table(&mut out, a),
    )?;
    out.flush()
}
