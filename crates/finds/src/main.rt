// Prints a line for each search that `stdin` names, n, k, a place in eight bytes, its highest byte first, and n wishes, a byte each: n, k and the place, the wishes, and the place found and
// its permutation, or the refusal. `stdout` comes from another author's generator.
#![tactic(auto)]

use print::{Joined, Named};
use std::io;
use std::io::Write;

// A search: the place from which on it is made, and the wishes.
#[derive(Drop)]
struct Search<'a> {
    from: Named,
    pattern: &'a [u8],
}

// The search at the front of a text, and what stands after it. A search for no wishes is read only where a byte stands after it.
fn split_search(text: &[u8]) -> Option<(Search<'_>, &[u8])> {
    let (from, rest) = print::split_named(text)?;
    if rest.is_empty() {
        return None;
    }
    let (pattern, rest) = rest.split_at_checked(usize::from(from.n))?;
    Some((Search { from, pattern }, rest))
}

// The line of a search, of at most 20 wishes.
fn print_search<W: Write>(out: &mut W, search: Search<'_>) -> io::Result<()> {
    let Named { n, k, place } = search.from;
    let pattern = search.pattern;
    let mut space = [0u8; 20];
    let Some(row) = space.get_mut(..pattern.len()) else {
        return Ok(());
    };
    let found = find::find(u64::from(n), u64::from(k), place, pattern, row);
    write!(out, "{n} {k} {place} | {} | ", Joined(pattern, " "))?;
    match found {
        Ok(place) => writeln!(out, "{place} | {}", Joined(row, " ")),
        Err(refusal) => writeln!(out, "refused {}", refusal.number()),
    }
}

fn main(rt: HostRuntime) -> io::Result<()> {
    // Not shared with the other programs that read records: the size is in the array's type, and a function for all would take it, `split` and `each`.
    let mut text = [0u8; 32768];
    let size = print::read_full(&mut rt.stdin(), &mut text);
    let mut out = rt.stdout();
    print::each_record(&text[..size], split_search, |search| {
        print_search(&mut out, search)
    })?;
    out.flush()
}
