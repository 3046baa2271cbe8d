// Pages through lists by a cursor and prints a line for each place met: n, k and the place, the permutation, its transposition array, and the three
// positions of the step that the cursor makes from there. First every list for n up to 7, forward past its end to place 0; then every list for n up to 5, back
// past its start and round to place 0; then jumps about the lists for n = 6; then a jump to the end of each list for n from 8 to 20 and one to its beginning;
// then jumps to the random places that `stdin` names, ten bytes each: n, k and the place, its highest byte first. `stdout` comes from another author's
// generator, and the step from the last row of a list is that to the first, by their values.
#![tactic(auto)]

use cursor::{Answer, Cursor, Step};
use print::{Named, Spaced};
use std::io;
use std::io::{Read, Write};

// The first n bytes, and none where there are fewer.
fn first(list: &[u8], n: u64) -> Spaced<'_> {
    Spaced(list.get(..n as usize).unwrap_or(&[]))
}

// The line of a cursor, with a step's three positions.
fn print_line<W: Write>(out: &mut W, w: Cursor, to: Answer) -> io::Result<()> {
    let shown = w.show().answer;
    writeln!(
        out,
        "{} {} {} |{} |{} | {} {} {}",
        w.n,
        w.k,
        shown.place,
        first(&shown.perm, w.n),
        first(&shown.array, w.n),
        to.i,
        to.j,
        to.l
    )
}

// The line of a cursor, and the cursor after the step.
fn print_step<W: Write, S: Fn(Cursor) -> Step>(
    out: &mut W,
    w: Cursor,
    make_step: S,
) -> io::Result<Cursor>
    requires { S.IsAlwaysCallable make_step }
{
    let step = make_step(w);
    print_line(out, w, step.answer)?;
    Ok(step.cursor)
}

// Through S(n,k) from place 0 by as many steps as it has rows, and one step more.
fn page_through<W: Write, S: Fn(Cursor) -> Step>(
    out: &mut W,
    n: u64,
    k: u64,
    make_step: S,
) -> io::Result<()>
    requires { S.IsAlwaysCallable make_step }
{
    let mut w = Cursor::open(n, k).cursor;
    for _ in 0..=stirling::lookup(n, k) {
        w = print_step(out, w, &make_step)?;
    }
    Ok(())
}

// At most 40 jumps about S(n,k).
fn jump_about<W: Write>(out: &mut W, n: u64, k: u64) -> io::Result<()> {
    let rows = stirling::lookup(n, k);
    let w = Cursor::open(n, k).cursor;
    for turn in 0..rows.min(40) {
        print_step(out, w.jump((3 + 7 * turn) % rows).cursor, Cursor::forward)?;
    }
    Ok(())
}

// A jump to the end of S(n,k) and one to its beginning.
fn jump_to_ends<W: Write>(out: &mut W, n: u64, k: u64) -> io::Result<()> {
    let w = Cursor::open(n, k).cursor;
    let rows = stirling::lookup(n, k);
    if rows > 0 {
        let end = w.jump(rows - 1).cursor;
        print_step(out, end, Cursor::forward)?;
        print_step(out, end.jump(0).cursor, Cursor::forward)?;
    }
    Ok(())
}

// A jump to a place that is named. Of one of 2^63 or more the last byte is left out, so that every place is below 2^63.
fn jump_to<W: Write>(out: &mut W, named: Named) -> io::Result<()> {
    let Named { n, k, place } = named;
    let w = Cursor::open(u64::from(n), u64::from(k)).cursor;
    let place = if place < 1 << 63 { place } else { place / 256 };
    print_step(out, w.jump(place).cursor, Cursor::forward)?;
    Ok(())
}

// Jumps to the places that standard input names.
fn jump_to_samples<R: Read, W: Write>(input: &mut R, out: &mut W) -> io::Result<()> {
    let mut text = [0u8; 10000];
    let size = print::read_full(input, &mut text);
    print::each_record(
        &text[..size],
        print::split_named,
        |named| jump_to(out, named),
    )
}

fn main(rt: HostRuntime) -> io::Result<()> {
    let mut out = rt.stdout();
    let cycles = |n| 1..=n;
    print::each_list(&mut out, 1..=7, &cycles, |out, n, k| {
        page_through(out, n, k, Cursor::forward)
    })?;
    print::each_list(&mut out, 1..=5, &cycles, |out, n, k| {
        page_through(out, n, k, Cursor::back)
    })?;
    print::each_list(&mut out, 6..=6, &cycles, jump_about)?;
    print::each_list(&mut out, 8..=20, &cycles, jump_to_ends)?;
    jump_to_samples(&mut rt.stdin(), &mut out)?;
    out.flush()
}
