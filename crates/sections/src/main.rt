// Tries the bounds of sections at their edges. First openings, for n up to 7 and n = 20 and 21 with every k up to n + 1: each end at 0, at the last place, one past it,
// at 2^63 and at 2^64 - 1. A line has n, k and the ends, the refusal, and the record that is handed back. Then records, for n up to 4: every place of every list, with
// every two bounds from 0 to one past the list, 2^63 and 2^64 - 1. A line has n, k, the place and the bounds, and what show, forward, back and each jump give: the refusal,
// and after a dot the place of the record that is handed back. `stdout` is written by a model in another language, from another author's lists.
#![tactic(auto)]

ghost use Rattle.std.specs.Prelude.{◌≤◌, length};

use cursor::{Cursor, Step};
use print::Spaced;
use std::io;
use std::io::Write;

// Bounds that are past every list.
const LARGE: [u64; 2] = [1 << 63, u64::MAX];

// The longest list whose records are tried.
const LONG: u64 = 24;

// The ends to try on a list of so many rows.
fn ends_of(count: u64) -> [u64; 5] {
    let last = count.wrapping_sub(1);
    [0, last, count, LARGE[0], LARGE[1]]
}

// The bytes up to the last that is not 0.
fn filled(list: &[u8]) -> Spaced<'_>
    ensures { length result.0.now ≤ length list.now }
{
    match list.iter().rposition(|byte| *byte != 0) {
        Some(last) => Spaced(&list[..=last]),
        None => Spaced(&[]),
    }
}

// n, k, the place and the bounds of a record.
fn print_numbers<W: Write>(out: &mut W, w: Cursor) -> io::Result<()> {
    write!(
        out,
        "{} {} {} {} {}",
        w.n, w.k, w.place, w.lowest, w.highest
    )
}

// An opening, and what it hands back.
fn print_opening<W: Write>(
    out: &mut W,
    n: u64,
    k: u64,
    lowest: u64,
    highest: u64,
) -> io::Result<()> {
    let step = Cursor::open_section(n, k, lowest, highest);
    let w = step.cursor;
    write!(
        out,
        "{n} {k} {lowest} {highest} | {} | ",
        step.answer.refusal
    )?;
    print_numbers(out, w)?;
    writeln!(out, " |{} |{}", filled(&w.perm), filled(&w.array))
}

// Openings on S(n,k) from a lowest place, the highest at each of the ends.
fn try_highest_ends<W: Write>(
    out: &mut W,
    n: u64,
    k: u64,
    lowest: u64,
    ends: [u64; 5],
) -> io::Result<()> {
    for highest in ends {
        print_opening(out, n, k, lowest, highest)?;
    }
    Ok(())
}

// The same with the lowest place at each of the ends.
fn try_ends<W: Write>(out: &mut W, n: u64, k: u64) -> io::Result<()> {
    let ends = ends_of(stirling::lookup(n, k));
    for lowest in ends {
        try_highest_ends(out, n, k, lowest, ends)?;
    }
    Ok(())
}

// What a call on a record gave; bounds that are not the record's any more are told.
fn print_outcome<W: Write>(out: &mut W, w: Cursor, step: Step) -> io::Result<()> {
    write!(out, " {}.{}", step.answer.refusal, step.cursor.place)?;
    if step.cursor.lowest != w.lowest || step.cursor.highest != w.highest {
        write!(out, " lost")?;
    }
    Ok(())
}

// Jumps on a record of a list of so many rows.
fn try_jumps<W: Write>(out: &mut W, w: Cursor, count: u64) -> io::Result<()> {
    for place in (0..=count).chain(LARGE) {
        print_outcome(out, w, w.jump(place))?;
    }
    Ok(())
}

// Every call on such a record.
fn try_calls<W: Write>(out: &mut W, w: Cursor, count: u64) -> io::Result<()> {
    print_numbers(out, w)?;
    write!(out, " |")?;
    print_outcome(out, w, w.show())?;
    print_outcome(out, w, w.forward())?;
    print_outcome(out, w, w.back())?;
    write!(out, " |")?;
    try_jumps(out, w, count)?;
    writeln!(out)
}

// Such a record with one lowest place and every highest.
fn try_highest<W: Write>(out: &mut W, w: Cursor, count: u64, lowest: u64) -> io::Result<()> {
    for highest in (0..=count).chain(LARGE) {
        try_calls(
            out,
            Cursor {
                lowest,
                highest,
                ..w
            },
            count,
        )?;
    }
    Ok(())
}

// The same with every lowest place.
fn try_bounds<W: Write>(out: &mut W, w: Cursor, count: u64) -> io::Result<()> {
    for lowest in (0..=count).chain(LARGE) {
        try_highest(out, w, count, lowest)?;
    }
    Ok(())
}

// The same for every place of S(n,k).
fn try_places<W: Write>(out: &mut W, n: u64, k: u64) -> io::Result<()> {
    let count = stirling::lookup(n, k);
    if count > LONG {
        return Ok(());
    }
    for place in 0..count {
        try_bounds(out, Cursor::open(n, k).cursor.jump(place).cursor, count)?;
    }
    Ok(())
}

fn main(rt: HostRuntime) -> io::Result<()> {
    let mut out = rt.stdout();
    // Saturating, since a sum in a closure must fit for every n that it may be called with.
    let cycles = |n: u64| 0..=n.saturating_add(1);
    print::each_list(&mut out, 0..=7, &cycles, try_ends)?;
    print::each_list(&mut out, 20..=21, &cycles, try_ends)?;
    print::each_list(&mut out, 0..=4, &cycles, try_places)?;
    out.flush()
}
