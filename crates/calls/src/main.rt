// Makes lists of calls on a cursor, one to a line of standard input, and prints each line with the whole record and the whole answer that the call hands back,
// padding included. `open n k`, or `open n k lowest highest`, begins a list; then `forward`, `back`, `jump place` and `show`, each on the record that the line before handed back. `stdout` comes
// from another author's generator, and `stdin` is the calls in it.
#![tactic(auto)]

use cursor::{Answer, Cursor, Step};
use print::Joined;
use std::io;
use std::io::Write;

// A number with one more digit is read up to here, so that it fits.
const LARGE: u64 = 1000000000000000000;

// Every field of a record.
fn print_cursor<W: Write>(out: &mut W, w: Cursor) -> io::Result<()> {
    write!(
        out,
        "{} {} {} {} {} {} {}",
        w.n,
        w.k,
        w.place,
        w.lowest,
        w.highest,
        Joined(&w.perm, "."),
        Joined(&w.array, ".")
    )
}

// Every field of an answer.
fn print_answer<W: Write>(out: &mut W, to: Answer) -> io::Result<()> {
    write!(
        out,
        "{} {} {} {} {} {} {} {} {}",
        to.refusal,
        to.i,
        to.j,
        to.l,
        to.changed,
        to.place,
        Joined(&to.perm, "."),
        Joined(&to.array, "."),
        to.fixed
    )
}

// A number with one more digit; any other byte, and a digit too many, leaves it as it is.
// Not by parse: that takes a text and refuses one with any other byte in it, or with a digit too many.
fn with_digit(value: u64, byte: u8) -> u64 {
    if value >= LARGE || !byte.is_ascii_digit() {
        return value;
    }
    value * 10 + u64::from(byte - b'0')
}

// The number that stands after the first, the second, … space of a line; 0 where none does.
fn number_after(line: &[u8], space: usize) -> u64 {
    let field = line.split(|byte| *byte == b' ').nth(space).unwrap_or(&[]);
    field.iter().fold(0, |value, byte| with_digit(value, *byte))
}

// The open that a line asks for: of a section if it names more than n and k.
fn make_opening(line: &[u8]) -> Step {
    let n = number_after(line, 1);
    let k = number_after(line, 2);
    if line.iter().filter(|byte| **byte == b' ').count() > 2 {
        return Cursor::open_section(n, k, number_after(line, 3), number_after(line, 4));
    }
    Cursor::open(n, k)
}

// The call that a line asks for, by its first letter.
fn make_call(w: Cursor, line: &[u8]) -> Step {
    match line.first() {
        Some(b'o') => make_opening(line),
        Some(b'f') => w.forward(),
        Some(b'b') => w.back(),
        Some(b'j') => w.jump(number_after(line, 1)),
        _ => w.show(),
    }
}

// Makes the call of a line and prints what it hands back.
fn print_call<W: Write>(out: &mut W, w: Cursor, line: &[u8]) -> io::Result<Cursor> {
    let step = make_call(w, line);
    out.write_all(line)?;
    write!(out, " | ")?;
    print_cursor(out, step.cursor)?;
    write!(out, " | ")?;
    print_answer(out, step.answer)?;
    writeln!(out)?;
    Ok(step.cursor)
}

// The calls of all lines.
fn make_calls<W: Write>(out: &mut W, text: &[u8]) -> io::Result<()> {
    let mut w = Cursor::open(0, 0).cursor;
    for line in text.split_inclusive(|byte| *byte == b'\n') {
        w = print_call(out, w, line.strip_suffix(b"\n").unwrap_or(line))?;
    }
    Ok(())
}

fn main(rt: HostRuntime) -> io::Result<()> {
    let mut text = [0u8; 16384];
    let size = print::read_full(&mut rt.stdin(), &mut text);
    let mut out = rt.stdout();
    make_calls(&mut out, &text[..size])?;
    out.flush()
}
