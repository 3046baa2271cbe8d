// Prints, for the involutions and then for the Bell permutations, a line for each row that `stdin` names: n, the place that `rank` finds for the row that `unrank` writes,
// and that row. Then a line for each n up to 20: n and how many rows its list has. `stdout` has both from another author's generator. Last what is refused and what not,
// which `stdout` has from a model in another language: every four bytes up to 5 and 21 zeros, with their place; and for each n up to 21 the refusals of the count, of the
// place past the last and of place 0, and what the 20 bytes lent for both are then.
// `stdin` has for each list how many rows it names, then n and the place of each; every number in eight bytes, its highest byte first.
#![tactic(auto)]

use print::{Joined, Spaced};
use std::io::{Read, Write};
use std::{fmt, io};
use stirling::Refusal;
use tree::Kind;

// A number, or the refusal that stands in its place.
#[derive(Drop)]
struct Answer(Result<u64, Refusal>);

impl fmt::Display for Answer {
    fn fmt<W: fmt::Write>(&self, f: &mut fmt::Formatter<W>) -> fmt::Result {
        match self.0 {
            Ok(number) => write!(f, "{number}"),
            Err(refusal) => write!(f, "refused {}", refusal.number()),
        }
    }
}

// The place of the row at a place, or the refusal: `row` is n bytes to write it to.
fn place_again(kind: Kind, n: u64, place: u64, row: &mut [u8]) -> Result<u64, Refusal> {
    tree::unrank(kind, n, place, row)?;
    tree::rank(kind, row)
}

// The line of a row, of n up to 20.
fn print_row<W: Write>(out: &mut W, kind: Kind, n: u64, place: u64) -> io::Result<()> {
    if 20 < n {
        return Ok(());
    }
    let row = &mut [0u8; 20][..n as usize];
    let answer = Answer(place_again(kind, n, place, row));
    writeln!(out, "{n} {answer} | {}", Joined(row, " "))
}

// The number in the next eight bytes of the input; bytes that are missing are 0.
fn next_number<R: Read>(input: &mut R) -> u64 {
    let mut bytes = [0u8; 8];
    print::read_full(input, &mut bytes);
    u64::from_be_bytes(bytes)
}

// The lines of the rows that the input names next.
fn print_rows<R: Read, W: Write>(input: &mut R, out: &mut W, kind: Kind) -> io::Result<()> {
    for _ in 0..next_number(input) {
        let n = next_number(input);
        let place = next_number(input);
        print_row(out, kind, n, place)?;
    }
    Ok(())
}

// The lines of every n up to 20: how many rows there are, or the refusal.
fn print_counts<W: Write>(out: &mut W, kind: Kind) -> io::Result<()> {
    for n in 0..=20 {
        writeln!(out, "{n} {}", Answer(tree::count(kind, n)))?;
    }
    Ok(())
}

// The line of a list of bytes: the place, or the refusal.
fn print_place<W: Write>(out: &mut W, kind: Kind, s: &[u8]) -> io::Result<()> {
    writeln!(out, "{} | {}", Joined(s, " "), Answer(tree::rank(kind, s)))
}

// The lines of every four bytes up to 5.
// By the digits of a number in base six, since four loops in one another say the same in more lines.
fn print_places<W: Write>(out: &mut W, kind: Kind) -> io::Result<()> {
    for t in 0..1296u64 {
        let s = [
            (t / 216) as u8,
            (t / 36 % 6) as u8,
            (t / 6 % 6) as u8,
            (t % 6) as u8,
        ];
        print_place(out, kind, &s)?;
    }
    Ok(())
}

// The number of a refusal, and 0 for none, whatever the answer is; `stirling::number_in`, which the calls of C use, is for calls that give nothing.
fn number_in<T: Drop>(given: Result<T, Refusal>) -> u8 {
    given.err().map_or(0, Refusal::number)
}

// The lines of what is refused, for every n up to 21.
fn print_refusals<W: Write>(out: &mut W, kind: Kind) -> io::Result<()> {
    for n in 0..=21 {
        let counted = tree::count(kind, n);
        let mut row = [0u8; 20];
        let past = number_in(tree::unrank(kind, n, counted.unwrap_or(0), &mut row));
        let first = number_in(tree::unrank(kind, n, 0, &mut row));
        let refusal = number_in(counted);
        writeln!(out, "{n} {refusal} {past} {first} |{}", Spaced(&row))?;
    }
    Ok(())
}

// All lines of a list.
fn print_list<R: Read, W: Write>(input: &mut R, out: &mut W, kind: Kind) -> io::Result<()> {
    print_rows(input, out, kind)?;
    print_counts(out, kind)?;
    print_places(out, kind)?;
    print_place(out, kind, &[0u8; 21])?;
    print_refusals(out, kind)
}

fn main(rt: HostRuntime) -> io::Result<()> {
    let mut out = rt.stdout();
    print_list(&mut rt.stdin(), &mut out, Kind::Involution)?;
    print_list(&mut rt.stdin(), &mut out, Kind::Bell)?;
    out.flush()
}
