// Bytes in base ten, a text from a reader, the records of a text, and a call for each list, for the programs.
#![tactic(auto)]

ghost use Rattle.std.specs.Prelude.{◌≡◌, ◌≤◌, ◌<◌, ◌↔◌, ◌∷◌, ◌++◌, length, take, drop, slice_get, Some, IfSome, IsSome, IsSomeAnd};
ghost use Rattle.std.specs.Int.{w64, from_be_bytes};

use std::io::{Read, Write};
use std::ops::RangeInclusive;
use std::{fmt, io};

// Reads until the text is full, the input ends or a read fails: so many bytes at the start of the text are what was read.
// The loop counts by hand, for the library's `read_exact` does not tell how many bytes came before the end.
pub fn read_full<R: Read>(input: &mut R, text: &mut [u8]) -> usize
    ensures { result ≤ length text.new }
{
    let mut size = 0;
    while size < text.len() {
        match input.read(&mut text[size..]) {
            Ok(0) => return size,
            Ok(count) => size += count,
            Err(_) => return size,
        }
    }
    size
}

// Does `each` with every record that `split` parts off the front of a text, up to the text's end or a record that is not whole. A record has a byte at least, so there
// are no more of them than bytes: that bound makes the loop end, whatever `split` does.
pub fn each_record<'a, T, S: Fn(&'a [u8]) -> Option<(T, &'a [u8])>, F: FnMut(T) -> io::Result<()>>(
    text: &'a [u8],
    split: S,
    mut each: F,
) -> io::Result<()>
    // What whoever calls a closure requires of it: that it can be called. Nothing is required of the text.
    requires splits { S.IsAlwaysCallable split }
    requires does { F.IsAlwaysCallable each }
{
    let mut rest = text;
    for _ in 0..text.len() {
        let Some((record, after)) = split(rest) else {
            return Ok(());
        };
        each(record)?;
        rest = after;
    }
    Ok(())
}

// Does `each` with n and every k of a range, for the list S(n,k).
fn each_cycles<W: Write, F: Fn(&mut W, u64, u64) -> io::Result<()>>(
    out: &mut W,
    n: u64,
    cycles: RangeInclusive<u64>,
    each: F,
) -> io::Result<()>
    requires { F.IsAlwaysCallable each }
{
    for k in cycles {
        each(out, n, k)?;
    }
    Ok(())
}

// The same with every n of a range, and for each n with the range of k that `cycles` gives.
pub fn each_list<
    W: Write,
    C: Fn(u64) -> RangeInclusive<u64>,
    F: Fn(&mut W, u64, u64) -> io::Result<()>,
>(out: &mut W, sizes: RangeInclusive<u64>, cycles: C, each: F) -> io::Result<()>
    requires gives { C.IsAlwaysCallable cycles }
    requires does { F.IsAlwaysCallable each }
{
    for n in sizes {
        each_cycles(out, n, cycles(n), &each)?;
    }
    Ok(())
}

// The row at the front of a text, n and then its n bytes, without the n, and what stands after it; nothing where the text ends before.
pub fn split_row(text: &[u8]) -> Option<(&[u8], &[u8])>
    ensures whole { IsSome result ↔ IsSomeAnd (slice_get text.now 0) (λ n. n < length text.now) }
    ensures parts { IfSome result (λ r. text.now ≡ length r.0.now ∷ r.0.now ++ r.1.now) }
{
    let (n, rest) = text.split_first()?;
    rest.split_at_checked(usize::from(*n))
}

// A place that an input names: that of a row of S(n,k).
#[derive(Drop)]
pub struct Named {
    pub n: u8,
    pub k: u8,
    pub place: u64,
}

// The place that is named at the front of a text, n, k and then the place in eight bytes, its highest byte first, and what stands after it; nothing where the text ends
// before.
pub fn split_named(text: &[u8]) -> Option<(Named, &[u8])>
    ensures whole { IsSome result ↔ (10 ≤ length text.now) }
    ensures row { IfSome result (λ r. (slice_get text.now 0 ≡ Some r.0.n) × (slice_get text.now 1 ≡ Some r.0.k)) }
    ensures place { IfSome result (λ r. r.0.place ≡ from_be_bytes w64 (take 8 (drop 2 text.now))) }
    ensures rest { IfSome result (λ r. r.1.now ≡ drop 10 text.now) }
{
    let ([n, k], rest) = text.split_first_chunk::<2>()?;
    let (place, rest) = rest.split_first_chunk::<8>()?;
    let named = Named {
        n: *n,
        k: *k,
        place: u64::from_be_bytes(*place),
    };
    Some((named, rest))
}

// Bytes in base ten, a space before each.
#[derive(Drop)]
pub struct Spaced<'a>(pub &'a [u8]);

impl fmt::Display for Spaced<'_> {
    fn fmt<W: fmt::Write>(&self, f: &mut fmt::Formatter<W>) -> fmt::Result {
        for byte in self.0 {
            write!(f, " {byte}")?;
        }
        Ok(())
    }
}

// Bytes in base ten, the text between.
#[derive(Drop)]
pub struct Joined<'a>(pub &'a [u8], pub &'a str);

impl fmt::Display for Joined<'_> {
    fn fmt<W: fmt::Write>(&self, f: &mut fmt::Formatter<W>) -> fmt::Result {
        let Joined(bytes, between) = self;
        let Some((first, others)) = bytes.split_first() else {
            return Ok(());
        };
        write!(f, "{first}")?;
        for byte in others {
            write!(f, "{between}{byte}")?;
        }
        Ok(())
    }
}

// Pairs of two bytes each, a space within, semicolons between.
#[derive(Drop)]
pub struct Pairs<'a>(pub &'a [u8]);

impl fmt::Display for Pairs<'_> {
    fn fmt<W: fmt::Write>(&self, f: &mut fmt::Formatter<W>) -> fmt::Result {
        for (at, pair) in self.0.chunks_exact(2).enumerate() {
            if at > 0 {
                f.write_str("; ")?;
            }
            write!(f, "{}", Joined(pair, " "))?;
        }
        Ok(())
    }
}
