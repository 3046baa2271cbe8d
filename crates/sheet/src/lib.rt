// The text of a sheet, on byte slices: what it asks for, the answer, and a filed sheet rewritten.
#![tactic(auto)]

ghost use Rattle.std.specs.Prelude.{◌≡◌, true, false, [], ◌∷◌, ◌++◌, ◌+◌, ◌<◌, ◌≤◌, length, take, drop, MatchOption, IfOk};
ghost use Rattle.std.specs.Char.{is_ascii_digit};
ghost use Rattle.std.specs.List.{take_while};
ghost use Rattle.stirling.specs.Refusal.{number};
ghost use Rattle.stirling.specs.Count.{check_place};
ghost use Rattle.perm.specs.Lists.{positions};
ghost use Rattle.gray.specs.Order.{S};
ghost use Rattle.gray.specs.Listing.{row_at};
ghost use Rattle.rank.specs.Place.{check_row_count};
ghost use Rattle.sheet.specs.Text.{SPACE, column_name, is_digit, value_from, decimal};
ghost use Rattle.sheet.specs.Asked.{number_in, leading, field, asked_line, asked_in};
ghost use Rattle.sheet.specs.Form.{AllDigits};
ghost use Rattle.sheet.specs.Sheet.{names, name_line, values, lines_of, refused_line, answer};
ghost use Rattle.sheet.specs.Rewriting.{sheet_of, rewritten_to, rewritten};
ghost use Rattle.sheet.specs.Found.{Found};
ghost use Rattle.sheet.specs.Written.{CAPACITY, REWRITTEN_CAPACITY, Answered, Room, Wrote, row_line, written_for};

use stirling::Refusal;

// A slice of so many bytes suffices for the answer to any text: a line of names of at most 5 + 20×7 + 1 bytes, and at most 1,000 rows of at most
// 20 + 20×3 + 1 bytes.
pub const CAPACITY: usize = 146 + 1000 * 81;

// A slice of so many bytes suffices for any sheet rewritten: the header, and four numbers of at most 19 digits, each with the byte that ends it.
pub const REWRITTEN_CAPACITY: usize = HEADER_SIZE + 4 * (MOST_DIGITS + 1);

// How much of a text a program reads: one byte more than the longest that is not refused.
pub const MOST_READ: usize = LONGEST + 1;

// The first line of a sheet: the reader compares it, and the rewriting writes it.
pub const HEADER: [u8; HEADER_SIZE] = *b"trams loops first rows\n";

const HEADER_SIZE: usize = 23;

// The longest text that is read, the most digits of a number, and the largest n.
const LONGEST: usize = 4096;

const MOST_DIGITS: usize = 19;

const LARGEST: usize = 20;

// By which grammar a text is read: since document 02, m), no number but `0` begins with 0; in filed sheets it may.
#[derive(Clone, Copy)]
pub enum Grammar {
    Current,
    Filed,
}

// What a sheet asks for: m rows of S(n,k) from a place on.
#[derive(Clone, Copy)]
pub struct Request {
    pub n: u64,
    pub k: u64,
    pub place: u64,
    pub m: u64,
}

// Writes the answer to a text at the beginning of `out`, and gives its length. The slice is lent at any length, so that a caller needs no array of a
// certain size: in one that is shorter than CAPACITY nothing is written, and the length is 0; 0 and no Result, since the clause `Answered` says so.
pub fn answer(text: &[u8], out: &mut [u8]) -> usize
    ensures { Answered CAPACITY (answer text.now) out.old result out.new }
{
    if out.len() < CAPACITY {
        return 0;
    }
    let mut writer = Writer { out, at: 0 };
    writer.answer(served(text));
    writer.at
}

// What is served for a text: the request of a sheet that passes every check, or the first refusal. That it passes is a fact beside it in the contracts from here to
// `rows`: a struct that holds it would be the same four numbers a second time, made here and taken apart there.
#[tactic(auto, using(stirling::proofs::Refusals::number_some, crate::proofs::Outcome::not_read, crate::proofs::Outcome::refused, crate::proofs::Outcome::served))]
fn served(text: &[u8]) -> Result<Request, Refusal>
    ensures m_value { IfOk result (λ request. check_row_count request.n request.k request.place request.m ≡ 0) }
    ensures answered { written_for result ≡ answer text.now }
{
    let request = read_text(Grammar::Current, text).ok_or(Refusal::Text)?;
    rank::check_row_count(request.n, request.k, request.place, request.m)?;
    Ok(request)
}

// Writes a filed sheet's text, its numbers without leading zeros, at the beginning of `out`, and gives its length; of any other text, the line that refuses
// it. Whether the numbers are in range is not asked. In a slice that is shorter than REWRITTEN_CAPACITY nothing is written, and the length is 0, as `Answered`
// says here too.
pub fn rewrite(text: &[u8], out: &mut [u8]) -> usize
    ensures { Answered REWRITTEN_CAPACITY (rewritten text.now) out.old result out.new }
{
    if out.len() < REWRITTEN_CAPACITY {
        return 0;
    }
    let mut writer = Writer { out, at: 0 };
    writer.rewriting(read_text(Grammar::Filed, text));
    writer.at
}

// What a text asks for, by a grammar, or that it is no sheet.
#[tactic(auto, using(crate::proofs::AskedLine::same_pointwise, crate::proofs::AskedLine::asked_long, crate::proofs::AskedLine::asked_other, crate::proofs::AskedLine::line_asked))]
pub fn read_text(grammar: Grammar, text: &[u8]) -> Option<Request>
    ensures { result ≡ asked_in grammar text.now }
{
    if text.len() > LONGEST {
        return None;
    }
    let line = text.strip_prefix(&HEADER)?;
    read_line(grammar, line)
}

// What the line after the header asks for.
#[tactic(auto, using(crate::proofs::AskedLine::no_first, crate::proofs::AskedLine::no_second, crate::proofs::AskedLine::no_third, crate::proofs::AskedLine::no_fourth, crate::proofs::AskedLine::too_long))]
fn read_line(grammar: Grammar, line: &[u8]) -> Option<Request>
    ensures { result ≡ asked_line grammar line.now }
{
    let (n, from_k) = read_field(grammar, line, b' ')?;
    let (k, from_place) = read_field(grammar, from_k, b' ')?;
    let (place, from_m) = read_field(grammar, from_place, b' ')?;
    let (m, rest) = read_field(grammar, from_m, b'\n')?;
    if !rest.is_empty() {
        return None;
    }
    Some(Request { n, k, place, m })
}

// The number that a text begins with, where its digits are one of the grammar and the byte `end` stands after them; and the text after that byte.
#[tactic(auto, using(crate::proofs::Reading::first_inside, crate::proofs::Reading::each_first, crate::proofs::Reading::number_found, crate::proofs::Reading::no_byte, crate::proofs::Reading::other_byte, crate::proofs::Reading::no_number))]
fn read_field(grammar: Grammar, text: &[u8], end: u8) -> Option<(u64, &[u8])>
    requires { is_digit end ≡ false }
    ensures { MatchOption result ((field grammar end text.now).good ≡ false) (λ found. Found (field grammar end text.now) found.0 found.1.now) }
{
    let digits = first_digits(text);
    let (byte, rest) = text[digits.len()..].split_first()?;
    if *byte != end {
        return None;
    }
    if !is_number(grammar, digits) {
        return None;
    }
    Some((value_of(digits), rest))
}

// Whether digits, of which there are at most 19, are a number of the grammar: there is one, and today not several that begin with 0.
#[tactic(auto, using(crate::proofs::Reading::one_number, crate::proofs::Reading::zero_first))]
fn is_number(grammar: Grammar, digits: &[u8]) -> bool
    requires { length digits.now ≤ 19 }
    ensures { result ≡ number_in grammar digits.now }
{
    match (grammar, digits) {
        (_, []) => false,
        (Grammar::Current, [b'0', _, ..]) => false,
        _ => true,
    }
}

// The digits that a text begins with, at most 19 of them, so that no number is too large.
fn first_digits(text: &[u8]) -> &[u8]
    ensures { result.now ≡ take 19 (leading text.now) }
{
    &text[..count_digits(text)]
}

// How many they are.
fn count_digits(text: &[u8]) -> usize
    ensures { result ≡ length (take_while is_ascii_digit (take 19 text.now)) }
{
    text.iter()
        .take(MOST_DIGITS)
        .take_while(|byte| byte.is_ascii_digit())
        .count()
}

// The number that digits write. Not by `parse`: it takes a str, and these are bytes.
fn value_of(digits: &[u8]) -> u64
    requires each { AllDigits digits.now }
    requires few { length digits.now ≤ 19 }
    ensures { result ≡ value_from 0 digits.now }
{
    let mut value = 0;
    for digit in digits {
        value = value * 10 + u64::from(*digit - b'0');
    }
    value
}

// The byte of a digit.
fn digit(x: u64) -> u8
    requires { x < 10 }
    ensures { result ≡ 48 + x }
{
    b'0' + x as u8
}

// A lent slice that is written from its beginning on, and the index at which the next byte is written.
#[derive(Drop)]
struct Writer<'a> {
    out: &'a mut [u8],
    at: usize,
}

#[tactic(auto, using(crate::proofs::Writing::both, crate::proofs::Writing::three, crate::proofs::Lines::value_left, crate::proofs::Lines::name_left))]
impl<'a> Writer<'a> {
    // Writes one byte.
    fn byte(&mut self, byte: u8)
        requires { Room self.old (byte ∷ []) }
        ensures { Wrote self.old (byte ∷ []) self.new }
    {
        self.out[self.at] = byte;
        self.at += 1;
    }

    // Writes bytes.
    fn bytes(&mut self, bytes: &[u8])
        requires { Room self.old bytes.now }
        ensures { Wrote self.old bytes.now self.new }
    {
        let end = self.at + bytes.len();
        self.out[self.at..end].copy_from_slice(bytes);
        self.at = end;
    }

    // Writes a number in base ten, with no leading zero. Not by `write!`: it says what it wrote where it gives Ok, and never that it does, so no caller could promise a length.
    fn number(&mut self, x: u64)
        requires { Room self.old (decimal x) }
        ensures { Wrote self.old (decimal x) self.new }
    {
        if x < 10 {
            self.byte(digit(x));
            return;
        }
        self.number(x / 10);
        self.byte(digit(x % 10));
    }

    // Writes a number and the byte that ends it.
    fn field(&mut self, x: u64, end: u8)
        requires { Room self.old (decimal x ++ (end ∷ [])) }
        ensures { Wrote self.old (decimal x ++ (end ∷ [])) self.new }
    {
        self.number(x);
        self.byte(end);
    }

    // Writes the sheet of a request.
    fn sheet(&mut self, request: Request)
        requires { Room self.old (sheet_of request.n request.k request.place request.m) }
        ensures { Wrote self.old (sheet_of request.n request.k request.place request.m) self.new }
    {
        self.bytes(&HEADER);
        self.field(request.n, b' ');
        self.field(request.k, b' ');
        self.field(request.place, b' ');
        self.field(request.m, b'\n');
    }

    // Writes the line of a refusal.
    fn refusal(&mut self, refusal: Refusal)
        requires { Room self.old (refused_line (number refusal)) }
        ensures { Wrote self.old (refused_line (number refusal)) self.new }
    {
        self.bytes(b"refused ");
        self.number(u64::from(refusal.number()));
        self.byte(b'\n');
    }

    // Writes the line of names and the lines of the rows, or the line of a refusal.
    fn answer(&mut self, given: Result<Request, Refusal>)
        requires m_value { IfOk given (λ request. check_row_count request.n request.k request.place request.m ≡ 0) }
        requires room { Room self.old (written_for given) }
        ensures { Wrote self.old (written_for given) self.new }
    {
        match given {
            Ok(request) => {
                self.name_line(request.n);
                self.rows(request);
            }
            Err(refusal) => self.refusal(refusal),
        }
    }

    // Writes the sheet of what a filed sheet asks for, or the line of a refusal.
    #[tactic(auto, unfolding(crate::specs::Rewriting::rewritten_to))]
    fn rewriting(&mut self, asked: Option<Request>)
        requires { Room self.old (rewritten_to asked) }
        ensures { Wrote self.old (rewritten_to asked) self.new }
    {
        match asked {
            Some(request) => self.sheet(request),
            None => self.refusal(Refusal::Text),
        }
    }

    // Writes the line of names.
    fn name_line(&mut self, n: u64)
        requires { Room self.old (name_line n) }
        ensures { Wrote self.old (name_line n) self.new }
    {
        self.bytes(b"place");
        self.names(n);
        self.byte(b'\n');
    }

    // Writes the names of the positions 1 to n.
    fn names(&mut self, n: u64)
        requires { Room self.old (names (positions n)) }
        ensures { Wrote self.old (names (positions n)) self.new }
    {
        for i in 1..=n {
            self.name(i);
        }
    }

    // Writes ` road` and a number.
    fn name(&mut self, i: u64)
        requires { Room self.old (SPACE ∷ (column_name ++ decimal i)) }
        ensures { Wrote self.old (SPACE ∷ (column_name ++ decimal i)) self.new }
    {
        self.bytes(b" road");
        self.number(i);
    }

    // Writes the lines of the rows that a request asks for.
    fn rows(&mut self, request: Request)
        requires m_value { check_row_count request.n request.k request.place request.m ≡ 0 }
        requires room { Room self.old (lines_of request) }
        ensures { Wrote self.old (lines_of request) self.new }
    {
        let Request {
            n,
            k,
            place: first,
            m,
        } = request;
        for place in first..first + m {
            self.row_at(n, k, place);
        }
    }

    // Writes the line of the row of S(n,k) at a place.
    fn row_at(&mut self, n: u64, k: u64, place: u64)
        requires place_value { check_place n k place ≡ 0 }
        requires room { Room self.old (row_line place (row_at (S n k) place)) }
        ensures { Wrote self.old (row_line place (row_at (S n k) place)) self.new }
    {
        let size = n as usize;
        // room for the largest n, since there is no heap
        let mut row = [0u8; LARGEST];
        // never refused: the place is one of the list, and the slice as long as the row
        rank::unrank(n, k, place, &mut row[..size]).unwrap();
        self.row(place, &row[..size]);
    }

    // Writes the line of a row: its place and its values.
    fn row(&mut self, place: u64, row: &[u8])
        requires { Room self.old (row_line place row.now) }
        ensures { Wrote self.old (row_line place row.now) self.new }
    {
        self.number(place);
        self.values(row);
        self.byte(b'\n');
    }

    // Writes the values of a row.
    fn values(&mut self, row: &[u8])
        requires { Room self.old (values row.now) }
        ensures { Wrote self.old (values row.now) self.new }
    {
        for value in row {
            self.value(*value);
        }
    }

    // Writes a space and a value.
    fn value(&mut self, value: u8)
        requires { Room self.old (SPACE ∷ decimal value) }
        ensures { Wrote self.old (SPACE ∷ decimal value) self.new }
    {
        self.byte(b' ');
        self.number(u64::from(value));
    }
}
