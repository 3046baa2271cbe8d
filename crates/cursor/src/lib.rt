// A cursor that walks through S(n,k), or through a section of it: a record handed over by value and handed back.
#![tactic(auto)]

ghost use Rattle.std.specs.Prelude.{◌≡◌, true, cond, ◌≤◌, ◌<◌, not, nat_eq, length, take, position, count_by};
ghost use Rattle.std.specs.List.{zip};
ghost use Rattle.stirling.specs.Refusal.{within, number, refusal_in};
ghost use Rattle.stirling.specs.Count.{c, check_size, check_place};
ghost use Rattle.perm.specs.Permutation.{IsPermutation, fixed};
ghost use Rattle.perm.specs.Array.{array_of, entries_changed};
ghost use Rattle.gray.specs.Order.{S};
ghost use Rattle.gray.specs.Listing.{row_at, Near};
ghost use Rattle.cursor.specs.Machine.{padded, observe, row_of, whole, stops, refusal_of, destination, moved, first_from, bare, stepped, step_to, step_call, forward, back, jump, show};
ghost use Rattle.cursor.specs.Walk.{machine_of, sound, called, check_opening, handed_back, zeros, opened, decode, decoded, replayed};

use stirling::Refusal;

// The calls of a list that is replayed; any other number is a show. Numbers, and their places in a slice beside them, since the contract of `replay` says so (`decoded`).
pub const FORWARD: u8 = 1;

pub const BACK: u8 = 2;

pub const JUMP: u8 = 3;

// Document 01's *walk*: n, k, the place, the lowest and the highest place of the section that it keeps to, and the permutation and the transposition array that stand at
// the place, zero after the n-th byte: 20 bytes each, as the definition `observe` has them, for a record has no heap.
#[derive(Clone, Copy, Default, PartialEq, Eq)]
pub struct Cursor {
    pub n: u64,
    pub k: u64,
    pub place: u64,
    pub lowest: u64,
    pub highest: u64,
    pub perm: [u8; 20],
    pub array: [u8; 20],
}

// What a call answers beside the cursor: the refusal's number or 0 for none, as the definitions `bare` and `called` have it, the three positions of a step, how many
// entries of the array it changed, and what show hands out, with the permutation's number of fixed points; zeros where a call reports none.
#[derive(Default, Drop)]
pub struct Answer {
    pub refusal: u8,
    pub i: u64,
    pub j: u64,
    pub l: u64,
    pub changed: u64,
    pub place: u64,
    pub perm: [u8; 20],
    pub array: [u8; 20],
    pub fixed: u64,
}

// The cursor that a call hands back, with its answer.
#[derive(Drop)]
pub struct Step {
    pub cursor: Cursor,
    pub answer: Answer,
}

// The two opens, for a list of calls that is replayed: of the whole list S(n,k), and of a section of it.
#[derive(Drop)]
pub enum Opening {
    Whole {
        n: u64,
        k: u64,
    },
    Section {
        n: u64,
        k: u64,
        lowest: u64,
        highest: u64,
    },
}

// The array of a permutation, filled up with zeros, and the permutation's number of fixed points.
#[derive(Drop)]
struct Entries {
    array: [u8; 20],
    fixed: u64,
}

// A cursor, and the number of fixed points of its permutation, counted as the cursor was made.
#[derive(Drop)]
struct Counted {
    cursor: Cursor,
    fixed: u64,
}

// The two ways of a step.
#[derive(Clone, Copy)]
enum Direction {
    Forward,
    Back,
}

// The permutation at a place of S(n,k), filled up with zeros.
fn row_at(n: u64, k: u64, place: u64) -> [u8; 20]
    requires { check_place n k place ≡ 0 }
    ensures { result ≡ padded (row_at (S n k) place) }
{
    let size = n as usize;
    // twenty bytes, as `padded` has them, since there is no heap
    let mut row = [0u8; 20];
    // never refused: the place passes the checks, and n bytes are lent
    rank::unrank(n, k, place, &mut row[..size]).unwrap();
    row
}

// The array of a permutation, filled up with zeros, and the number of fixed points that its making reports.
// Crate rank has its own, which counts the cycles and refuses: one for both would be one more public function of crate perm, that gives its 20 bytes by value.
fn entries_of(row: &[u8]) -> Entries
    requires { (check_size (length row.now) ≡ 0) × IsPermutation (length row.now) row.now }
    ensures { result ≡ record { array = padded (array_of (length row.now) row.now); fixed = fixed row.now } }
{
    let mut array = [0u8; 20];
    // never refused: the slice holds a permutation, and as many bytes are lent
    let fixed = perm::to_array(row, &mut array[..row.len()]).unwrap();
    Entries { array, fixed }
}

// A record at another place of its list, as the plain machine shows it there, and the number of fixed points of the permutation at that place.
fn counted_at(w: Cursor, place: u64) -> Counted
    requires { check_place w.n w.k place ≡ 0 }
    ensures { result ≡ record { cursor = observe (moved (machine_of w) place); fixed = fixed (row_at (S w.n w.k) place) } }
{
    let size = w.n as usize;
    let perm = row_at(w.n, w.k, place);
    let Entries { array, fixed } = entries_of(&perm[..size]);
    let cursor = Cursor {
        place,
        perm,
        array,
        ..w
    };
    Counted { cursor, fixed }
}

// The record alone.
fn cursor_at(w: Cursor, place: u64) -> Cursor
    requires { check_place w.n w.k place ≡ 0 }
    ensures { result ≡ observe (moved (machine_of w) place) }
{
    counted_at(w, place).cursor
}

// Whether a place is one of a record's section.
fn is_within(w: Cursor, place: u64) -> bool
    ensures { result ≡ within w.lowest w.highest place }
{
    (w.lowest..=w.highest).contains(&place)
}

// Check 8: the section is one of the list, and the place is in it; permutation and array are recomputed there, and all their bytes compared. The fixed points were
// counted on the way: a record that passes gives their number. That a record is `sound`, and a place one of its list, are facts beside them in the contracts here: the
// record is the caller's and its fields are public, and a struct around it would be made and taken apart at each call.
fn check_record(w: Cursor) -> Result<u64, Refusal>
    ensures { result ≡ cond (sound w) (Ok (fixed (row_of (machine_of w)))) (Err Refusal.Record) }
{
    if stirling::check_place(w.n, w.k, w.highest).is_err() {
        return Err(Refusal::Record);
    }
    if !is_within(w, w.place) {
        return Err(Refusal::Record);
    }
    let right = counted_at(w, w.place);
    if w != right.cursor {
        return Err(Refusal::Record);
    }
    Ok(right.fixed)
}

// The index at which two rows first differ.
fn first_difference(old: &[u8], new: &[u8]) -> Option<usize>
    ensures { result ≡ position (λ p. not (nat_eq p.0 p.1)) (zip old.now new.now) }
{
    old.iter().zip(new).position(|(x, y)| x != y)
}

// The first index at which a row has a value.
fn index_of(v: u8, row: &[u8]) -> Option<usize>
    ensures { result ≡ position (λ x. nat_eq x v) row.now }
{
    row.iter().position(|x| *x == v)
}

// In how many bytes two slices differ.
fn differences(s: &[u8], t: &[u8]) -> u64
    ensures { result ≡ count_by (λ p. not (nat_eq p.0 p.1)) (zip s.now t.now) }
{
    s.iter().zip(t).filter(|(x, y)| x != y).count() as u64
}

// The three positions of a step between neighbouring rows, with the number of entries in which their arrays differ: the rows differ, and each value of the new row stands
// in the old one.
fn step_between(old: &[u8], new: &[u8], changed: u64) -> Answer
    requires { IsPermutation (length old.now) old.now × Near (length old.now) old.now new.now × (changed ≡ entries_changed (length old.now) old.now new.now) }
    ensures { result ≡ stepped (length old.now) old.now new.now }
{
    let i = first_difference(old, new).unwrap();
    let j = index_of(new[i], old).unwrap();
    let l = index_of(new[j], old).unwrap();
    Answer {
        i: i as u64 + 1,
        j: j as u64 + 1,
        l: l as u64 + 1,
        changed,
        ..Answer::default()
    }
}

// What a call hands back: its step, or a record as it was and the refusal.
fn handed_back(w: Cursor, given: Result<Step, Refusal>) -> Step
    ensures { result ≡ handed_back w given }
{
    match given {
        Ok(step) => step,
        Err(refusal) => Step {
            cursor: w,
            // the number, since the plain machine answers numbers (`bare`)
            answer: Answer {
                refusal: refusal.number(),
                ..Answer::default()
            },
        },
    }
}

// A step to a neighbouring place.
#[tactic(auto, using(crate::proofs::Sound::sound_small))]
fn step_to(w: Cursor, place: u64) -> Step
    requires { (sound w ≡ true) × (place < c w.n w.k) × Near w.n (row_of (machine_of w)) (row_of (moved (machine_of w) place)) }
    ensures { result ≡ step_to (machine_of w) place }
{
    let size = w.n as usize;
    let cursor = cursor_at(w, place);
    let changed = differences(&w.array[..size], &cursor.array[..size]);
    let answer = step_between(&w.perm[..size], &cursor.perm[..size], changed);
    Step { cursor, answer }
}

// The place beside a record's in its section: past the highest it is the lowest, and before the lowest the highest.
fn place_beside(w: Cursor, direction: Direction) -> u64
    requires { (w.lowest ≤ w.place) × (w.place ≤ w.highest) }
    ensures { result ≡ destination (machine_of w) (step_call direction) }
{
    match direction {
        Direction::Forward if w.place == w.highest => w.lowest,
        Direction::Forward => w.place + 1,
        Direction::Back if w.place == w.lowest => w.highest,
        Direction::Back => w.place - 1,
    }
}

// Whether a record's section is the whole list.
fn is_whole(w: Cursor) -> bool
    requires { sound w ≡ true }
    ensures { result ≡ whole (machine_of w) }
{
    w.lowest == 0 && w.highest + 1 == stirling::lookup(w.n, w.k)
}

// Whether a step from a record's place past an end of its section is refused: the whole list is closed, unless it has one permutation, at place 0; a shorter section
// is not.
fn stops_at(w: Cursor, end: u64) -> bool
    requires { sound w ≡ true }
    ensures { result ≡ stops (machine_of w) end }
{
    if is_whole(w) {
        return w.highest == 0;
    }
    w.place == end
}

// What refuses a step from a record's place.
fn check_step(w: Cursor, direction: Direction) -> Result<(), Refusal>
    requires { sound w ≡ true }
    ensures { refusal_in result ≡ refusal_of (machine_of w) (step_call direction) }
{
    match direction {
        Direction::Forward if stops_at(w, w.highest) => Err(Refusal::Last),
        Direction::Back if stops_at(w, w.lowest) => Err(Refusal::First),
        _ => Ok(()),
    }
}

// A step within the section, and round the list if that is the section.
fn try_step(w: Cursor, direction: Direction) -> Result<Step, Refusal>
    ensures { handed_back w result ≡ called w (step_call direction) }
{
    check_record(w)?;
    check_step(w, direction)?;
    Ok(step_to(w, place_beside(w, direction)))
}

// A jump to a place.
fn try_jump(w: Cursor, place: u64) -> Result<Step, Refusal>
    ensures { handed_back w result ≡ called w (jump place) }
{
    check_record(w)?;
    stirling::check_place(w.n, w.k, place)?;
    if !is_within(w, place) {
        return Err(Refusal::Section);
    }
    let cursor = cursor_at(w, place);
    let answer = Answer::default();
    Ok(Step { cursor, answer })
}

// A show of what the record holds.
fn try_show(w: Cursor) -> Result<Step, Refusal>
    ensures { handed_back w result ≡ called w show }
{
    let fixed = check_record(w)?;
    // variables, since the check covers no field that is an array straight in a literal
    let perm = w.perm;
    let array = w.array;
    let answer = Answer {
        place: w.place,
        perm,
        array,
        fixed,
        ..Answer::default()
    };
    Ok(Step { cursor: w, answer })
}

// The checks of a section's opening: 1, 2, then 3 for either end, then 13.
fn check_section(n: u64, k: u64, lowest: u64, highest: u64) -> Result<(), Refusal>
    ensures { refusal_in result ≡ check_opening (Opening.Section n k lowest highest) }
{
    stirling::check_place(n, k, lowest)?;
    stirling::check_place(n, k, highest)?;
    if lowest > highest {
        return Err(Refusal::Section);
    }
    Ok(())
}

// The opening of a section, at its lowest place.
fn try_section(n: u64, k: u64, lowest: u64, highest: u64) -> Result<Step, Refusal>
    ensures step { handed_back zeros result ≡ opened (Opening.Section n k lowest highest) }
    ensures refusal { refusal_in result ≡ check_opening (Opening.Section n k lowest highest) }
{
    check_section(n, k, lowest, highest)?;
    let section = Cursor {
        n,
        k,
        lowest,
        highest,
        ..Cursor::default()
    };
    Ok(Step {
        cursor: cursor_at(section, lowest),
        answer: Answer::default(),
    })
}

// The opening of the whole list, as a section of it.
fn try_whole(n: u64, k: u64) -> Result<Step, Refusal>
    ensures step { handed_back zeros result ≡ opened (Opening.Whole n k) }
    ensures refusal { refusal_in result ≡ check_opening (Opening.Whole n k) }
{
    stirling::check_cycles(n, k)?;
    try_section(n, k, 0, stirling::lookup(n, k) - 1)
}

// Either opening.
fn try_opening(opening: Opening) -> Result<Step, Refusal>
    ensures step { handed_back zeros result ≡ opened opening }
    ensures refusal { refusal_in result ≡ check_opening opening }
{
    match opening {
        Opening::Whole { n, k } => try_whole(n, k),
        Opening::Section {
            n,
            k,
            lowest,
            highest,
        } => try_section(n, k, lowest, highest),
    }
}

impl Cursor {
    // A walk from place 0 of S(n,k), through the whole list. Refusals 1 and 2; a refused open hands back a walk of zeros. That is also the walk of the empty list,
    // n = 0 with k = 0, so only the refusal tells a refused open: a record of zeros does not.
    pub fn open(n: u64, k: u64) -> Step
        ensures { result ≡ opened (Opening.Whole n k) }
    {
        handed_back(Cursor::default(), try_whole(n, k))
    }

    // A walk from the lowest place of a section of S(n,k), both ends included, that keeps to the section. Refusals 1, 2, 3 and 13; a refused open hands back a walk of
    // zeros, as above.
    pub fn open_section(n: u64, k: u64, lowest: u64, highest: u64) -> Step
        ensures { result ≡ opened (Opening.Section n k lowest highest) }
    {
        handed_back(Cursor::default(), try_section(n, k, lowest, highest))
    }

    // To the next place, on the whole list from the last to place 0, with the three positions of the step and the number of entries changed. Refusals 8 and 9: 9 at the
    // highest place of a section, and on a list of one permutation; every other whole list is closed.
    pub fn forward(self) -> Step
        ensures { result ≡ called self forward }
    {
        handed_back(self, try_step(self, Direction::Forward))
    }

    // To the place before, on the whole list from place 0 to the last, with the three positions of the step and the number of entries changed. Refusals 8 and 10: 10 at
    // the lowest place of a section, and on a list of one permutation.
    pub fn back(self) -> Step
        ensures { result ≡ called self back }
    {
        handed_back(self, try_step(self, Direction::Back))
    }

    // To any place of the section. Refusals 8, 3 and 13: 13 out of the section.
    pub fn jump(self, place: u64) -> Step
        ensures { result ≡ called self (jump place) }
    {
        handed_back(self, try_jump(self, place))
    }

    // The place, the permutation and the array, and the number of fixed points. Refusal 8.
    pub fn show(self) -> Step
        ensures { result ≡ called self show }
    {
        handed_back(self, try_show(self))
    }
}

// The call that a kind and a place name.
fn make_call(w: Cursor, kind: u8, place: u64) -> Step
    ensures { result ≡ called w (decode kind place) }
{
    match kind {
        FORWARD => w.forward(),
        BACK => w.back(),
        JUMP => w.jump(place),
        _ => w.show(),
    }
}

// Either open and then a list of calls, each on the record that the one before handed back: what the last of them gives. A refused open ends it.
pub fn replay(opening: Opening, kinds: &[u8], places: &[u64]) -> Step
    ensures { result ≡ replayed opening (decoded kinds.now places.now) }
{
    let mut step = match try_opening(opening) {
        Ok(step) => step,
        Err(refusal) => return handed_back(Cursor::default(), Err(refusal)),
    };
    for (t, kind) in kinds.iter().enumerate() {
        let place = places.get(t).copied().unwrap_or(0);
        step = make_call(step.cursor, *kind, place);
    }
    step
}
