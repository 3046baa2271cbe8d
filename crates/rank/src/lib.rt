// From a place of S(n,k) to its permutation and back, and rows into a lent buffer.
#![tactic(auto)]

ghost use Rattle.std.specs.Prelude.{◌≡◌, suc, ◌+◌, ◌-◌, ◌*◌, ◌^◌, ◌≤◌, ◌<◌, true, false, cond, ◌++◌, reverse, eqb, length, replicate, take, drop, MatchResult};
ghost use Rattle.stirling.specs.Refusal.{refusal_in};
ghost use Rattle.stirling.specs.declared.Refusal.TheVariants.{Lent};
ghost use Rattle.stirling.specs.Count.{c, IsTable};
ghost use Rattle.perm.specs.Lists.{positions};
ghost use Rattle.perm.specs.Permutation.{fixed};
ghost use Rattle.perm.specs.Array.{product};
ghost use Rattle.gray.specs.Order.{S};
ghost use Rattle.gray.specs.Blocks.{blocks, number_of};
ghost use Rattle.gray.specs.Listing.{row_at};
ghost use Rattle.rank.specs.Place.{Unranked, answer_of, Ranked, check_row_count, rows_from, RowsWritten};
ghost use Rattle.rank.specs.Search.{reading_of, before, number_read, ExtendsAt, Listed, AreSizes, IsStop, part_of, HoldsPlace, below_block, Readable, InFront};
ghost use Rattle.rank.specs.Spacing.{put_in, rows_apart, put_apart, Fillable};
ghost use Rattle.rank.specs.Ranking.{Occurs, HasEntries, Rankable, PlaceIn};
ghost use Rattle.rank.specs.Descent.{steps, still, Additions, Descends};

use gray::Block;
use stirling::Refusal;

// The most rows of one call.
const MOST_ROWS: u64 = 1000;

// Where a permutation stands: its number of cycles k, and its place in S(n,k); and its number of fixed points.
#[derive(Clone, Copy)]
pub struct Stand {
    pub k: u64,
    pub place: u64,
    pub fixed: u64,
}

// The same as C has it: no refusal, or a refusal's number with zeros.
#[repr(C)]
#[derive(Drop)]
pub struct Standing {
    pub refusal: u8,
    pub k: u64,
    pub place: u64,
    pub fixed: u64,
}

impl From<Result<Stand, Refusal>> for Standing {
    ghost from_gives = { λ given answer. answer ≡ answer_of given };

    fn from(given: Result<Stand, Refusal>) -> Standing {
        match given {
            Ok(Stand { k, place, fixed }) => Standing {
                refusal: 0,
                k,
                place,
                fixed,
            },
            Err(refusal) => Standing {
                refusal: refusal.number(),
                k: 0,
                place: 0,
                fixed: 0,
            },
        }
    }
}

// The table of `stirling`, lent to whatever needs a count: each of its entries is the count that it stands for.
#[derive(Clone, Copy)]
struct Table<'a> {
    counts: &'a [u64],
    ghost holds: { IsTable counts.now },
}

// The block of S(n,k) at which a search through a reading of the list stops: its number from 0 in that reading, and how many rows of the reading stand before it. The
// start is a running sum: going on to the next block adds one count to it, and `additions` says how often that was done.
#[derive(Clone, Copy)]
struct Stop {
    number: u64,
    start: u64,
    additions: u64,
}

// Where every search begins: at the first block, with nothing before it and nothing added.
const FIRST: Stop = Stop {
    number: 0,
    start: 0,
    additions: 0,
};

// The sizes of the blocks of S(n,k), counted as a reading meets them: the block at index `extension` has `extended` rows, and each other `inserted`.
#[derive(Clone, Copy)]
struct Sizes {
    inserted: u64,
    extended: u64,
    extension: u64,
}

// What stands below a block of S(n,k) in a reading: the position at which the block's rows have value n, and the list S(n-1,cycles) that it is made from, with the
// reading of that list. The n, k and reading above it stay parameters of their own, and Listed, Rankable and Readable clauses over them: one size down all three are new,
// so that a struct of them would be made, and a ghost field of it proved, at each step. A reading is a bool, as in the definitions `reading_of` and `number_read`.
#[derive(Clone, Copy)]
pub struct Below {
    pub position: u64,
    pub cycles: u64,
    pub backward: bool,
}

// The part of a reading of S(n,k) that a block makes: the block's number from 0 in written order, its start as above, and what stands below it.
#[derive(Clone, Copy)]
struct Part {
    block: u64,
    start: u64,
    additions: u64,
    below: Below,
}

// The starts of the parts in which a permutation stands, from S(n,k) down, added up, which is its place; and how many additions found them.
#[derive(Drop)]
struct Sum {
    starts: u64,
    additions: u64,
}

// The transposition array of a permutation, followed by zeros, and the permutation's number of cycles and of fixed points. An array of 20, here and in the two paths
// below, since there is no heap: how many of its elements count is the length of the slice that was read.
#[derive(Clone, Copy)]
struct Entries {
    k: u64,
    fixed: u64,
    array: [u8; 20],
}

// Where a permutation stands in the list of one size, S(m,cycles), read forward or backward: the number of its block, from 0 in written order, and how many rows
// of the list stand before the block in that reading.
#[derive(Clone, Copy)]
pub struct Step {
    pub cycles: u64,
    pub backward: bool,
    pub block: u64,
    pub before: u64,
}

// A step of zeros.
const STILL: Step = Step {
    cycles: 0,
    backward: false,
    block: 0,
    before: 0,
};

// The steps of a permutation from n down to 1, in front of steps of zeros, and how many additions found them.
#[derive(Drop)]
struct Path {
    steps: [Step; 20],
    additions: u64,
}

// The steps of a permutation from n down to 1, in front of steps of zeros, and its number of cycles.
#[derive(Clone, Copy)]
pub struct Descent {
    pub k: u64,
    pub steps: [Step; 20],
}

// The number of block j of S(n,k) where the blocks are counted as a reading meets them; and from there back to j. Past the last block, read backward, it is 0, and no
// Option: that is truncated subtraction, as the definition has it for every j.
pub fn number_read(n: u64, k: u64, backward: bool, j: u64) -> u64
    ensures { result ≡ number_read n k backward j }
{
    if backward {
        return gray::block_count(n, k).saturating_sub(j).saturating_sub(1);
    }
    j
}

// The index of the block of S(n,k) that extends; where none does, as in (a) from n = 2 on, the number of blocks, and no Option: no block has that number, so that size_at
// and search_number need no case for it.
fn extension_index(n: u64, k: u64) -> u64
    requires { Listed n k }
    ensures { ExtendsAt n k false result }
{
    if k == 1 {
        return n - 1;
    }
    if k + 1 == n {
        return k;
    }
    if k + 2 == n {
        return k;
    }
    n - k
}

// The same index where the blocks are counted as a reading meets them. Not by `number_read`, since where none extends the index stays the number of blocks.
fn extension_read(n: u64, k: u64, backward: bool) -> u64
    requires { Listed n k }
    ensures { ExtendsAt n k backward result }
{
    let index = extension_index(n, k);
    let count = gray::block_count(n, k);
    if !backward {
        return index;
    }
    if index < count {
        return count - 1 - index;
    }
    index
}

// The sizes of the blocks of S(n,k): one that inserts has as many rows as S(n-1,k), and the one that extends as many as S(n-1,k-1). The two counts stand side by side in the
// table, and are inside it, so that neither is looked for.
fn sizes_of(table: Table, n: u64, k: u64, backward: bool) -> Sizes
    requires listed { Listed n k }
    ensures { AreSizes n k backward result }
{
    let at = ((n - 1) * 21 + k) as usize;
    Sizes {
        inserted: table.counts[at],
        extended: table.counts[at - 1],
        extension: extension_read(n, k, backward),
    }
}

// The size of a block, by its number.
fn size_at(sizes: Sizes, j: u64) -> u64
    ensures { result ≡ cond (eqb j sizes.extension) sizes.extended sizes.inserted }
{
    if j == sizes.extension {
        return sizes.extended;
    }
    sizes.inserted
}

// Every search goes on to the next block by this one addition: the size of the block that is passed is added to the running start.
fn pass(stop: Stop, size: u64) -> Stop
    requires { (stop.number < 20) × (stop.additions < 20) × (stop.start + size < 2 ^ 64) }
    ensures { result ≡ record { number = stop.number + 1; start = stop.start + size; additions = stop.additions + 1 } }
{
    Stop {
        number: stop.number + 1,
        start: stop.start + size,
        additions: stop.additions + 1,
    }
}

// The block of S(n,k) that holds the row at a place of a reading. The search ends inside the loop, so that a `for` over the blocks would want an answer that is never given.
fn search_place(table: Table, n: u64, k: u64, backward: bool, place: u64) -> Stop
    requires listed { Listed n k × (place < c n k) }
    ensures stop { IsStop n k backward result }
    ensures place { (before n k backward result.number ≤ place) × (place < before n k backward (suc result.number)) }
{
    let sizes = sizes_of(table, n, k, backward);
    let mut stop = FIRST;
    loop {
        let size = size_at(sizes, stop.number);
        if place - stop.start < size {
            return stop;
        }
        stop = pass(stop, size);
    }
}

// Past blocks of one size, up to the block with a number.
fn pass_run(stop: Stop, size: u64, number: u64) -> Stop
    requires { (stop.number ≤ number) × (number ≤ 20) × (stop.additions ≤ stop.number) × (stop.start + (number - stop.number) * size < 2 ^ 64) }
    ensures { result ≡ record { number = number; start = stop.start + (number - stop.number) * size; additions = stop.additions + (number - stop.number) } }
{
    let mut at = stop;
    for _ in stop.number..number {
        at = pass(at, size);
    }
    at
}

// The block of S(n,k) with a number, counted as a reading meets the blocks: the blocks before the one that extends are of one size, and so are those after it.
fn search_number(table: Table, n: u64, k: u64, backward: bool, number: u64) -> Stop
    requires listed { Listed n k × (number < length (blocks n k)) }
    ensures stop { IsStop n k backward result }
    ensures number { result.number ≡ number }
{
    let sizes = sizes_of(table, n, k, backward);
    if number <= sizes.extension {
        return pass_run(FIRST, sizes.inserted, number);
    }
    let before = pass_run(FIRST, sizes.inserted, sizes.extension);
    pass_run(pass(before, sizes.extended), sizes.inserted, number)
}

// What stands below a block of S(n,k). Where a list is read backward, each of its blocks is turned.
pub fn below_block(n: u64, k: u64, backward: bool, block: Block) -> Below
    ensures { result ≡ below_block n k backward block }
{
    let (position, cycles, reading) = match block {
        Block::Insert { position, reading } => (position, k, reading),
        Block::Extend { reading } => (n, k.saturating_sub(1), reading),
    };
    Below {
        position,
        cycles,
        backward: backward != (reading % 2 == 1),
    }
}

// The part of the block at which a search stopped.
fn part_of(n: u64, k: u64, backward: bool, stop: Stop) -> Part
    requires { Listed n k × IsStop n k backward stop }
    ensures { result ≡ part_of n k backward (number_read n k backward stop.number) }
{
    let block = number_read(n, k, backward, stop.number);
    Part {
        block,
        start: stop.start,
        additions: stop.additions,
        below: below_block(n, k, backward, gray::block_at(n, k, block)),
    }
}

// The part of a reading of S(n,k) that holds the row at a place.
fn part_at(table: Table, n: u64, k: u64, backward: bool, place: u64) -> Part
    requires listed { Listed n k × (place < c n k) }
    ensures { HoldsPlace n k backward place result }
{
    part_of(n, k, backward, search_place(table, n, k, backward, place))
}

// The part of a reading of S(n,k) whose rows have value n at position i: the block's number is had by a formula, and then its start by the additions.
fn part_with(table: Table, n: u64, k: u64, backward: bool, i: u64) -> Part
    requires occurs { Occurs n k i }
    ensures { result ≡ part_of n k backward (number_of n k i) }
{
    let numbered = gray::block_with(n, k, i);
    let number = number_read(n, k, backward, numbered.number);
    let stop = search_number(table, n, k, backward, number);
    Part {
        block: numbered.number,
        start: stop.start,
        additions: stop.additions,
        below: below_block(n, k, backward, numbered.block),
    }
}

// The identity, as long as the slice.
fn write_identity(out: &mut [u8])
    requires { length out.old ≤ 20 }
    ensures { out.new ≡ positions (length out.old) }
{
    for (i, value) in out.iter_mut().enumerate() {
        *value = (i + 1) as u8;
    }
}

// Value n put into a row of n-1 in front of `row`: the value at position i goes to position n, and n to position i.
fn put_in(n: u64, i: u64, row: &mut [u8])
    requires { (1 ≤ i) × (i ≤ n) × (n ≤ 20) × (n ≤ length row.old) }
    ensures { row.new ≡ put_in n i row.old }
{
    let last = (n - 1) as usize;
    let at = (i - 1) as usize;
    row[last] = row[at];
    row[at] = n as u8;
}

// The row at a place of S(n,k), read forward, in the first n bytes of `out`, and how many additions found it. Two functions that call each other, and not one, as document
// 01 has the two readings: they differ in the reading alone.
#[cycle(unrank_backward_unrank_forward_unrank_reading)]
fn unrank_forward(table: Table, n: u64, k: u64, place: u64, out: &mut [u8]) -> u64
    requires readable { Readable n k place (length out.old) }
    ensures row { InFront n (row_at (S n k) place) out.old out.new }
    ensures counted { Additions n k false (row_at (S n k) place) result }
{
    unrank_reading(table, n, k, false, place, out)
}

// The same where the list is read backward: place 0 is the last row.
#[cycle(unrank_backward_unrank_forward_unrank_reading)]
fn unrank_backward(table: Table, n: u64, k: u64, place: u64, out: &mut [u8]) -> u64
    requires readable { Readable n k place (length out.old) }
    ensures row { InFront n (row_at (reverse (S n k)) place) out.old out.new }
    ensures counted { Additions n k true (row_at (reverse (S n k)) place) result }
{
    unrank_reading(table, n, k, true, place, out)
}

// What both readings do: below the part that holds the place stands a row of n-1, read as the part says; n is added at its end, and exchanged with the value at the
// part's position. Where k = n the identity is the only row.
#[cycle(unrank_backward_unrank_forward_unrank_reading)]
fn unrank_reading(table: Table, n: u64, k: u64, backward: bool, place: u64, out: &mut [u8]) -> u64
    requires readable { Readable n k place (length out.old) }
    ensures row { InFront n (row_at (reading_of backward n k) place) out.old out.new }
    ensures counted { Additions n k backward (row_at (reading_of backward n k) place) result }
{
    if n == k {
        let size = n as usize;
        write_identity(&mut out[..size]);
        return 0;
    }
    let part = part_at(table, n, k, backward, place);
    let rest = place - part.start;
    let additions = if part.below.backward {
        unrank_backward(table, n - 1, part.below.cycles, rest, out)
    } else {
        unrank_forward(table, n - 1, part.below.cycles, rest, out)
    };
    put_in(n, part.below.position, out);
    part.additions + additions
}

// The permutation at a place of S(n,k), written to `out`. Refusals in document 01's order; a refused call writes nothing.
pub fn unrank(n: u64, k: u64, place: u64, out: &mut [u8]) -> Result<(), Refusal>
    ensures { Unranked n k place out.old (refusal_in result) out.new }
{
    let counts = stirling::table();
    let table = Table { counts: &counts };
    stirling::check_place_in(table.counts, n, k, place)?;
    if out.len() as u64 != n {
        return Err(Refusal::Lent);
    }
    unrank_forward(table, n, k, place, out);
    Ok(())
}

// The place in S(n,k), read forward, of the permutation of a transposition array of n entries, and how many additions found it. Two functions here too, as document 01 has
// the two readings.
#[cycle(rank_backward_rank_forward_rank_reading)]
fn rank_forward(table: Table, a: &[u8], k: u64) -> Sum
    requires rankable { Rankable a.now k }
    ensures place { PlaceIn false (length a.now) k (product a.now) result.starts }
    ensures counted { Additions (length a.now) k false (product a.now) result.additions }
{
    rank_reading(table, a, k, false)
}

// The same where the list is read backward: place 0 is the last row.
#[cycle(rank_backward_rank_forward_rank_reading)]
fn rank_backward(table: Table, a: &[u8], k: u64) -> Sum
    requires rankable { Rankable a.now k }
    ensures place { PlaceIn true (length a.now) k (product a.now) result.starts }
    ensures counted { Additions (length a.now) k true (product a.now) result.additions }
{
    rank_reading(table, a, k, true)
}

// What both readings do: the last entry names a part of the list, and the entries before it the place in the list below, read as the part says. Where k = n the identity
// stands at place 0.
#[cycle(rank_backward_rank_forward_rank_reading)]
fn rank_reading(table: Table, a: &[u8], k: u64, backward: bool) -> Sum
    requires rankable { Rankable a.now k }
    ensures place { PlaceIn backward (length a.now) k (product a.now) result.starts }
    ensures counted { Additions (length a.now) k backward (product a.now) result.additions }
{
    let n = a.len() as u64;
    if n == k {
        return Sum {
            starts: 0,
            additions: 0,
        };
    }
    let last = a.len() - 1;
    let part = part_with(table, n, k, backward, u64::from(a[last]));
    let below = if part.below.backward {
        rank_backward(table, &a[..last], part.below.cycles)
    } else {
        rank_forward(table, &a[..last], part.below.cycles)
    };
    Sum {
        starts: part.start + below.starts,
        additions: part.additions + below.additions,
    }
}

// How many entries i of a transposition array are i itself: the number of cycles of its permutation. In `exchanges` the other entries are counted: one public function of
// `perm` for both would save this one loop, and be a public clause more.
fn fixed_entries(a: &[u8]) -> u64
    ensures { result ≡ fixed a.now }
{
    let mut fixed = 0;
    for (i, entry) in a.iter().enumerate() {
        if usize::from(*entry) == i + 1 {
            fixed += 1;
        }
    }
    fixed
}

// The transposition array of a permutation of n values, where n is the slice's length, and its number of cycles and of fixed points. Refusals in document 01's
// order: check 1, and then checks 6 and 7 as the array is made.
fn entries_of(s: &[u8]) -> Result<Entries, Refusal>
    ensures { HasEntries s.now result }
{
    let n = s.len();
    stirling::check_size(n as u64)?;
    let mut array = [0u8; 20];
    let fixed = perm::to_array(s, &mut array[..n])?;
    let k = fixed_entries(&array[..n]);
    Ok(Entries { k, fixed, array })
}

// The place in S(n,k) of the permutation of a transposition array of n entries. The table is made here and in `descend_from`, and not where the checks stand: a function
// with a `?` clears the room of what it makes behind it, and a second time over the table is as long as making it.
fn place_of(a: &[u8], k: u64) -> u64
    requires { Rankable a.now k }
    ensures { PlaceIn false (length a.now) k (product a.now) result }
{
    let counts = stirling::table();
    let table = Table { counts: &counts };
    rank_forward(table, a, k).starts
}

// Where a permutation stands: its number of cycles k, and its place in S(n,k), where n is the slice's length; and its number of fixed points. Refusals 1, 6, 7, as
// its array is made.
pub fn rank(s: &[u8]) -> Result<Stand, Refusal>
    ensures { Ranked s.now (answer_of result) }
{
    let entries = entries_of(s)?;
    let place = place_of(&entries.array[..s.len()], entries.k);
    Ok(Stand {
        k: entries.k,
        place,
        fixed: entries.fixed,
    })
}

// The steps of the permutation of a transposition array of n entries, from S(n,k) down, and how many additions found them.
fn descend_from(a: &[u8], k: u64) -> Path
    requires rankable { Rankable a.now k }
    ensures steps { result.steps ≡ steps (length a.now) k false (product a.now) ++ replicate (20 - length a.now) still }
    ensures counted { Additions (length a.now) k false (product a.now) result.additions }
{
    let n = a.len();
    let counts = stirling::table();
    let table = Table { counts: &counts };
    let mut steps = [STILL; 20];
    let mut additions = 0;
    let mut cycles = k;
    let mut backward = false;
    for (done, i) in a.iter().rev().enumerate() {
        let m = (n - done) as u64;
        let part = part_with(table, m, cycles, backward, u64::from(*i));
        steps[done] = Step {
            cycles,
            backward,
            block: part.block,
            before: part.start,
        };
        additions += part.additions;
        cycles = part.below.cycles;
        backward = part.below.backward;
    }
    Path { steps, additions }
}

// The steps of a permutation down through the lists, and its number of cycles. Refusals 1, 6, 7, as its array is made.
pub fn descend(s: &[u8]) -> Result<Descent, Refusal>
    ensures { Descends s.now result }
{
    let entries = entries_of(s)?;
    let path = descend_from(&entries.array[..s.len()], entries.k);
    let steps = path.steps;
    Ok(Descent {
        k: entries.k,
        steps,
    })
}

// Checks 1, 2 and 3, then check 4: m is 1 to 1,000, and S(n,k) has m rows from the place on.
fn check_row_count_in(table: Table, n: u64, k: u64, place: u64, m: u64) -> Result<(), Refusal>
    ensures { refusal_in result ≡ check_row_count n k place m }
{
    stirling::check_place_in(table.counts, n, k, place)?;
    if m < 1 || m > MOST_ROWS {
        return Err(Refusal::Rows);
    }
    if m > stirling::entry(table.counts, n, k) - place {
        return Err(Refusal::Rows);
    }
    Ok(())
}

// The same checks, where no table is at hand.
pub fn check_row_count(n: u64, k: u64, place: u64, m: u64) -> Result<(), Refusal>
    ensures { refusal_in result ≡ check_row_count n k place m }
{
    let counts = stirling::table();
    let table = Table { counts: &counts };
    check_row_count_in(table, n, k, place, m)
}

// Check 5 of the rows: from byte o on, a buffer of `size` bytes has room for `bytes` of them. No sum is made that could wrap.
fn check_room(size: u64, o: u64, bytes: u64) -> Result<(), Refusal>
    ensures { MatchResult result (λ _. o + bytes ≤ size) (λ refusal. (refusal ≡ Lent) × (size < o + bytes)) }
{
    if o > size {
        return Err(Refusal::Lent);
    }
    if size - o < bytes {
        return Err(Refusal::Lent);
    }
    Ok(())
}

// Value n put into each of `count` rows of n-1 that stand `apart` bytes from each other. By index: after `chunks_exact_mut` the proof knows nothing of the bytes.
fn put_apart(n: u64, i: u64, apart: u64, count: u64, out: &mut [u8])
    requires { (1 ≤ i) × (i ≤ n) × (n ≤ 20) × (n ≤ apart) × (count * apart ≤ length out.old) }
    ensures { out.new ≡ put_apart n i apart count out.old }
{
    for row in 0..count {
        let at = (row * apart) as usize;
        let end = at + apart as usize;
        put_in(n, i, &mut out[at..end]);
    }
}

// `count` rows of S(n,k) from a place of a reading on, `apart` bytes from each other. It goes through the blocks that the rows lie in: what stands below a block is written
// by this function, into the part of `out` that the block's rows fill, and then n is put into each of them. An iteration passes a block or writes rows of it, so that
// neither the blocks nor the rows make a range for a `for`.
fn fill_rows(
    table: Table,
    n: u64,
    k: u64,
    backward: bool,
    place: u64,
    count: u64,
    apart: u64,
    out: &mut [u8],
)
    requires fillable { Fillable n k place count apart (length out.old) }
    ensures { out.new ≡ rows_apart apart (take count (drop place (reading_of backward n k))) out.old }
{
    if count == 1 {
        unrank_reading(table, n, k, backward, place, out);
        return;
    }
    let sizes = sizes_of(table, n, k, backward);
    let mut stop = FIRST;
    let mut done = 0;
    loop {
        let size = size_at(sizes, stop.number);
        let from = place + done - stop.start;
        if size <= from {
            stop = pass(stop, size);
            continue;
        }
        let here = (count - done).min(size - from);
        let part = part_of(n, k, backward, stop);
        let at = (done * apart) as usize;
        let end = at + (here * apart) as usize;
        fill_rows(
            table,
            n - 1,
            part.below.cycles,
            part.below.backward,
            from,
            here,
            apart,
            &mut out[at..end],
        );
        put_apart(n, part.below.position, apart, here, &mut out[at..end]);
        done += here;
        if done == count {
            return;
        }
    }
}

// The m rows of S(n,k) from a place on, one after another, at the front of `part`; the bytes after them stay.
fn write_rows(table: Table, n: u64, k: u64, place: u64, m: u64, part: &mut [u8])
    requires m_value { check_row_count n k place m ≡ 0 }
    requires n_in_bounds { m * n ≤ length part.old }
    ensures { part.new ≡ rows_from n k place m ++ drop (m * n) part.old }
{
    fill_rows(table, n, k, false, place, m, n, part);
}

// The m rows of S(n,k) from a place on, one after another, written to `buf` from byte o on; the bytes before and after them stay.
// Refusals in document 01's order; a refused call writes nothing.
pub fn rows(n: u64, k: u64, place: u64, m: u64, o: u64, buf: &mut [u8]) -> Result<(), Refusal>
    ensures { RowsWritten n k place m o buf.old (refusal_in result) buf.new }
{
    let counts = stirling::table();
    let table = Table { counts: &counts };
    check_row_count_in(table, n, k, place, m)?;
    check_room(buf.len() as u64, o, m * n)?;
    let from = o as usize;
    write_rows(table, n, k, place, m, &mut buf[from..]);
    Ok(())
}
