// The first permutation of S(n,k), from a place on, that has the wished value at each position with a wish. It is found by going down the blocks, never by going through the
// list: a block is entered only if a count says that some row of it meets the wishes that are left.
#![tactic(auto)]

ghost use Rattle.std.specs.Prelude.{◌≡◌, ◌-◌, ◌≤◌, ◌<◌, true, length, get_or, set};
ghost use Rattle.stirling.specs.Refusal.{◌then◌, refusal_in};
ghost use Rattle.stirling.specs.Count.{c, IsTable};
ghost use Rattle.perm.specs.Lists.{some};
ghost use Rattle.perm.specs.Cycle.{cycles};
ghost use Rattle.gray.specs.Order.{S};
ghost use Rattle.gray.specs.Blocks.{blocks};
ghost use Rattle.find.specs.Meeting.{meets};
ghost use Rattle.find.specs.Find.{check_lengths, check_pattern, answer_of, find_of, written_by};
ghost use Rattle.find.specs.Search.{place_found, pattern_of, Linked, AreByValue, below_at, enters, Searchable, Searched};

use rank::Below;
use stirling::Refusal;

// What a call answers, as C has it: the place of the permutation found, or a refusal's number with 0.
#[repr(C)]
#[derive(Drop)]
pub struct Found {
    pub refusal: u8,
    pub place: u64,
}

impl From<Result<u64, Refusal>> for Found {
    ghost from_gives = { λ given answer. answer ≡ answer_of given };

    fn from(given: Result<u64, Refusal>) -> Found {
        match given {
            Ok(place) => Found { refusal: 0, place },
            Err(refusal) => Found {
                refusal: refusal.number(),
                place: 0,
            },
        }
    }
}

// Wishes of `size` positions: index i has the wish of position i, and 0 for a free one; index 0 is no position.
// 0 as C's wishes have it; what is missing is written to index 0, so that `closed` needs no case. 21 bytes for the largest size, here and below, since there is no heap.
#[derive(Clone, Copy)]
struct Pattern {
    size: u64,
    values: [u8; 21],
    ghost small: { size ≤ 20 },
}

// Wishes by their values: index v has the position that wishes v, and 0 where none does; and how many positions are free.
#[derive(Drop)]
struct ByValue {
    free: u64,
    positions: [u8; 21],
}

// The place that a search found, and how many lists it went through.
#[derive(Drop)]
struct Search {
    place: Option<u64>,
    calls: u64,
}

impl Pattern {
    // The wishes of a slice, in which position 1 comes first.
    fn new(pattern: &[u8]) -> Pattern
        requires { length pattern.now ≤ 20 }
        ensures size { result.size ≡ length pattern.now }
        ensures values { pattern_of result.size result.values ≡ pattern.now }
    {
        let mut values = [0u8; 21];
        values[1..=pattern.len()].copy_from_slice(pattern);
        Pattern {
            size: pattern.len() as u64,
            values,
        }
    }

    // The wishes by their values, in one pass; none where a value is wished twice or is above the size, since no permutation meets such wishes. A free position is noted at
    // index 0, which is no value.
    fn by_value(self) -> Option<ByValue>
        ensures { AreByValue self.size self.values result }
    {
        let mut positions = [0u8; 21];
        let mut free = 0;
        // by position, not over the slice: i is also what is noted
        for i in 1..=self.size {
            let value = usize::from(self.values[i as usize]);
            if value as u64 > self.size {
                return None;
            }
            if value == 0 {
                free += 1;
            } else if positions[value] != 0 {
                return None;
            }
            positions[value] = i as u8;
        }
        Some(ByValue { free, positions })
    }

    // How many cycles the wishes close. The last position and its value are taken away, one size after another: the position that wishes the value gets the wish of the last
    // one, and where the last wishes itself a cycle is closed. A value or a position that is missing is index 0, which is no position.
    // `positions` comes by value, since it is used up.
    fn closed(self, mut positions: [u8; 21]) -> u64
        requires { Linked self.size self.values positions }
        ensures { result ≡ cycles (pattern_of self.size self.values) }
    {
        let mut values = self.values;
        let mut count = 0;
        for m in (1..=self.size).rev() {
            let position = positions[m as usize];
            let value = values[m as usize];
            if u64::from(value) == m {
                count += 1;
            }
            values[usize::from(position)] = value;
            positions[usize::from(value)] = position;
        }
        count
    }

    // Whether some row of S(size,k) meets the wishes: the free positions have from one to as many cycles as they are, beside those that the wishes close. No table is
    // needed.
    fn can_meet(self, k: u64) -> bool
        ensures { result ≡ some (meets (pattern_of self.size self.values)) (S self.size k) }
    {
        let Some(seen) = self.by_value() else {
            return false;
        };
        let ByValue { free, positions } = seen;
        let cycles = self.closed(positions);
        if free == 0 {
            return k == cycles;
        }
        cycles < k && k <= cycles + free
    }

    // The wishes that are left below a block that puts the highest value at a position: that position gets, one size down, what the last one has now, and so its wish.
    fn smaller(self, position: u64) -> Pattern
        requires { (1 ≤ position) × (position ≤ self.size) }
        ensures size { result.size ≡ self.size - 1 }
        ensures values { result.values ≡ set self.values position (get_or self.values self.size 0) }
    {
        let mut values = self.values;
        values[position as usize] = values[self.size as usize];
        Pattern {
            size: self.size - 1,
            values,
        }
    }

    // Whether some row of a block meets the wishes: the highest value is granted where the block puts it, and some shorter row meets the wishes that are left.
    fn can_enter(self, below: Below) -> bool
        requires { (1 ≤ below.position) × (below.position ≤ self.size) }
        ensures { result ≡ enters self.size below self.values }
    {
        let value = self.values[below.position as usize];
        if value != 0 && u64::from(value) != self.size {
            return false;
        }
        self.smaller(below.position).can_meet(below.cycles)
    }
}

// What stands below the block with a number, counted as a reading of S(n,k) meets the blocks.
fn below_at(n: u64, k: u64, backward: bool, number: u64) -> Below
    requires { number < length (blocks n k) }
    ensures { result ≡ below_at n k backward number }
{
    let block = rank::number_read(n, k, backward, number);
    rank::below_block(n, k, backward, gray::block_at(n, k, block))
}

// The first row, from a start on, of a reading of S(n,k) that meets the wishes of n positions; some row of the list does. Only the first block entered can fail, since the
// start lies in its middle: any other is searched from its first row, and some row of it meets the wishes. So at most 2n+1 lists are gone through, each with at most n
// blocks, and a block's count takes some 2n steps.
// The slice of counts and its IsTable stand here and at least_place alone: rank's Table, which holds both, is private, and two contracts are no burden.
fn first(counts: &[u64], sought: Pattern, k: u64, backward: bool, start: u64) -> Search
    requires table { IsTable counts.now }
    requires searchable { Searchable sought.size k start sought.values }
    ensures { Searched sought.size k backward start sought.values result }
{
    let n = sought.size;
    if n == 0 {
        return Search {
            place: Some(0),
            calls: 1,
        };
    }
    let count = gray::block_count(n, k);
    let mut before = 0;
    let mut calls = 1;
    for number in 0..count {
        let below = below_at(n, k, backward, number);
        let next = before + stirling::entry(counts, n - 1, below.cycles);
        if start < next && sought.can_enter(below) {
            // a start that lies before the block is its first row
            let from = start.saturating_sub(before);
            let left = sought.smaller(below.position);
            let found = first(counts, left, below.cycles, below.backward, from);
            calls += found.calls;
            if let Some(place) = found.place {
                return Search {
                    place: Some(before + place),
                    calls,
                };
            }
        }
        before = next;
    }
    Search { place: None, calls }
}

// Check 6 on wishes: none is above n.
fn check_pattern(n: u64, pattern: &[u8]) -> Result<(), Refusal>
    ensures { refusal_in result ≡ check_pattern n pattern.now }
{
    if pattern.iter().any(|value| u64::from(*value) > n) {
        return Err(Refusal::Value);
    }
    Ok(())
}

// Check 5 for the wishes and for a slice of `size` bytes, then check 6.
fn check_slices(n: u64, pattern: &[u8], size: usize) -> Result<(), Refusal>
    ensures { refusal_in result ≡ check_lengths n (length pattern.now) size then check_pattern n pattern.now }
{
    if pattern.len() as u64 != n || size as u64 != n {
        return Err(Refusal::Lent);
    }
    check_pattern(n, pattern)
}

// The first place of S(n,k) from a place on whose row meets the wishes. The slice of counts and its IsTable are lent on, as `first` says.
fn least_place(counts: &[u64], n: u64, k: u64, place: u64, pattern: &[u8]) -> Option<u64>
    requires table { IsTable counts.now }
    requires n_bound { (n ≤ 20) × (place < c n k) × (length pattern.now ≡ n) }
    ensures { result ≡ place_found (meets pattern.now) (S n k) place }
{
    let sought = Pattern::new(pattern);
    if !sought.can_meet(k) {
        return None;
    }
    first(counts, sought, k, false, place).place
}

// The first row of S(n,k) at or after a place that meets the wishes: its place, and the row itself in `out`. Refusals 1, 2, 3, 5, 6, 14; a refused call writes nothing.
pub fn find(n: u64, k: u64, place: u64, pattern: &[u8], out: &mut [u8]) -> Result<u64, Refusal>
    ensures answer { answer_of result ≡ find_of n k place pattern.now (length out.old) }
    ensures row { out.new ≡ written_by n k (answer_of result) out.old }
{
    let counts = stirling::table();
    stirling::check_place_in(&counts, n, k, place)?;
    check_slices(n, pattern, out.len())?;
    let found = least_place(&counts, n, k, place, pattern).ok_or(Refusal::Unmet)?;
    // never refused: the checks that passed are those of the row too
    rank::unrank(n, k, found, out).unwrap();
    Ok(found)
}
