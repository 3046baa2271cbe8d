// The exchanges that turn one permutation into another, as few as can be: the permutation that carries one to the other, its transposition array, and of that
// the entries that are not fixed.
#![tactic(auto)]

ghost use Rattle.std.specs.Prelude.{◌≡◌, ℕ, ◌+◌, ◌*◌, ◌≤◌, ◌<◌, not, length, get_or, count_by, nat_eq};
ghost use Rattle.std.specs.List.{enumerate_from};
ghost use Rattle.stirling.specs.Refusal.{refusal_in};
ghost use Rattle.perm.specs.Permutation.{IsPermutation};
ghost use Rattle.perm.specs.Pairs.{front};
ghost use Rattle.exchanges.specs.Carrying.{carrying};
ghost use Rattle.exchanges.specs.Pairs.{pairs_of};
ghost use Rattle.exchanges.specs.Between.{check_lengths, check_contents, answer_of, Exchanged};

use stirling::Refusal;

// How many pairs of positions are exchanged, and how many bytes they were written to.
#[derive(Clone, Copy)]
pub struct Written {
    pub count: u64,
    pub written: u64,
}

// The same as C has it, or a refusal's number with zeros.
#[repr(C)]
#[derive(Drop)]
pub struct Exchanges {
    pub refusal: u8,
    pub count: u64,
    pub written: u64,
}

impl From<Result<Written, Refusal>> for Exchanges {
    ghost from_gives = { λ given answer. answer ≡ answer_of given };

    fn from(given: Result<Written, Refusal>) -> Exchanges {
        match given {
            Ok(pairs) => Exchanges {
                refusal: 0,
                count: pairs.count,
                written: pairs.written,
            },
            Err(refusal) => Exchanges {
                refusal: refusal.number(),
                count: 0,
                written: 0,
            },
        }
    }
}

// The checks on the lengths of two permutations: 1 for either, then 5.
fn check_lengths(from: usize, to: usize) -> Result<(), Refusal>
    ensures { refusal_in result ≡ check_lengths from to }
{
    stirling::check_size(from as u64)?;
    stirling::check_size(to as u64)?;
    if to != from {
        return Err(Refusal::Lent);
    }
    Ok(())
}

// The checks 6 and 7 on two permutations that check 1 passes, all of 6 before any of 7. (`perm::check_permutation` is checks 1 and 6 once more, which pass here: check 7
// alone has a `requires`, and a public call may have none.)
fn check_contents(from: &[u8], to: &[u8]) -> Result<(), Refusal>
    requires { (length from.now ≤ 20) × (length to.now ≤ 20) }
    ensures { refusal_in result ≡ check_contents from.now to.now }
{
    perm::check_values(from)?;
    perm::check_values(to)?;
    perm::check_permutation(from)?;
    perm::check_permutation(to)
}

// The index of each value of a permutation, by the value. (`perm::copy_indexed` notes it in the one pass that copies and counts too: a call of its own there would be two.)
fn indices(s: &[u8]) -> [u8; 21]
    requires { (length s.now ≤ 20) × IsPermutation (length s.now) s.now }
    ensures { (length result ≡ 21) × ((j : ℕ) → j < length s.now → get_or result (get_or s.now j 0) 0 ≡ j) }
{
    let mut index = [0u8; 21];
    for (i, v) in s.iter().enumerate() {
        index[usize::from(*v)] = i as u8;
    }
    index
}

// The permutation that carries `from` to `to`: at each position the position at which `from` has the value that `to` has there.
// By index: with `carrier.iter_mut().zip(to)` the loop's invariant could not name what is written, and the goal `returns` stayed open.
fn carry(from: &[u8], to: &[u8], carrier: &mut [u8])
    requires { (length from.now ≤ 20) × IsPermutation (length from.now) from.now × IsPermutation (length from.now) to.now × (length carrier.old ≡ length from.now) }
    ensures { carrier.new ≡ carrying from.now to.now }
{
    let index = indices(from);
    for (i, v) in to.iter().enumerate() {
        carrier[i] = index[usize::from(*v)] + 1;
    }
}

// How many entries are not one more than their index, which a fixed one is: as many pairs do they give (`count_unfixed`, proofs/Pairs.antt).
// `rank: fixed_entries` counts the others in the like chain, and perm counts fixed points as it copies: one line each, and no plainer as one public function.
fn count_pairs(entries: &[u8]) -> usize
    ensures { result ≡ count_by (λ x. not (nat_eq x.1 (x.0 + 1))) (enumerate_from 0 entries.now) }
{
    entries
        .iter()
        .enumerate()
        .filter(|(i, entry)| usize::from(**entry) != i + 1)
        .count()
}

// The pairs of the entries, to the front of `out`. By index: after `chunks_exact_mut` the proof knows nothing of the bytes, as in `rank: put_apart`.
fn write_pairs(entries: &[u8], out: &mut [u8])
    requires { (length entries.now ≤ 20) × (2 * length (pairs_of entries.now) ≤ length out.old) }
    ensures { out.new ≡ front (pairs_of entries.now) out.old }
{
    let mut at = 0;
    for (i, entry) in entries.iter().enumerate() {
        let position = i as u8 + 1;
        if *entry != position {
            out[at] = *entry;
            out[at + 1] = position;
            at += 2;
        }
    }
}

// The pairs of positions whose values are exchanged, one pair after another, to turn `from` into `to`: two bytes a pair, to the front of `out`. Refusals in
// document 02's order: 1 for either, 5 for unequal lengths, 6 for either, 7 for either, and last 5 for too short a buffer; a refused call writes nothing.
pub fn between(from: &[u8], to: &[u8], out: &mut [u8]) -> Result<Written, Refusal>
    ensures { Exchanged from.now to.now out.old (answer_of result) out.new }
{
    check_lengths(from.len(), to.len())?;
    check_contents(from, to)?;
    let n = from.len();
    // room for the largest n here and below, since there is no heap
    let mut carrier = [0u8; 20];
    let carrier = &mut carrier[..n];
    carry(from, to, carrier);
    let mut entries = [0u8; 20];
    let entries = &mut entries[..n];
    // never refused: the slices are one length, and `carrier` holds a permutation
    perm::to_array(carrier, entries).unwrap();
    let count = count_pairs(entries);
    let written = 2 * count;
    if out.len() < written {
        return Err(Refusal::Lent);
    }
    write_pairs(entries, out);
    Ok(Written {
        count: count as u64,
        written: written as u64,
    })
}
