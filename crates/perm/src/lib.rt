// Permutations and their transposition arrays, as byte slices: the checks 5, 6 and 7, and the calls from one to the other.
#![tactic(auto)]

ghost use Rattle.std.specs.Prelude.{◌≡◌, ℕ, ◌≤◌, ◌<◌, length, get_or};
ghost use Rattle.stirling.specs.Refusal.{within, ◌then◌, refusal_in};
ghost use Rattle.stirling.specs.Count.{check_size};
ghost use Rattle.perm.specs.Permutation.{IsPermutation, fixed};
ghost use Rattle.perm.specs.Array.{IsArray, IsArrayOf, product};
ghost use Rattle.perm.specs.Checks.{check_lent, check_values, check_twice, check_entries, check_permutation, ToArray, FromArray, answer_of};

use stirling::Refusal;

// What turning a permutation into its array answers, as C has it: how many values stand at their own position, or a refusal's number with 0.
#[repr(C)]
#[derive(Drop)]
pub struct Array {
    pub refusal: u8,
    pub fixed: u64,
}

impl From<Result<u64, Refusal>> for Array {
    ghost from_gives = { λ given answer. answer ≡ answer_of given };

    fn from(given: Result<u64, Refusal>) -> Array {
        match given {
            Ok(fixed) => Array { refusal: 0, fixed },
            Err(refusal) => Array {
                refusal: refusal.number(),
                fixed: 0,
            },
        }
    }
}

// What copying a permutation finds: the index of each value, by the value, and how many values stand at their own position. There is room for 20 values, since memory
// is fixed, and values count from 1.
#[derive(Drop)]
struct Copied {
    index: [u8; 21],
    fixed: u64,
}

// Whether a value is 1 to n.
fn in_range(v: u8, n: usize) -> bool
    ensures { result ≡ within 1 n v }
{
    (1..=n).contains(&usize::from(v))
}

// Check 6 on a permutation: some value is not 1 to n.
pub fn check_values(s: &[u8]) -> Result<(), Refusal>
    ensures { refusal_in result ≡ check_values s.now }
{
    for v in s {
        if !in_range(*v, s.len()) {
            return Err(Refusal::Value);
        }
    }
    Ok(())
}

// Check 7, where check 6 does not refuse: some value occurs more than once. Each value has a flag that it was met.
fn check_twice(s: &[u8]) -> Result<(), Refusal>
    requires { (length s.now ≤ 20) × (check_values s.now ≡ 0) }
    ensures { refusal_in result ≡ check_twice s.now }
{
    let mut met = [false; 21];
    for value in s {
        let v = usize::from(*value);
        if met[v] {
            return Err(Refusal::Twice);
        }
        met[v] = true;
    }
    Ok(())
}

// Check 6 on an array: some entry i is not 1 to i.
pub fn check_entries(a: &[u8]) -> Result<(), Refusal>
    ensures { refusal_in result ≡ check_entries a.now }
{
    for (i, entry) in a.iter().enumerate() {
        if !in_range(*entry, i + 1) {
            return Err(Refusal::Value);
        }
    }
    Ok(())
}

// The checks 6 and 7 on a permutation, all of 6 before any of 7.
fn check_contents(s: &[u8]) -> Result<(), Refusal>
    requires { length s.now ≤ 20 }
    ensures { refusal_in result ≡ check_values s.now then check_twice s.now }
{
    check_values(s)?;
    check_twice(s)
}

// The checks of a permutation that is read: 1, 6, 7.
pub fn check_permutation(s: &[u8]) -> Result<(), Refusal>
    ensures { refusal_in result ≡ check_permutation s.now }
{
    stirling::check_size(s.len() as u64)?;
    check_contents(s)
}

// The checks 1 and 5 on the lengths of the slice that is read and of the one that is lent.
pub fn check_lengths(read: usize, lent: usize) -> Result<(), Refusal>
    ensures { refusal_in result ≡ check_size read then check_lent read lent }
{
    stirling::check_size(read as u64)?;
    if lent != read {
        return Err(Refusal::Lent);
    }
    Ok(())
}

// The permutation s, written to a slice of its length. Its fixed points are counted on the way, since this is where s is read.
fn copy_indexed(s: &[u8], out: &mut [u8]) -> Copied
    requires { (length s.now ≤ 20) × (length out.old ≡ length s.now) × IsPermutation (length s.now) s.now }
    ensures copied { (out.new ≡ s.now) × (length result.index ≡ 21) × ((j : ℕ) → j < length s.now → get_or result.index (get_or s.now j 0) 0 ≡ j) }
    ensures counted { result.fixed ≡ fixed s.now }
{
    let mut index = [0u8; 21];
    let mut fixed = 0;
    for (i, v) in s.iter().enumerate() {
        if usize::from(*v) == i + 1 {
            fixed += 1;
        }
        out[i] = *v;
        index[usize::from(*v)] = i as u8;
    }
    Copied { index, fixed }
}

// The array of the permutation s. From the last position down: the value m stands at index i of the first m, so entry m is i + 1,
// and the value at position m takes its place, and its index. Gives the number of fixed points of s.
fn write_array(s: &[u8], out: &mut [u8]) -> u64
    requires { (length s.now ≤ 20) × (length out.old ≡ length s.now) × IsPermutation (length s.now) s.now }
    ensures written { IsArrayOf s.now out.new }
    ensures counted { result ≡ fixed s.now }
{
    let copied = copy_indexed(s, out);
    let mut index = copied.index;
    for m in (0..out.len()).rev() {
        let i = index[m + 1];
        index[usize::from(out[m])] = i;
        out[usize::from(i)] = out[m];
        out[m] = i + 1;
    }
    copied.fixed
}

// The permutation of the array a. From the first position up: position m takes the value at the position that entry m names, which takes the value m.
fn write_product(a: &[u8], out: &mut [u8])
    requires { (length a.now ≤ 20) × (length out.old ≡ length a.now) × IsArray (length a.now) a.now }
    ensures { out.new ≡ product a.now }
{
    for (m, entry) in a.iter().enumerate() {
        let i = usize::from(*entry) - 1;
        out[m] = out[i];
        out[i] = (m + 1) as u8;
    }
}

// The array of the permutation s, written to `out`; gives the number of fixed points of s. Refusals 1, 5, 6, 7 in document 01's order; a refused call writes nothing.
pub fn to_array(s: &[u8], out: &mut [u8]) -> Result<u64, Refusal>
    ensures { ToArray s.now out.old (answer_of result) out.new }
{
    check_lengths(s.len(), out.len())?;
    check_contents(s)?;
    Ok(write_array(s, out))
}

// The permutation of the array a, written to `out`. Refusals 1, 5, 6 in document 01's order; a refused call writes nothing.
pub fn from_array(a: &[u8], out: &mut [u8]) -> Result<(), Refusal>
    ensures { FromArray a.now out.old (refusal_in result) out.new }
{
    check_lengths(a.len(), out.len())?;
    check_entries(a)?;
    write_product(a, out);
    Ok(())
}
