// An array read as the inversion table of a sequence: entry i is one more than the number of earlier elements that are higher than the i-th. The call from table to
// sequence and the call back.
#![tactic(auto)]

ghost use Rattle.std.specs.Prelude.{◌≡◌, suc, ◌+◌, ◌≤◌, ◌<◌, cond, ltb, length, take, count_by, nat_lt};
ghost use Rattle.stirling.specs.Refusal.{refusal_in};
ghost use Rattle.perm.specs.Array.{IsArray};
ghost use Rattle.inversion.specs.Table.{IsTable, IsSequence};
ghost use Rattle.inversion.specs.Calls.{FromInversions, ToInversions};

use stirling::Refusal;

// How many of some elements are higher than another. Added at each element, and in a byte, so that the machine compares many at once: `filter` and `count` go on element by
// element, and took five times as long at n = 20.
#[tactic(auto, using(std::proofs::lemmas::List::Sums::count_by_more_yes, std::proofs::lemmas::List::Sums::count_by_more_no))]
fn count_higher(elements: &[u8], element: u8) -> u8
    requires { length elements.now ≤ 20 }
    ensures { result ≡ count_by (nat_lt element) elements.now }
{
    let mut count = 0;
    for x in elements {
        if *x > element {
            count += 1;
        }
    }
    count
}

// The inversion table of the sequence q.
fn write_table(q: &[u8], out: &mut [u8])
    requires { (length q.now ≤ 20) × (length out.old ≡ length q.now) }
    ensures { IsTable q.now out.new }
{
    for (i, entry) in out.iter_mut().enumerate() {
        *entry = count_higher(&q[..i], q[i]) + 1;
    }
}

// An element, one up if it is v or higher, so that v comes free and the order of elements stays.
fn raised(x: u8, v: u8) -> u8
    requires { x < 255 }
    ensures { result ≡ cond (ltb x v) x (suc x) }
{
    if x < v {
        return x;
    }
    x + 1
}

// One element more of the sequence of the table a, of which the first m stand in `out`: entry m + 1 tells which of the values 1 to m + 1 it is, counted from the
// highest, and the earlier elements make room for it.
fn append(a: &[u8], out: &mut [u8], m: usize)
    requires { (length a.now ≤ 20) × (length out.old ≡ length a.now) × (m < length a.now) × IsArray (length a.now) a.now × IsSequence (take m a.now) (take m out.old) }
    ensures { IsSequence (take (m + 1) a.now) (take (m + 1) out.new) }
{
    let v = (m + 2) as u8 - a[m];
    for x in out[..m].iter_mut() {
        *x = raised(*x, v);
    }
    out[m] = v;
}

// The sequence of the inversion table a.
fn write_sequence(a: &[u8], out: &mut [u8])
    requires { (length a.now ≤ 20) × (length out.old ≡ length a.now) × IsArray (length a.now) a.now }
    ensures { IsSequence a.now out.new }
{
    for m in 0..a.len() {
        append(a, out, m);
    }
}

// The sequence of the inversion table a, written to `out`. Refusals 1, 5, 6 in document 01's order; a refused call writes nothing.
pub fn from_inversions(a: &[u8], out: &mut [u8]) -> Result<(), Refusal>
    ensures { FromInversions a.now out.old (refusal_in result) out.new }
{
    perm::check_lengths(a.len(), out.len())?;
    perm::check_entries(a)?;
    write_sequence(a, out);
    Ok(())
}

// The inversion table of the sequence q, written to `out`. Refusals 1, 5, 6, 7 in document 01's order; a refused call writes nothing.
pub fn to_inversions(q: &[u8], out: &mut [u8]) -> Result<(), Refusal>
    ensures { ToInversions q.now out.old (refusal_in result) out.new }
{
    perm::check_lengths(q.len(), out.len())?;
    perm::check_permutation(q)?;
    write_table(q, out);
    Ok(())
}
