// The library that the Rust server links: each call as `extern "C"`, thin over the crate that does the work, with its full contract again.
#![tactic(auto)]

ghost use Rattle.std.specs.Prelude.{◌≡◌, length};
ghost use Rattle.stirling.specs.Count.{count_of};
ghost use Rattle.perm.specs.Checks.{ToArray, FromArray};
ghost use Rattle.rank.specs.Place.{Unranked, Ranked, RowsWritten};
ghost use Rattle.explain.specs.Explain.{Explains};
ghost use Rattle.exchanges.specs.Between.{Exchanged};
ghost use Rattle.inversion.specs.Calls.{FromInversions, ToInversions};
ghost use Rattle.find.specs.Find.{find_of, written_by};
ghost use Rattle.tree.specs.Calls.{count_of as countListed, check_unrank as checkListed, written_by as writtenListed, rank_of};
ghost use Rattle.moves.specs.Calls.{list_of, written_by as writtenMoves, verdict_of};

use exchanges::Exchanges;
use explain::{Explanation, Level};
use find::Found;
use moves::{Checked, Moves};
use perm::Array;
use rank::Standing;
use stirling::{Counted, number_in};
use tree::{Kind, Place};

// c(n,k). Refusals 1, 2.
#[unsafe(no_mangle)]
pub extern "C" fn osierdrum_count(n: u64, k: u64) -> Counted
    ensures { result ≡ count_of n k }
{
    stirling::count(n, k).into()
}

// The permutation at a place of S(n,k). Refusals 1, 2, 3, 5.
#[unsafe(no_mangle)]
pub extern "C" fn osierdrum_unrank(n: u64, k: u64, place: u64, out: &mut [u8]) -> u8
    ensures { Unranked n k place out.old result out.new }
{
    number_in(rank::unrank(n, k, place, out))
}

// The number of cycles of a permutation, its place and its number of fixed points. Refusals 1, 6, 7.
#[unsafe(no_mangle)]
pub extern "C" fn osierdrum_rank(s: &[u8]) -> Standing
    ensures { Ranked s.now result }
{
    rank::rank(s).into()
}

// The transposition array of a permutation, and the permutation's number of fixed points. Refusals 1, 5, 6, 7.
#[unsafe(no_mangle)]
pub extern "C" fn osierdrum_to_array(s: &[u8], out: &mut [u8]) -> Array
    ensures { ToArray s.now out.old result out.new }
{
    perm::to_array(s, out).into()
}

// The permutation of a transposition array. Refusals 1, 5, 6.
#[unsafe(no_mangle)]
pub extern "C" fn osierdrum_from_array(a: &[u8], out: &mut [u8]) -> u8
    ensures { FromArray a.now out.old result out.new }
{
    number_in(perm::from_array(a, out))
}

// m permutations from a place on, into a buffer from byte o on. Refusals 1, 2, 3, 4, 5.
#[unsafe(no_mangle)]
pub extern "C" fn osierdrum_rows(n: u64, k: u64, place: u64, m: u64, o: u64, buf: &mut [u8]) -> u8
    ensures { RowsWritten n k place m o buf.old result buf.new }
{
    number_in(rank::rows(n, k, place, m, o, buf))
}

// What made it this place: a row for each size from n down to 1, written to the front of `rows`, and the permutation's number of cycles and its place. Refusals
// 1, 6, 7, 12. The rows are made by value; here they are only copied.
#[unsafe(no_mangle)]
pub extern "C" fn osierdrum_explain(s: &[u8], rows: &mut [Level]) -> Explanation
    ensures { Explains s.now rows.old result rows.new }
{
    let explained = explain::explain(s, rows.len());
    if let Ok(explained) = &explained {
        // from 0, written out: so the goals of a program that begins at another row are the same but for that row
        rows[0..explained.count].copy_from_slice(&explained.rows[0..explained.count]);
    }
    explained.into()
}

// The pairs of positions whose values are exchanged, one pair after another, to turn `from` into `to`, two bytes a pair, to the front of `out`. Refusals 1 for either,
// 5 for unequal lengths, 6 for either, 7 for either, and last 5 for a buffer shorter than the pairs.
#[unsafe(no_mangle)]
pub extern "C" fn osierdrum_exchanges(from: &[u8], to: &[u8], out: &mut [u8]) -> Exchanges
    ensures { Exchanged from.now to.now out.old result out.new }
{
    exchanges::between(from, to, out).into()
}

// The sequence of an inversion table. Refusals 1, 5, 6.
#[unsafe(no_mangle)]
pub extern "C" fn osierdrum_from_inversions(a: &[u8], out: &mut [u8]) -> u8
    ensures { FromInversions a.now out.old result out.new }
{
    number_in(inversion::from_inversions(a, out))
}

// The inversion table of a sequence. Refusals 1, 5, 6, 7.
#[unsafe(no_mangle)]
pub extern "C" fn osierdrum_to_inversions(s: &[u8], out: &mut [u8]) -> u8
    ensures { ToInversions s.now out.old result out.new }
{
    number_in(inversion::to_inversions(s, out))
}

// The first permutation of S(n,k), at or after a place, that has the wished value at each position with a wish, a byte 0 leaving a position free: its place, and the
// permutation in `out`. Refusals 1, 2, 3, 5, 6, 14.
#[unsafe(no_mangle)]
pub extern "C" fn osierdrum_find(n: u64, k: u64, place: u64, wishes: &[u8], out: &mut [u8]) -> Found
    ensures answer { result ≡ find_of n k place wishes.now (length out.old) }
    ensures row { out.new ≡ written_by n k result out.old }
{
    find::find(n, k, place, wishes, out).into()
}

// How many involutions of n there are, the permutations with no cycle longer than two. Refusal 1.
#[unsafe(no_mangle)]
pub extern "C" fn osierdrum_involution_count(n: u64) -> Counted
    ensures { result ≡ countListed Kind.Involution n }
{
    tree::count(Kind::Involution, n).into()
}

// The involution at a place of the list of n. Refusals 1, 3, 5.
#[unsafe(no_mangle)]
pub extern "C" fn osierdrum_involution_unrank(n: u64, place: u64, out: &mut [u8]) -> u8
    ensures refusal { result ≡ checkListed Kind.Involution n place (length out.old) }
    ensures row { out.new ≡ writtenListed Kind.Involution n place result out.old }
{
    number_in(tree::unrank(Kind::Involution, n, place, out))
}

// The place of an involution. Refusals 1, 6, 7, 15.
#[unsafe(no_mangle)]
pub extern "C" fn osierdrum_involution_rank(s: &[u8]) -> Place
    ensures { result ≡ rank_of Kind.Involution s.now }
{
    tree::rank(Kind::Involution, s).into()
}

// How many Bell permutations of n there are, the permutations each of whose cycles falls from its highest number to its lowest. Refusal 1.
#[unsafe(no_mangle)]
pub extern "C" fn osierdrum_bell_count(n: u64) -> Counted
    ensures { result ≡ countListed Kind.Bell n }
{
    tree::count(Kind::Bell, n).into()
}

// The Bell permutation at a place of the list of n. Refusals 1, 3, 5.
#[unsafe(no_mangle)]
pub extern "C" fn osierdrum_bell_unrank(n: u64, place: u64, out: &mut [u8]) -> u8
    ensures refusal { result ≡ checkListed Kind.Bell n place (length out.old) }
    ensures row { out.new ≡ writtenListed Kind.Bell n place result out.old }
{
    number_in(tree::unrank(Kind::Bell, n, place, out))
}

// The place of a Bell permutation. Refusals 1, 6, 7, 16.
#[unsafe(no_mangle)]
pub extern "C" fn osierdrum_bell_rank(s: &[u8]) -> Place
    ensures { result ≡ rank_of Kind.Bell s.now }
{
    tree::rank(Kind::Bell, s).into()
}

// The moves by a spare position, 0, from the identity to a permutation, two bytes a move, to the front of `out`, and their number. Refusals 1, 6, 7, and last 5 for a
// buffer shorter than the moves.
#[unsafe(no_mangle)]
pub extern "C" fn osierdrum_moves(s: &[u8], out: &mut [u8]) -> Moves
    ensures answer { result ≡ list_of s.now (length out.old) }
    ensures moves { out.new ≡ writtenMoves s.now result.refusal out.old }
{
    moves::list(s, out).into()
}

// Whether a list of moves, begun from the identity, is valid and leads to a permutation, position 0 empty: 1 for yes, 0 for no. Refusals 1, 5 for a list of odd length, 6
// for a value of the permutation or a position of the list, 7.
#[unsafe(no_mangle)]
pub extern "C" fn osierdrum_check_moves(s: &[u8], moves: &[u8]) -> Checked
    ensures { result ≡ verdict_of s.now moves.now }
{
    moves::check(s, moves).into()
}
