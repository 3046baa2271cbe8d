// Moves by a spare position: values stand at the positions 1 to n, position 0 is empty before and after, and a move takes a value from an occupied position to an empty
// one. The moves from the identity to a permutation, and the check of a list of moves, whoever drew it up.
#![tactic(auto)]

ghost use Rattle.std.specs.Prelude.{◌≡◌, ℕ, ◌+◌, ◌*◌, ◌≤◌, ◌<◌, ◌↔◌, IsTrue, true, length, get_or, nat_le};
ghost use Rattle.std.specs.List.{list_all};
ghost use Rattle.stirling.specs.Refusal.{refusal_in};
ghost use Rattle.perm.specs.Lists.{range};
ghost use Rattle.perm.specs.Permutation.{IsPermutation};
ghost use Rattle.perm.specs.Pairs.{front, pairs_in};
ghost use Rattle.moves.specs.State.{placed, home, all_possible, after, leads};
ghost use Rattle.moves.specs.Written.{around, moves_of};
ghost use Rattle.moves.specs.Round.{AtHome};
ghost use Rattle.moves.specs.Calls.{check_list, list_of, written_by, verdict_of, answer_of, verdict_in};

use stirling::Refusal;

// Room for the moves to a permutation of 20 values, since there is no heap: there are at most 30, ten cycles of two, and a move is two bytes.
const MOST_BYTES: usize = 60;

// How many moves were written, or a refusal's number with 0, as C has it.
#[repr(C)]
#[derive(Drop)]
pub struct Moves {
    pub refusal: u8,
    pub count: u64,
}

impl From<Result<u64, Refusal>> for Moves {
    ghost from_gives = { λ given answer. answer ≡ answer_of given };

    fn from(given: Result<u64, Refusal>) -> Moves {
        match given {
            Ok(count) => Moves { refusal: 0, count },
            Err(refusal) => Moves {
                refusal: refusal.number(),
                count: 0,
            },
        }
    }
}

// Whether a list of moves is valid and leads to a permutation, 1 for yes and 0 for no, or a refusal's number with 0, as C has it.
#[repr(C)]
#[derive(Drop)]
pub struct Checked {
    pub refusal: u8,
    pub valid: u8,
}

impl From<Result<bool, Refusal>> for Checked {
    ghost from_gives = { λ given answer. answer ≡ verdict_in given };

    fn from(given: Result<bool, Refusal>) -> Checked {
        match given {
            Ok(valid) => Checked {
                refusal: 0,
                valid: u8::from(valid),
            },
            Err(refusal) => Checked {
                refusal: refusal.number(),
                valid: 0,
            },
        }
    }
}

// Each value at its own position, and position 0 empty. What is empty holds 0, and no Option, as the definitions `home`, `placed` and `after` have it.
fn go_home(state: &mut [u8])
    requires { length state.old ≤ 21 }
    ensures { state.new ≡ range 0 (length state.old) }
{
    for (i, value) in state.iter_mut().enumerate() {
        *value = i as u8;
    }
}

// The moves round the cycle of a, to the front of `out`; gives how many bytes they are. First the value at a goes to position 0. Then x is empty, and takes the value that
// s wants there: it stands at its own position still, or at 0 if it is the one that stood at a, and then it is the last. `state` has each value of the cycle at its own
// position, and afterwards where s has it. By index, and with a size to tell: after `chunks_exact_mut` the proof knows nothing of the bytes, as in `rank: put_apart`.
// Here and below the permutation is a lent slice, and a clause says what it is: a struct around it would be one of perm's, public, and would say no more.
fn go_round(s: &[u8], a: usize, state: &mut [u8], out: &mut [u8]) -> usize
    requires { (length s.now ≤ 20) × IsPermutation (length s.now) s.now × (1 ≤ a) × (a ≤ length s.now) × AtHome s.now a state.old × (2 * length (around s.now a) ≤ length out.old) }
    ensures { (result ≡ 2 * length (around s.now a)) × (out.new ≡ front (around s.now a) out.old) × (state.new ≡ after state.old (around s.now a)) }
{
    out[0] = a as u8;
    out[1] = 0;
    let mut size = 2;
    let mut x = a;
    // a `while`: the cycle is followed until it leads back to a, and there is no range or slice to go over
    while usize::from(s[x - 1]) != a {
        let wanted = s[x - 1];
        out[size] = wanted;
        out[size + 1] = x as u8;
        size += 2;
        state[x] = wanted;
        x = usize::from(wanted);
    }
    out[size] = 0;
    out[size + 1] = x as u8;
    state[x] = a as u8;
    size + 2
}

// The moves round each cycle of two or more, rising by its least position, to the front of `out`; gives how many bytes they are. At the first position that has not the
// value that s wants there begins the next cycle. The length is handed back, and no writer is around `out`, since
// `list` checks its buffer by it and copies as many bytes.
fn go_round_all(s: &[u8], state: &mut [u8], out: &mut [u8]) -> usize
    requires { (length s.now ≤ 20) × IsPermutation (length s.now) s.now × (state.old ≡ home (length s.now)) × (2 * length (moves_of s.now) ≤ length out.old) }
    ensures { (result ≡ 2 * length (moves_of s.now)) × (out.new ≡ front (moves_of s.now) out.old) }
{
    let mut size = 0;
    for (i, wanted) in s.iter().enumerate() {
        let a = i + 1;
        if state[a] != *wanted {
            size += go_round(s, a, state, &mut out[size..]);
        }
    }
    size
}

// The moves from the identity to the permutation s, to the front of `out`; gives how many bytes they are.
fn write_moves(s: &[u8], out: &mut [u8]) -> usize
    requires { (length s.now ≤ 20) × IsPermutation (length s.now) s.now × (2 * length (moves_of s.now) ≤ length out.old) }
    ensures { (result ≡ 2 * length (moves_of s.now)) × (out.new ≡ front (moves_of s.now) out.old) }
{
    let mut state = [0u8; 21];
    let state = &mut state[..=s.len()];
    go_home(state);
    go_round_all(s, state, out)
}

// The moves from the identity to the permutation s, two bytes a move, to the front of `out`, and their number. They are made beside `out`, whose length is checked by
// their number. Refusals 1, 6, 7, and last 5 for too short a buffer; a refused call writes nothing.
pub fn list(s: &[u8], out: &mut [u8]) -> Result<u64, Refusal>
    ensures answer { answer_of result ≡ list_of s.now (length out.old) }
    ensures moves { out.new ≡ written_by s.now (answer_of result).refusal out.old }
{
    perm::check_permutation(s)?;
    let mut bytes = [0u8; MOST_BYTES];
    let size = write_moves(s, &mut bytes);
    if out.len() < size {
        return Err(Refusal::Lent);
    }
    out[..size].copy_from_slice(&bytes[..size]);
    Ok((size / 2) as u64)
}

// Whether each position of a list of moves is at most n.
fn all_inside(list: &[u8], n: usize) -> bool
    ensures { result ≡ list_all (λ position. nat_le position n) list.now }
{
    list.iter().all(|position| usize::from(*position) <= n)
}

// The checks of a permutation and a list of moves: 1, 5 for a list of odd length, 6 for either, 7. The list's 6 may come first, as both are one number; that of s is left to
// `perm::check_permutation`, which goes over s once.
fn check_list(s: &[u8], list: &[u8]) -> Result<(), Refusal>
    ensures { refusal_in result ≡ check_list s.now list.now }
{
    stirling::check_size(s.len() as u64)?;
    if list.len() % 2 != 0 {
        return Err(Refusal::Lent);
    }
    if !all_inside(list, s.len()) {
        return Err(Refusal::Value);
    }
    perm::check_permutation(s)
}

// Makes the moves of a list, and gives whether each was possible.
fn make_moves(list: &[u8], state: &mut [u8]) -> bool
    requires { (i : ℕ) → i < length list.now → get_or list.now i 0 < length state.old }
    ensures { (result ≡ all_possible state.old (pairs_in list.now)) × (result ≡ true → state.new ≡ after state.old (pairs_in list.now)) }
{
    for pair in list.chunks_exact(2) {
        let from = usize::from(pair[0]);
        let to = usize::from(pair[1]);
        if state[from] == 0 {
            return false;
        }
        if state[to] != 0 {
            return false;
        }
        state[to] = state[from];
        state[from] = 0;
    }
    true
}

// Whether s stands at the positions from 1 on, and position 0 is empty.
fn stands(state: &[u8], s: &[u8]) -> bool
    requires { length state.now ≡ length s.now + 1 }
    ensures { IsTrue result ↔ state.now ≡ placed s.now }
{
    state[0] == 0 && &state[1..] == s
}

// Whether a list of moves, begun from the identity, is valid and leads to s, with what stands where kept in `state`.
fn is_valid(s: &[u8], list: &[u8], state: &mut [u8]) -> bool
    requires { (length s.now ≤ 20) × (length state.old ≡ length s.now + 1) × ((i : ℕ) → i < length list.now → get_or list.now i 0 ≤ length s.now) }
    ensures { result ≡ leads s.now (pairs_in list.now) }
{
    go_home(state);
    if !make_moves(list, state) {
        return false;
    }
    stands(state, s)
}

// Whether a list of moves, begun from the identity, is valid and leads to the permutation s. Refusals 1, 5 for a list of odd length, 6 for a value of s or a position of
// the list, 7.
pub fn check(s: &[u8], list: &[u8]) -> Result<bool, Refusal>
    ensures { verdict_in result ≡ verdict_of s.now list.now }
{
    check_list(s, list)?;
    let mut state = [0u8; 21];
    Ok(is_valid(s, list, &mut state[..=s.len()]))
}
