// What made it this place: for each size from n down to 1, the relation that gives the list, the block that the permutation stands in, how the list is read, and
// how many of its rows stand before the block. The steps down are found by crate `rank`; here they get their letters and are added up. All by value: crate
// `osierdrum` writes the rows to the caller's.
#![tactic(auto)]

ghost use Rattle.std.specs.Prelude.{◌≡◌, ◌-◌, ◌≤◌, ◌<◌, ◌^◌, ◌++◌, length, replicate};
ghost use Rattle.explain.specs.Levels.{level, lettered, total};
ghost use Rattle.explain.specs.Explain.{answer_of, blank, IsExplained};

use rank::Step;
use stirling::Refusal;

// A row: the letter of the relation that gives the list at this size, as its own byte b'a' to b'e', since no struct that holds an enum can be exported; whether the
// list is read backward; the number of the block, from 0 in written order; and how many rows of the list stand before the block in that reading.
#[repr(C)]
#[derive(Clone, Copy)]
pub struct Level {
    pub letter: u8,
    pub backward: bool,
    pub block: u64,
    pub before: u64,
}

// What a call answers, as C has it: a permutation's number of cycles and its place, or a refusal's number with zeros.
#[repr(C)]
#[derive(Drop)]
pub struct Explanation {
    pub refusal: u8,
    pub k: u64,
    pub place: u64,
}

impl From<Result<Explained, Refusal>> for Explanation {
    ghost from_gives = { λ given answer. answer ≡ answer_of given };

    fn from(given: Result<Explained, Refusal>) -> Explanation {
        match given {
            Ok(explained) => Explanation {
                refusal: 0,
                k: explained.k,
                place: explained.place,
            },
            Err(refusal) => Explanation {
                refusal: refusal.number(),
                k: 0,
                place: 0,
            },
        }
    }
}

// A permutation's number of cycles and its place, and the rows, of which the first `count` are to be written; rows of zeros stand after them, since memory is fixed.
// `count` stands beside them as the clause IsExplained names it.
#[derive(Drop)]
pub struct Explained {
    pub k: u64,
    pub place: u64,
    pub count: usize,
    pub rows: [Level; 20],
}

// A row of zeros.
const BLANK: Level = Level {
    letter: 0,
    backward: false,
    block: 0,
    before: 0,
};

// The rows of a permutation in front of rows of zeros, and what their last column adds up to.
#[derive(Drop)]
struct Summed {
    place: u64,
    rows: [Level; 20],
}

// The row of a step in the list of size n.
fn level_of(n: u64, step: Step) -> Level
    ensures { result ≡ level n step }
{
    Level {
        letter: gray::letter_of(n, step.cycles) as u8,
        backward: step.backward,
        block: step.block,
        before: step.before,
    }
}

// The rows of the steps for sizes n, n−1, … , where n is their number, and their sum.
fn sum_up(steps: &[Step]) -> Summed
    requires { (length steps.now ≤ 20) × (total (lettered (length steps.now) steps.now) < 2 ^ 64) }
    ensures { result ≡ record {
      place = total (lettered (length steps.now) steps.now);
      rows = lettered (length steps.now) steps.now ++ replicate (20 - length steps.now) blank;
    } }
{
    let mut rows = [BLANK; 20];
    let mut place = 0;
    for (i, step) in steps.iter().enumerate() {
        let row = level_of((steps.len() - i) as u64, *step);
        rows[i] = row;
        place += row.before;
    }
    Summed { place, rows }
}

// A permutation's place and the rows that explain it, where `lent` rows are there to write to. Refusals 1, 6, 7 as the permutation is read, then 12.
pub fn explain(s: &[u8], lent: usize) -> Result<Explained, Refusal>
    ensures { IsExplained s.now lent result }
{
    let descent = rank::descend(s)?;
    let n = s.len();
    if lent < n {
        return Err(Refusal::Levels);
    }
    let sum = sum_up(&descent.steps[..n]);
    let rows = sum.rows;
    Ok(Explained {
        k: descent.k,
        place: sum.place,
        count: n,
        rows,
    })
}
