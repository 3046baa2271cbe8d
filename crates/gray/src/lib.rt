// The list S(n,k) of all permutations of n with k cycles, as relations between blocks.
#![tactic(auto)]

ghost use Rattle.std.specs.Prelude.{◌≡◌, cond, ◌+◌, ◌≤◌, ◌<◌, eqb, length, get_or};
ghost use Rattle.gray.specs.Order.{letter, blocks_c3, blocks_c, blocks_d, blocks_e};
ghost use Rattle.gray.specs.Blocks.{blocks_of_a, blocks, number_in, number_of, numbered};

// A block of a relation. `Insert { position: i, reading: e }` is document 01's I(i,[L]e), and `Extend { reading: e }` its E([M]e):
// L = S(n-1,k) and M = S(n-1,k-1), read forward for even e and backward for odd e.
#[derive(Clone, Copy)]
pub enum Block {
    Insert { position: u64, reading: u64 },
    Extend { reading: u64 },
}

// Which of document 01's relations (a) to (e) gives S(n,k), by its own byte; `Nothing` where no permutation of n has k cycles, and for n = 0, whose list no relation gives.
// It stays a variant, in place of None: the definitions `letter` and `blocks`, and the laws under the demands, are over this enum.
#[derive(Clone, Copy)]
pub enum Letter {
    Nothing = 0,
    A = b'a' as isize,
    B = b'b' as isize,
    C = b'c' as isize,
    D = b'd' as isize,
    E = b'e' as isize,
}

// A block with its number, from 0 in written order.
#[derive(Clone, Copy)]
pub struct NumberedBlock {
    pub number: u64,
    pub block: Block,
}

// The relation that gives S(n,k).
pub fn letter_of(n: u64, k: u64) -> Letter
    ensures { result ≡ letter n k }
{
    if k == 0 || n < k {
        return Letter::Nothing;
    }
    if k == 1 {
        return Letter::A;
    }
    match n - k {
        0 => Letter::B,
        1 => Letter::C,
        2 => Letter::D,
        _ => Letter::E,
    }
}

// Block j of relation (a) for n up to 4, counted from 0; past the last one, as for all relations, `Extend { reading: 0 }`.
fn block_a4(n: u64, j: u64) -> Block
    requires { n < 5 }
    ensures { result ≡ get_or (blocks_of_a n) j (Block.Extend 0) }
{
    let (position, reading) = match (n, j) {
        (2..=4, 0) => (1, 0),
        (3, 1) => (2, 0),
        (4, 1) => (2, 1),
        (4, 2) => (3, 1),
        _ => return Block::Extend { reading: 0 },
    };
    Block::Insert { position, reading }
}

// Block j of relation (a): for n >= 5, I(1,L); I(i,[L](i+1)) for i = n-1 down to 4; I(2,L); I(3,L reversed).
fn block_a(n: u64, j: u64) -> Block
    ensures { result ≡ get_or (blocks_of_a n) j (Block.Extend 0) }
{
    if n < 5 {
        return block_a4(n, j);
    }
    let (position, reading) = match j {
        0 => (1, 0),
        _ if j < n - 3 => (n - j, n - j + 1),
        _ if j == n - 3 => (2, 0),
        _ if j == n - 2 => (3, 1),
        _ => return Block::Extend { reading: 0 },
    };
    Block::Insert { position, reading }
}

// Block j of relation (c): for n >= 4, I(1,L); I(n-1,L); I(i,L) for i = n-3 down to 2; I(n-2,L); E(M reversed).
fn block_c(n: u64, j: u64) -> Block
    requires { 3 ≤ n }
    ensures { result ≡ get_or (cond (eqb n 3) blocks_c3 (blocks_c n)) j (Block.Extend 0) }
{
    let position = match j {
        0 => 1,
        1 => n - 1,
        _ if n == 3 => return Block::Extend { reading: 0 },
        _ if j < n - 2 => n - 1 - j,
        _ if j == n - 2 => n - 2,
        _ if j == n - 1 => return Block::Extend { reading: 1 },
        _ => return Block::Extend { reading: 0 },
    };
    Block::Insert {
        position,
        reading: 0,
    }
}

// Block j of relation (d): I(1,L); I(i,[L]i) for i = 3 up to n-1; E(M); I(2,L reversed).
fn block_d(n: u64, j: u64) -> Block
    requires { 4 ≤ n }
    ensures { result ≡ get_or (blocks_d n) j (Block.Extend 0) }
{
    let (position, reading) = match j {
        0 => (1, 0),
        _ if j < n - 2 => (j + 2, j + 2),
        _ if j == n - 1 => (2, 1),
        _ => return Block::Extend { reading: 0 },
    };
    Block::Insert { position, reading }
}

// Block j of relation (e): I(1,L); I(i,[L]i) for i = n-1 down to k+1; E([M]k); I(i,[L](i-1)) for i = k down to 2.
fn block_e(n: u64, k: u64, j: u64) -> Block
    requires { (2 ≤ k) × (k + 3 ≤ n) }
    ensures { result ≡ get_or (blocks_e n k) j (Block.Extend 0) }
{
    let (position, reading) = match j {
        0 => (1, 0),
        _ if j < n - k => (n - j, n - j),
        _ if j == n - k => return Block::Extend { reading: k },
        _ if j < n => (n - j + 1, n - j),
        _ => return Block::Extend { reading: 0 },
    };
    Block::Insert { position, reading }
}

// Block j of S(n,k), which this relation gives, counted from 0. Inlined, here and below, so that `block_with` goes by the relation once and makes only what its caller looks at.
#[inline(always)]
fn block_by(relation: Letter, n: u64, k: u64, j: u64) -> Block
    requires { relation ≡ letter n k }
    ensures { result ≡ get_or (blocks n k) j (Block.Extend 0) }
{
    match relation {
        Letter::Nothing | Letter::B => Block::Extend { reading: 0 },
        Letter::A => block_a(n, j),
        Letter::C => block_c(n, j),
        Letter::D => block_d(n, j),
        Letter::E => block_e(n, k, j),
    }
}

// Block j of S(n,k), counted from 0; `Extend { reading: 0 }` past the last one, and no Option, since the clause of this call, which others cite, names that block.
pub fn block_at(n: u64, k: u64, j: u64) -> Block
    ensures { result ≡ get_or (blocks n k) j (Block.Extend 0) }
{
    block_by(letter_of(n, k), n, k, j)
}

// How many blocks S(n,k) has.
pub fn block_count(n: u64, k: u64) -> u64
    ensures { result ≡ length (blocks n k) }
{
    if k == 0 || k > n {
        return 0;
    }
    if n == k {
        return 1;
    }
    if k < 2 {
        return n - 1;
    }
    n
}

// The number of the block of relation (a) that puts value n at position i; n-1 where none does. Here and at the three below i is 1 to n, a clause of each and no type,
// since `number_by`, which alone calls them, takes every i.
fn number_a(n: u64, i: u64) -> u64
    requires { (1 ≤ i) × (i ≤ n) }
    ensures { result ≡ number_in n i (blocks_of_a n) }
{
    if n < 5 {
        return i - 1;
    }
    if i == 1 {
        return 0;
    }
    if i < 4 {
        return n - 5 + i;
    }
    if i == n {
        return n - 1;
    }
    n - i
}

// The number of the block of relation (c) that puts value n at position i.
fn number_c(n: u64, i: u64) -> u64
    requires { (3 ≤ n) × (1 ≤ i) × (i ≤ n) }
    ensures { result ≡ number_in n i (cond (eqb n 3) blocks_c3 (blocks_c n)) }
{
    if i == 1 {
        return 0;
    }
    if i == n {
        return n - 1;
    }
    if i + 1 == n {
        return 1;
    }
    if i + 2 == n {
        return n - 2;
    }
    n - 1 - i
}

// The number of the block of relation (d) that puts value n at position i.
fn number_d(n: u64, i: u64) -> u64
    requires { (4 ≤ n) × (1 ≤ i) × (i ≤ n) }
    ensures { result ≡ number_in n i (blocks_d n) }
{
    match i {
        1 => 0,
        2 => n - 1,
        _ => i - 2,
    }
}

// The number of the block of relation (e) that puts value n at position i.
fn number_e(n: u64, k: u64, i: u64) -> u64
    requires { (2 ≤ k) × (k + 3 ≤ n) × (1 ≤ i) × (i ≤ n) }
    ensures { result ≡ number_in n i (blocks_e n k) }
{
    if i == 1 {
        return 0;
    }
    if i == n {
        return n - k;
    }
    if i > k {
        return n - i;
    }
    n - i + 1
}

// The number, from 0 in written order, of the block of S(n,k), which this relation gives, that puts value n at position i; where none does, the number of blocks, which
// the clause names too. It is had by a formula, so that no block is looked at.
#[inline(always)]
fn number_by(relation: Letter, n: u64, k: u64, i: u64) -> u64
    requires { relation ≡ letter n k }
    ensures { result ≡ number_of n k i }
{
    if i == 0 || i > n {
        return block_count(n, k);
    }
    match relation {
        Letter::Nothing => 0,
        Letter::A => number_a(n, i),
        Letter::B => if i == n { 0 } else { 1 },
        Letter::C => number_c(n, i),
        Letter::D => number_d(n, i),
        Letter::E => number_e(n, k, i),
    }
}

// The same, where the relation is not at hand.
pub fn block_number(n: u64, k: u64, i: u64) -> u64
    ensures { result ≡ number_of n k i }
{
    number_by(letter_of(n, k), n, k, i)
}

// That block with its number; where no block puts n there, the one that stands for none past the last. The relation is looked up once for both, since `rank` asks this at
// each size.
#[inline(always)]
pub fn block_with(n: u64, k: u64, i: u64) -> NumberedBlock
    ensures { result ≡ numbered n k i }
{
    let relation = letter_of(n, k);
    let number = number_by(relation, n, k, i);
    NumberedBlock {
        number,
        block: block_by(relation, n, k, number),
    }
}
