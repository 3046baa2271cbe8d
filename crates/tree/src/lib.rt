// Permutations of n of a kind, listed as a tree, where the kind's rule says which positions may be used: the count, the permutation at a place and the place of a permutation.
// A subtree's size is looked up, so that no call goes through the list: at most n steps down, each past at most n positions.
#![tactic(auto)]

ghost use Rattle.std.specs.Prelude.{◌≡◌, suc, ◌+◌, ◌-◌, ◌^◌, ◌≤◌, ◌<◌, length, get_or};
ghost use Rattle.stirling.specs.Refusal.{number, refusal_in};
ghost use Rattle.stirling.specs.Count.{counted};
ghost use Rattle.perm.specs.Permutation.{IsPermutation};
ghost use Rattle.perm.specs.Cycle.{least};
ghost use Rattle.perm.specs.Array.{product};
ghost use Rattle.tree.specs.Involution.{longer};
ghost use Rattle.tree.specs.Bell.{rises};
ghost use Rattle.tree.specs.Kind.{rule_of, listed, breaks, refusal_of, IsOf};
ghost use Rattle.tree.specs.Listing.{row_at, place_in};
ghost use Rattle.tree.specs.Calls.{count_of, check_unrank, written_by, check_kind, check_rank, rank_of, answer_of};
ghost use Rattle.tree.specs.Sizes.{usable_below, size, index, IsTable};
ghost use Rattle.tree.specs.Search.{rows, count_usable, Stands, Falls, Leads};

use stirling::Refusal;

// The kinds: involutions, which have no cycle longer than two, and Bell permutations, whose cycles fall from their highest number to their lowest.
// The kind is a value, and no trait with two types: `count`, `unrank` and `rank` take it, and the exported calls choose it.
#[derive(Clone, Copy)]
pub enum Kind {
    Involution,
    Bell,
}

// The identity of 20; its first n values are that of n. One array for all, since there is no heap.
const IDENTITY: [u8; 20] = [
    1, 2, 3, 4, 5, 6, 7, 8, 9, 10, 11, 12, 13, 14, 15, 16, 17, 18, 19, 20,
];

// The rows of a subtree with f positions that may be used and m that remain, at (f + m)(f + m + 1)/2 + f, in the list of involutions.
// This table and the next are arrays of all 231 sizes, f + m being 20 at most: memory is fixed, and there is no heap.
const INVOLUTION_SIZES: [u64; 231] = [
    1,
    1,
    1,
    2,
    2,
    1,
    4,
    4,
    3,
    1,
    10,
    10,
    8,
    4,
    1,
    26,
    26,
    22,
    14,
    5,
    1,
    76,
    76,
    66,
    46,
    22,
    6,
    1,
    232,
    232,
    206,
    154,
    88,
    32,
    7,
    1,
    764,
    764,
    688,
    536,
    338,
    154,
    44,
    8,
    1,
    2620,
    2620,
    2388,
    1924,
    1306,
    690,
    250,
    58,
    9,
    1,
    9496,
    9496,
    8732,
    7204,
    5140,
    2996,
    1306,
    382,
    74,
    10,
    1,
    35696,
    35696,
    33076,
    27836,
    20672,
    12976,
    6446,
    2306,
    556,
    92,
    11,
    1,
    140152,
    140152,
    130656,
    111664,
    85468,
    56652,
    30952,
    12976,
    3834,
    778,
    112,
    12,
    1,
    568504,
    568504,
    532808,
    461416,
    362188,
    250844,
    147484,
    69628,
    24506,
    6058,
    1054,
    134,
    13,
    1,
    2390480,
    2390480,
    2250328,
    1970024,
    1578056,
    1131400,
    704060,
    364148,
    147484,
    43676,
    9170,
    1390,
    158,
    14,
    1,
    10349536,
    10349536,
    9781032,
    8644024,
    7045600,
    5199936,
    3388996,
    1883932,
    851544,
    294520,
    73966,
    13386,
    1792,
    184,
    15,
    1,
    46206736,
    46206736,
    43816256,
    39035296,
    32284312,
    24404216,
    16513936,
    9725536,
    4797116,
    1883932,
    556576,
    119816,
    18946,
    2266,
    212,
    16,
    1,
    211799312,
    211799312,
    201449776,
    180750704,
    151407608,
    116831512,
    81603512,
    50403896,
    26680924,
    11609468,
    3945572,
    1000372,
    186746,
    26114,
    2818,
    242,
    17,
    1,
    997313824,
    997313824,
    951107088,
    858693616,
    727244848,
    571103664,
    409682104,
    263256808,
    147659256,
    69854968,
    26680924,
    7841604,
    1719268,
    281476,
    35178,
    3454,
    274,
    18,
    1,
    4809701440,
    4809701440,
    4597902128,
    4174303504,
    3569954176,
    2846951360,
    2089913320,
    1388924248,
    817699664,
    414468496,
    174340180,
    58245500,
    14844208,
    2839744,
    412046,
    46450,
    4180,
    308,
    19,
    1,
    23758664096,
    23758664096,
    22761350272,
    20766722624,
    17913401360,
    14478626896,
    10842402656,
    7415780672,
    4548005944,
    2441951480,
    1113018176,
    414468496,
    120978332,
    26879084,
    4528600,
    587936,
    60266,
    5002,
    344,
    20,
    1,
];

// And in the list of Bell permutations.
const BELL_SIZES: [u64; 231] = [
    1,
    1,
    1,
    2,
    2,
    1,
    5,
    5,
    3,
    1,
    15,
    15,
    10,
    4,
    1,
    52,
    52,
    37,
    17,
    5,
    1,
    203,
    203,
    151,
    77,
    26,
    6,
    1,
    877,
    877,
    674,
    372,
    141,
    37,
    7,
    1,
    4140,
    4140,
    3263,
    1915,
    799,
    235,
    50,
    8,
    1,
    21147,
    21147,
    17007,
    10481,
    4736,
    1540,
    365,
    65,
    9,
    1,
    115975,
    115975,
    94828,
    60814,
    29371,
    10427,
    2727,
    537,
    82,
    10,
    1,
    678570,
    678570,
    562595,
    372939,
    190497,
    73013,
    20878,
    4516,
    757,
    101,
    11,
    1,
    4213597,
    4213597,
    3535027,
    2409837,
    1291020,
    529032,
    163967,
    38699,
    7087,
    1031,
    122,
    12,
    1,
    27644437,
    27644437,
    23430840,
    16360786,
    9131275,
    3967195,
    1322035,
    338233,
    67340,
    10644,
    1365,
    145,
    13,
    1,
    190899322,
    190899322,
    163254885,
    116393205,
    67310847,
    30785747,
    10949772,
    3017562,
    649931,
    111211,
    15415,
    1765,
    170,
    14,
    1,
    1382958545,
    1382958545,
    1192059223,
    865549453,
    516369838,
    247126450,
    93197715,
    27499083,
    6376149,
    1176701,
    175802,
    21652,
    2237,
    197,
    15,
    1,
    10480142147,
    10480142147,
    9097183602,
    6713065156,
    4116416797,
    2050937445,
    815305195,
    256118905,
    63625324,
    12616132,
    2025823,
    267803,
    29631,
    2787,
    226,
    16,
    1,
    82864869804,
    82864869804,
    72384727657,
    54190360453,
    34051164985,
    17585497797,
    7330810572,
    2438979402,
    646147067,
    137144475,
    23599287,
    3341057,
    395224,
    39652,
    3421,
    257,
    17,
    1,
    682076806159,
    682076806159,
    599211936355,
    454442481041,
    291871399682,
    155666739742,
    67739250757,
    23754387325,
    6681531511,
    1512354975,
    278054700,
    42061830,
    5310203,
    567515,
    52039,
    4145,
    290,
    18,
    1,
    5832742205057,
    5832742205057,
    5150665398898,
    3952241526188,
    2588914083065,
    1421428484337,
    643094785627,
    236659281085,
    70378569810,
    16926317722,
    3315122947,
    534575947,
    71895817,
    8173381,
    795686,
    67140,
    4965,
    325,
    19,
    1,
    51724158235372,
    51724158235372,
    45891416030315,
    35590085232519,
    23733360653955,
    13377704321695,
    6270561900010,
    2411993186248,
    755378218653,
    192349660173,
    40012800675,
    6861571205,
    981235788,
    118485984,
    12232031,
    1092427,
    85327,
    5887,
    362,
    20,
    1,
];

// The place of a permutation as C has it, or a refusal's number with 0.
#[repr(C)]
#[derive(Drop)]
pub struct Place {
    pub refusal: u8,
    pub place: u64,
}

impl From<Result<u64, Refusal>> for Place {
    ghost from_gives = { λ given answer. answer ≡ answer_of given };

    fn from(given: Result<u64, Refusal>) -> Place {
        match given {
            Ok(place) => Place { refusal: 0, place },
            Err(refusal) => Place {
                refusal: refusal.number(),
                place: 0,
            },
        }
    }
}

// Where a place falls to: to a child, which exchanges this position with the first that remains, or behind all children; and the place that is left there.
#[derive(Drop)]
enum Step {
    Child { position: usize, place: u64 },
    Behind { place: u64 },
}

// A subtree by what its size depends on: how many positions remain that its rows exchange, and how many of those before them may be used. Together they are 20 at most, as
// far as the table goes.
#[derive(Clone, Copy)]
struct Branch {
    remaining: usize,
    usable: usize,
    ghost small: { usable + remaining ≤ 20 },
}

// A kind with the table of its sizes, to be made once in a call and lent.
#[derive(Drop)]
struct Table {
    kind: Kind,
    sizes: [u64; 231],
    ghost holds_sizes: { IsTable kind sizes },
}

// Whether the cycle of position i is longer than two: two steps do not lead back to it.
// Here and below, the permutation is a lent slice: a struct around it would be one of perm's, public, and would say no more than the line that asks for one, or for one of the kind.
fn is_longer(s: &[u8], i: usize) -> bool
    requires { (length s.now ≤ 20) × IsPermutation (length s.now) s.now × (1 ≤ i) × (i ≤ length s.now) }
    ensures { result ≡ longer s.now i }
{
    let next = usize::from(s[i - 1]);
    usize::from(s[next - 1]) != i
}

// Whether position i is the least of its cycle, which is followed as far as it can go.
fn is_least(s: &[u8], i: usize) -> bool
    requires { (length s.now ≤ 20) × IsPermutation (length s.now) s.now × (1 ≤ i) × (i ≤ length s.now) }
    ensures { result ≡ least s.now i }
{
    let mut position = i;
    for _step in 0..s.len() {
        position = usize::from(s[position - 1]);
        if position < i {
            return false;
        }
    }
    true
}

// Whether the cycle of position i does not fall there. Only where the value is not smaller is the cycle followed.
fn is_rising(s: &[u8], i: usize) -> bool
    requires { (length s.now ≤ 20) × IsPermutation (length s.now) s.now × (1 ≤ i) × (i ≤ length s.now) }
    ensures { result ≡ rises s.now i }
{
    usize::from(s[i - 1]) >= i && !is_least(s, i)
}

impl Kind {
    // Whether position l may be used. In a Bell permutation the least of a cycle is the position whose value is not smaller.
    fn is_usable(self, s: &[u8], l: usize) -> bool
        requires { (1 ≤ l) × (l ≤ length s.now) × IsOf self (length s.now) s.now }
        ensures { result ≡ rule_of self s.now l }
    {
        let value = usize::from(s[l - 1]);
        match self {
            Kind::Involution => value == l,
            Kind::Bell => value >= l,
        }
    }

    // How many of the positions 1 to h may be used.
    fn count_usable(self, s: &[u8], h: usize) -> usize
        requires { (h ≤ length s.now) × (length s.now ≤ 20) × IsOf self (length s.now) s.now }
        ensures { result ≡ count_usable self s.now h }
    {
        let mut count = 0;
        for l in 0..h {
            if self.is_usable(s, l + 1) {
                count += 1;
            }
        }
        count
    }

    // Which child a place falls to, where each child that exchanges one of the positions 1 to h has so many rows: past each, the place is so much less.
    fn child_at(self, s: &[u8], h: usize, size: u64, place: u64) -> Step
        requires { (h ≤ length s.now) × (length s.now ≤ 20) × IsOf self (length s.now) s.now }
        ensures { Falls self s.now h size place result }
    {
        let mut rest = place;
        for l in 1..=h {
            if self.is_usable(s, l) {
                if rest < size {
                    return Step::Child {
                        position: l,
                        place: rest,
                    };
                }
                rest -= size;
            }
        }
        Step::Behind { place: rest }
    }

    // Whether position i keeps a permutation from being of the kind.
    fn is_broken(self, s: &[u8], i: usize) -> bool
        requires { (length s.now ≤ 20) × IsPermutation (length s.now) s.now × (1 ≤ i) × (i ≤ length s.now) }
        ensures { result ≡ breaks self s.now i }
    {
        match self {
            Kind::Involution => is_longer(s, i),
            Kind::Bell => is_rising(s, i),
        }
    }

    // What a permutation that is not of the kind is refused.
    fn refusal(self) -> Refusal
        ensures { number result ≡ refusal_of self }
    {
        match self {
            Kind::Involution => Refusal::Long,
            Kind::Bell => Refusal::Rising,
        }
    }

    // Check 15 or 16, where checks 1, 6 and 7 do not refuse.
    fn check(self, s: &[u8]) -> Result<(), Refusal>
        requires { (length s.now ≤ 20) × IsPermutation (length s.now) s.now }
        ensures { refusal_in result ≡ check_kind self s.now }
    {
        if (1..=s.len()).any(|i| self.is_broken(s, i)) {
            return Err(self.refusal());
        }
        Ok(())
    }

    // Checks 1, 6, 7, and 15 or 16.
    fn check_rank(self, s: &[u8]) -> Result<(), Refusal>
        ensures { refusal_in result ≡ check_rank self s.now }
    {
        perm::check_permutation(s)?;
        self.check(s)
    }
}

impl Branch {
    // What the identity of n heads: all positions remain, and there is none before them.
    fn whole(n: usize) -> Self
        requires { n ≤ 20 }
        ensures remaining { result.remaining ≡ n }
        ensures usable { result.usable ≡ 0 }
    {
        Branch {
            remaining: n,
            usable: 0,
        }
    }

    // What a child heads. Where its position has its own value it is used up, and the least of a cycle stays the least. That a position remains is asked here and at the
    // other two that go on, and is not kept by the branch, since at the last one none does.
    fn child(self, kind: Kind) -> Self
        requires { 1 ≤ self.remaining }
        ensures remaining { result.remaining ≡ self.remaining - 1 }
        ensures usable { result.usable ≡ usable_below kind self.usable }
    {
        Branch {
            remaining: self.remaining - 1,
            usable: match kind {
                Kind::Involution => self.usable.saturating_sub(1),
                Kind::Bell => self.usable,
            },
        }
    }

    // What stands behind all children: the next position may be used too.
    fn behind(self) -> Self
        requires { 1 ≤ self.remaining }
        ensures remaining { result.remaining ≡ self.remaining - 1 }
        ensures usable { result.usable ≡ suc self.usable }
    {
        Branch {
            remaining: self.remaining - 1,
            usable: self.usable + 1,
        }
    }
}

impl Table {
    // The table of a kind.
    fn of(kind: Kind) -> Self
        ensures { result.kind ≡ kind }
    {
        match kind {
            Kind::Involution => Table {
                kind: Kind::Involution,
                sizes: INVOLUTION_SIZES,
            },
            Kind::Bell => Table {
                kind: Kind::Bell,
                sizes: BELL_SIZES,
            },
        }
    }

    // How many rows a branch has.
    fn size(&self, branch: Branch) -> u64
        ensures { result ≡ size self.now.kind branch.usable branch.remaining }
    {
        let sum = branch.usable + branch.remaining;
        self.sizes[sum * (sum + 1) / 2 + branch.usable]
    }

    // Check 1, then how many rows the list of n has.
    fn count(&self, n: u64) -> Result<u64, Refusal>
        ensures { counted result ≡ count_of self.now.kind n }
    {
        stirling::check_size(n)?;
        Ok(self.size(Branch::whole(n as usize)))
    }

    // How many rows a child in it heads.
    fn child_size(&self, branch: Branch) -> u64
        requires { 1 ≤ branch.remaining }
        ensures { result ≡ size self.now.kind (usable_below self.now.kind branch.usable) (branch.remaining - 1) }
    {
        self.size(branch.child(self.kind))
    }

    // The row at a place of s and what hangs below it, put in the place of s; place 0 is s itself.
    fn unrank_from(&self, branch: Branch, place: u64, s: &mut [u8])
        requires { Stands self.now.kind branch.remaining branch.usable s.old × (place < size self.now.kind branch.usable branch.remaining) }
        ensures { s.new ≡ row_at (rows (rule_of self.now.kind) (length s.old - branch.remaining) branch.remaining s.old) place }
    {
        if place == 0 {
            return;
        }
        let h = s.len() - branch.remaining;
        match self.kind.child_at(s, h, self.child_size(branch), place - 1) {
            Step::Child { position, place } => {
                s.swap(position - 1, h);
                self.unrank_from(branch.child(self.kind), place, s)
            }
            // s itself stands first there, as it did before the children
            Step::Behind { place } => self.unrank_from(branch.behind(), place + 1, s),
        }
    }

    // The place of the permutation of a transposition array among s, to which its first exchanges lead, and what hangs below it. The array's next exchange names the child.
    fn rank_from(&self, a: &[u8], branch: Branch, s: &mut [u8]) -> u64
        requires { Stands self.now.kind branch.remaining branch.usable s.old × (length a.now ≡ length s.old) × Leads self.now.kind a.now (length s.old - branch.remaining) s.old }
        ensures { (result < size self.now.kind branch.usable branch.remaining) × (row_at (rows (rule_of self.now.kind) (length s.old - branch.remaining) branch.remaining s.old) result ≡ product a.now) }
    {
        if branch.remaining == 0 {
            return 0;
        }
        let h = s.len() - branch.remaining;
        let position = usize::from(a[h]);
        let passed = self.kind.count_usable(s, position - 1) as u64 * self.child_size(branch);
        if position <= h {
            s.swap(position - 1, h);
            return passed + self.rank_from(a, branch.child(self.kind), s) + 1;
        }
        let place = self.rank_from(a, branch.behind(), s);
        if place == 0 {
            // s itself stands before the children
            return 0;
        }
        passed + place
    }

    // Check 1, then check 3 by this list's count, then check 5 for a slice of so many bytes.
    fn check_unrank(&self, n: u64, place: u64, lent: usize) -> Result<(), Refusal>
        ensures { refusal_in result ≡ check_unrank self.now.kind n place lent }
    {
        if place >= self.count(n)? {
            return Err(Refusal::Place);
        }
        if lent as u64 != n {
            return Err(Refusal::Lent);
        }
        Ok(())
    }

    // The row at a place of the list, for as many values as the slice has bytes.
    fn write_row(&self, place: u64, out: &mut [u8])
        requires { (length out.old ≤ 20) × (place < size self.now.kind 0 (length out.old)) }
        ensures { out.new ≡ row_at (listed self.now.kind (length out.old)) place }
    {
        let n = out.len();
        // the search begins with the identity, which is its own transposition array and so is never refused; by the call and no copy, since what it writes is what `product` says
        perm::from_array(&IDENTITY[..n], out).unwrap();
        self.unrank_from(Branch::whole(n), place, out)
    }

    // The place of a permutation of the kind, found along its transposition array.
    fn place_of(&self, s: &[u8]) -> u64
        requires { (length s.now ≤ 20) × IsOf self.now.kind (length s.now) s.now }
        ensures { result ≡ place_in s.now (listed self.now.kind (length s.now)) }
    {
        let n = s.len();
        // room for the largest n, since there is no heap
        let mut array = [0u8; 20];
        // never refused: s is a permutation, and the array as long
        perm::to_array(s, &mut array[..n]).unwrap();
        let mut row = IDENTITY;
        self.rank_from(&array[..n], Branch::whole(n), &mut row[..n])
    }
}

// Check 1, then how many permutations of n of the kind there are.
pub fn count(kind: Kind, n: u64) -> Result<u64, Refusal>
    ensures { counted result ≡ count_of kind n }
{
    // asked here too, so that a call that is refused makes no table
    stirling::check_size(n)?;
    Table::of(kind).count(n)
}

// The permutation at a place of the list of n, written to `out`. Refusals 1, 3, 5; a refused call writes nothing.
pub fn unrank(kind: Kind, n: u64, place: u64, out: &mut [u8]) -> Result<(), Refusal>
    ensures refusal { refusal_in result ≡ check_unrank kind n place (length out.old) }
    ensures row { out.new ≡ written_by kind n place (refusal_in result) out.old }
{
    let table = Table::of(kind);
    table.check_unrank(n, place, out.len())?;
    table.write_row(place, out);
    Ok(())
}

// The place of a permutation in the list of n, where n is the slice's length. Refusals 1, 6, 7, and 15 or 16.
pub fn rank(kind: Kind, s: &[u8]) -> Result<u64, Refusal>
    ensures { answer_of result ≡ rank_of kind s.now }
{
    kind.check_rank(s)?;
    Ok(Table::of(kind).place_of(s))
}
