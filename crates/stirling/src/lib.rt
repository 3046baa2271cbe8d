// The unsigned Stirling numbers of the first kind: how many permutations of n have exactly k cycles; and the checks on n, k and a place.
#![tactic(auto)]

ghost use Rattle.std.specs.Prelude.{◌≡◌};
ghost use Rattle.stirling.specs.Refusal.{number, refusal_in};
ghost use Rattle.stirling.specs.Count.{entry_of, IsTable, lookup_of, check_size, check_cycles, check_place_in, check_place, count_of, counted};

// Why a call is refused: document 01's refusals and those of document 02, each by its number. C, a sheet and the rows of a walk have the number, with 0 for none.
#[derive(Clone, Copy, Debug, PartialEq, Eq)]
pub enum Refusal {
    // n is above 20.
    Size = 1,
    // k is not a number of cycles of a permutation of n.
    Cycles = 2,
    // The place is not below the number of rows.
    Place = 3,
    // The rows asked for are not 1 to 1,000, or more than stand from the place on.
    Rows = 4,
    // A slice has not the length that it needs.
    Lent = 5,
    // A value, an entry or a position is out of its range.
    Value = 6,
    // A value stands twice.
    Twice = 7,
    // A record is not one that the calls of a walk hand back.
    Record = 8,
    // Forward from the last place of a section, or on a list of one permutation.
    Last = 9,
    // Back from the first place of a section, or on a list of one permutation.
    First = 10,
    // A text is no sheet.
    Text = 11,
    // Fewer rows are lent than explain the place.
    Levels = 12,
    // A place outside a section, or a section that begins above its end.
    Section = 13,
    // No permutation from the place on meets the wishes.
    Unmet = 14,
    // A cycle is longer than two.
    Long = 15,
    // A cycle does not fall from its highest number to its lowest.
    Rising = 16,
}

impl Refusal {
    // The number of the documents.
    pub fn number(self) -> u8
        ensures { result ≡ number self }
    {
        self as u8
    }
}

// What a call that gives nothing answers, as C has it: its refusal's number, and 0 for none.
pub fn number_in(given: Result<(), Refusal>) -> u8
    ensures { result ≡ refusal_in given }
{
    match given {
        Ok(()) => 0,
        Err(refusal) => refusal.number(),
    }
}

// The largest n, and the largest k of the table.
pub const LARGEST: u64 = 20;

// The counts of one n in the table, for k from 0 on.
const ROW: u64 = 21;

// c(n,k) for n and k from 0 to 20, at n * 21 + k: one flat array, since memory is fixed.
const COUNTS: [u64; 441] = [
    1,
    0,
    0,
    0,
    0,
    0,
    0,
    0,
    0,
    0,
    0,
    0,
    0,
    0,
    0,
    0,
    0,
    0,
    0,
    0,
    0,
    0,
    1,
    0,
    0,
    0,
    0,
    0,
    0,
    0,
    0,
    0,
    0,
    0,
    0,
    0,
    0,
    0,
    0,
    0,
    0,
    0,
    0,
    1,
    1,
    0,
    0,
    0,
    0,
    0,
    0,
    0,
    0,
    0,
    0,
    0,
    0,
    0,
    0,
    0,
    0,
    0,
    0,
    0,
    2,
    3,
    1,
    0,
    0,
    0,
    0,
    0,
    0,
    0,
    0,
    0,
    0,
    0,
    0,
    0,
    0,
    0,
    0,
    0,
    0,
    6,
    11,
    6,
    1,
    0,
    0,
    0,
    0,
    0,
    0,
    0,
    0,
    0,
    0,
    0,
    0,
    0,
    0,
    0,
    0,
    0,
    24,
    50,
    35,
    10,
    1,
    0,
    0,
    0,
    0,
    0,
    0,
    0,
    0,
    0,
    0,
    0,
    0,
    0,
    0,
    0,
    0,
    120,
    274,
    225,
    85,
    15,
    1,
    0,
    0,
    0,
    0,
    0,
    0,
    0,
    0,
    0,
    0,
    0,
    0,
    0,
    0,
    0,
    720,
    1764,
    1624,
    735,
    175,
    21,
    1,
    0,
    0,
    0,
    0,
    0,
    0,
    0,
    0,
    0,
    0,
    0,
    0,
    0,
    0,
    5040,
    13068,
    13132,
    6769,
    1960,
    322,
    28,
    1,
    0,
    0,
    0,
    0,
    0,
    0,
    0,
    0,
    0,
    0,
    0,
    0,
    0,
    40320,
    109584,
    118124,
    67284,
    22449,
    4536,
    546,
    36,
    1,
    0,
    0,
    0,
    0,
    0,
    0,
    0,
    0,
    0,
    0,
    0,
    0,
    362880,
    1026576,
    1172700,
    723680,
    269325,
    63273,
    9450,
    870,
    45,
    1,
    0,
    0,
    0,
    0,
    0,
    0,
    0,
    0,
    0,
    0,
    0,
    3628800,
    10628640,
    12753576,
    8409500,
    3416930,
    902055,
    157773,
    18150,
    1320,
    55,
    1,
    0,
    0,
    0,
    0,
    0,
    0,
    0,
    0,
    0,
    0,
    39916800,
    120543840,
    150917976,
    105258076,
    45995730,
    13339535,
    2637558,
    357423,
    32670,
    1925,
    66,
    1,
    0,
    0,
    0,
    0,
    0,
    0,
    0,
    0,
    0,
    479001600,
    1486442880,
    1931559552,
    1414014888,
    657206836,
    206070150,
    44990231,
    6926634,
    749463,
    55770,
    2717,
    78,
    1,
    0,
    0,
    0,
    0,
    0,
    0,
    0,
    0,
    6227020800,
    19802759040,
    26596717056,
    20313753096,
    9957703756,
    3336118786,
    790943153,
    135036473,
    16669653,
    1474473,
    91091,
    3731,
    91,
    1,
    0,
    0,
    0,
    0,
    0,
    0,
    0,
    87178291200,
    283465647360,
    392156797824,
    310989260400,
    159721605680,
    56663366760,
    14409322928,
    2681453775,
    368411615,
    37312275,
    2749747,
    143325,
    5005,
    105,
    1,
    0,
    0,
    0,
    0,
    0,
    0,
    1307674368000,
    4339163001600,
    6165817614720,
    5056995703824,
    2706813345600,
    1009672107080,
    272803210680,
    54631129553,
    8207628000,
    928095740,
    78558480,
    4899622,
    218400,
    6580,
    120,
    1,
    0,
    0,
    0,
    0,
    0,
    20922789888000,
    70734282393600,
    102992244837120,
    87077748875904,
    48366009233424,
    18861567058880,
    5374523477960,
    1146901283528,
    185953177553,
    23057159840,
    2185031420,
    156952432,
    8394022,
    323680,
    8500,
    136,
    1,
    0,
    0,
    0,
    0,
    355687428096000,
    1223405590579200,
    1821602444624640,
    1583313975727488,
    909299905844112,
    369012649234384,
    110228466184200,
    24871845297936,
    4308105301929,
    577924894833,
    60202693980,
    4853222764,
    299650806,
    13896582,
    468180,
    10812,
    153,
    1,
    0,
    0,
    0,
    6402373705728000,
    22376988058521600,
    34012249593822720,
    30321254007719424,
    17950712280921504,
    7551527592063024,
    2353125040549984,
    557921681547048,
    102417740732658,
    14710753408923,
    1661573386473,
    147560703732,
    10246937272,
    549789282,
    22323822,
    662796,
    13566,
    171,
    1,
    0,
    0,
    121645100408832000,
    431565146817638400,
    668609730341153280,
    610116075740491776,
    371384787345228000,
    161429736530118960,
    52260903362512720,
    12953636989943896,
    2503858755467550,
    381922055502195,
    46280647751910,
    4465226757381,
    342252511900,
    20692933630,
    973941900,
    34916946,
    920550,
    16815,
    190,
    1,
];

// A count, or a refusal's number with 0, as C has it.
#[repr(C)]
#[derive(Drop)]
pub struct Counted {
    pub refusal: u8,
    pub count: u64,
}

impl From<Result<u64, Refusal>> for Counted {
    ghost from_gives = { λ given answer. answer ≡ counted given };

    fn from(given: Result<u64, Refusal>) -> Counted {
        match given {
            Ok(count) => Counted { refusal: 0, count },
            Err(refusal) => Counted {
                refusal: refusal.number(),
                count: 0,
            },
        }
    }
}

// The table of the counts, to be made once and lent.
pub fn table() -> [u64; 441]
    ensures { IsTable result }
{
    COUNTS
}

// The entry of a table for n and k, and 0 outside it. That is no Option, since the clause speaks of every slice and of all numbers, and a call that could not fail
// still cannot.
pub fn entry(counts: &[u64], n: u64, k: u64) -> u64
    ensures { result ≡ entry_of counts.now n k }
{
    if n > LARGEST {
        return 0;
    }
    if k > LARGEST {
        return 0;
    }
    let at = (n * ROW + k) as usize;
    counts.get(at).copied().unwrap_or(0)
}

// c(n,k), and 0 where n is above 20, as the clause has it.
pub fn lookup(n: u64, k: u64) -> u64
    ensures { result ≡ lookup_of n k }
{
    let counts = table();
    entry(&counts, n, k)
}

// Check 1: n is at most 20.
pub fn check_size(n: u64) -> Result<(), Refusal>
    ensures { refusal_in result ≡ check_size n }
{
    if LARGEST < n {
        return Err(Refusal::Size);
    }
    Ok(())
}

// Check 1, then check 2: k is 0 with n = 0, and 1 to n with n ≥ 1.
pub fn check_cycles(n: u64, k: u64) -> Result<(), Refusal>
    ensures { refusal_in result ≡ check_cycles n k }
{
    check_size(n)?;
    // the one permutation of nothing has no cycle, and every other has one at least
    if n == 0 && k == 0 {
        return Ok(());
    }
    if k < 1 || k > n {
        return Err(Refusal::Cycles);
    }
    Ok(())
}

// Checks 1 and 2, then check 3 by a table: the place is below its entry for n and k.
pub fn check_place_in(counts: &[u64], n: u64, k: u64, place: u64) -> Result<(), Refusal>
    ensures { refusal_in result ≡ check_place_in counts.now n k place }
{
    check_cycles(n, k)?;
    if place >= entry(counts, n, k) {
        return Err(Refusal::Place);
    }
    Ok(())
}

// Checks 1 and 2, then check 3: the place is below c(n,k).
pub fn check_place(n: u64, k: u64, place: u64) -> Result<(), Refusal>
    ensures { refusal_in result ≡ check_place n k place }
{
    let counts = table();
    check_place_in(&counts, n, k, place)
}

// Document 01's Count: checks 1 and 2, then c(n,k).
pub fn count(n: u64, k: u64) -> Result<u64, Refusal>
    ensures { counted result ≡ count_of n k }
{
    check_cycles(n, k)?;
    Ok(lookup(n, k))
}
