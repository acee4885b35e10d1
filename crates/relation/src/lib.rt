// Relations between numbers below 64, by value: an array of 64 rows, and (j, k) is held where digit k of row j is 1.
//
// Whatever makes a relation takes those it is made of by value and hands back a new array. A copy has 512 bytes: what looks at one row or one pair
// borrows the array, and `put` is not for loops. Rows that stand in memory that was lent are read there: `joined_row`, `join_lent` and `together`.
#![tactic(auto)]

ghost use Rattle.std.specs.Prelude.{ℕ, ◌<◌, ◌≤◌, length, ◌≡◌};
ghost use Rattle.std.specs.Iterator.{YieldsFirst, item_count};
ghost use Rattle.relation.specs.Digits.{ones_of};
ghost use Rattle.relation.specs.Relations.{Holds, holds?, HoldsExactly, IsRelation, RowsBelow, NoPair, Identity, Diagonal, With, Joined, Either, Both, Turned, DigitsExactly, InSome, SecondHalf, TellsNone, size_of};
ghost use Rattle.relation.specs.Rows.{Reached, Spread};

// The places of the digits of a word that are 1, from the lowest on: what is held is the word with those that are still to come.
#[derive(Drop)]
pub struct Ones(u64);

impl Iterator for Ones {
    type Item = usize;

    ghost next_gives = { YieldsFirst (λ s. ones_of s.0) };

    ghost remaining = { item_count (λ s. ones_of s.0) };

    fn next(&mut self) -> Option<usize> {
        if self.0 == 0 {
            return None;
        }
        let lowest = self.0.trailing_zeros() as usize;
        self.0 &= self.0 - 1;
        Some(lowest)
    }
}

pub fn ones_of(x: u64) -> Ones
    ensures { ones_of result.0 ≡ ones_of x }
{
    Ones(x)
}

// No pair.
pub fn empty() -> [u64; 64]
    ensures { HoldsExactly result NoPair }
{
    [0u64; 64]
}

// Each number below n with itself.
pub fn identity(n: usize) -> [u64; 64]
    requires { n ≤ 64 }
    ensures { HoldsExactly result (Identity n) }
{
    std::array::from_fn(|j| u64::from(j < n) << j)
}

pub fn has(r: &[u64; 64], j: usize, k: usize) -> bool
    requires { (j < 64) × (k < 64) }
    ensures { holds? r.now j k ≡ result }
{
    (r[j] >> k) % 2 == 1
}

// Each number whose digit of x is 1 with itself.
pub fn diagonal(x: u64) -> [u64; 64]
    ensures { HoldsExactly result (Diagonal x) }
{
    std::array::from_fn(|j| x & (1u64 << j))
}

// The pairs of r, and (j, k).
pub fn put(r: [u64; 64], j: usize, k: usize) -> [u64; 64]
    requires { (j < 64) × (k < 64) }
    ensures { HoldsExactly result (With r j k) }
{
    let mut s = r;
    s[j] |= 1u64 << k;
    s
}

// (j, l) where r has (j, k) and s has (k, l).
pub fn join(r: [u64; 64], s: [u64; 64]) -> [u64; 64]
    ensures { HoldsExactly result (Joined r s) }
{
    join_lent(&r, &s, 64)
}

// The rows of s that the digits of x name, together. Only digits that are 1 are looked at, from the lowest on.
pub fn joined_row(x: u64, s: &[u64]) -> u64
    requires { 64 ≤ length s.now }
    ensures { DigitsExactly result (Reached x s.now) }
{
    let mut y: u64 = 0;
    for k in ones_of(x) {
        y |= s[k];
    }
    y
}

// As `join`, of rows that are lent; r has none from row number `count` on.
pub fn join_lent(r: &[u64], s: &[u64], count: usize) -> [u64; 64]
    requires { (count ≤ 64) × (RowsBelow count r.now × (64 ≤ length s.now)) }
    ensures { HoldsExactly result (Joined r.now s.now) }
{
    let mut t = [0u64; 64];
    // `from_fn` was tried: what `joined_row` promises is not found again behind a closure that has no clauses of its own.
    for (j, &row) in r[..count].iter().enumerate() {
        t[j] = joined_row(row, s);
    }
    t
}

// The pairs that one or the other has. `both` differs in the operator alone; one function for the two would take it as a closure and say in clauses what it does.
pub fn either(r: [u64; 64], s: [u64; 64]) -> [u64; 64]
    ensures { HoldsExactly result (Either r s) }
{
    std::array::from_fn(|j| r[j] | s[j])
}

// The pairs that both have.
pub fn both(r: [u64; 64], s: [u64; 64]) -> [u64; 64]
    ensures { HoldsExactly result (Both r s) }
{
    std::array::from_fn(|j| r[j] & s[j])
}

// Each pair turned round.
pub fn transposed(r: [u64; 64]) -> [u64; 64]
    ensures { HoldsExactly result (Turned r) }
{
    let mut t = [0u64; 64];
    for (j, &row) in r.iter().enumerate() {
        spread(&mut t, row, j);
    }
    t
}

// Adds (k, j) for each digit k of x that is 1.
fn spread(t: &mut [u64; 64], x: u64, j: usize)
    requires { IsRelation t.old × (j < 64) }
    ensures { Spread t.old x j t.new }
{
    for k in ones_of(x) {
        t[k] |= 1u64 << j;
    }
}

// How many pairs r has.
pub fn size(r: [u64; 64]) -> usize
    ensures { size_of r ≡ result }
{
    r.iter().map(|row| row.count_ones() as usize).sum()
}

// Whether r has no pair that begins with j.
pub fn is_row_empty(r: &[u64; 64], j: usize) -> bool
    requires { j < 64 }
    ensures { TellsNone result ((k : ℕ) × Holds r.now j k) }
{
    r[j] == 0
}

// A digit for each number that a pair of r ends with.
pub fn second_halves(r: [u64; 64]) -> u64
    ensures { DigitsExactly result (SecondHalf r) }
{
    together(&r, 0, 64)
}

// The digits that are 1 in some word from one place to before another.
pub fn together(words: &[u64], from: usize, to: usize) -> u64
    requires { (from ≤ to) × (to ≤ length words.now) }
    ensures { DigitsExactly result (InSome words.now from to) }
{
    words[from..to].iter().fold(0, |x, word| x | word)
}

// Whether r has no pair.
pub fn is_empty(r: [u64; 64]) -> bool
    ensures { TellsNone result ((j : ℕ) × (k : ℕ) × Holds r j k) }
{
    second_halves(r) == 0
}
