// The balanced pairs and the live levels of a table.
//
// `pairs_and_levels` is the call. `balanced_pairs`, `live_levels`, `moves_of`, `is_move_of`, `is_of_kind`, `initial_digit` and `clear` serve the crates above.
// The first three ask for a table that was checked, and for its counts or its pairs; `is_move_of` asks for a place inside the moves, `initial_digit` for a state
// below 64, `clear` for enough scratch.
// In what order the first two search is known to nothing but the functions that they call.
#![tactic(auto)]

ghost use Rattle.std.specs.Prelude.{ℕ, ◌+◌, ◌<◌, ◌≤◌, T, length, replicate, eqb, ◌&&◌, ◌↔◌, ◌≡◌};
ghost use Rattle.vpa.specs.PairsComputed.{pairs, levels};
ghost use Rattle.vpa.specs.TableOnDisk.{state_count, initial?, final?};
ghost use Rattle.table.specs.Answers.{refused, number_of, kind_meant};
ghost use Rattle.table.specs.Calls.{kind_answer};
ghost use Rattle.table.specs.Layout.{parse};
ghost use Rattle.table.specs.Refusals.{verdict};
ghost use Rattle.relation.specs.Digits.{bit};
ghost use Rattle.relation.specs.Relations.{HoldsExactly};
ghost use Rattle.nesting.specs.Answers.{found_as};
ghost use Rattle.nesting.specs.Calls.{rows, sizes_answer, nesting_answer, nesting_pairs, nesting_levels};
ghost use Rattle.nesting.specs.Scratch.{scratch_size, cleared, scratch_after};
ghost use Rattle.nesting.specs.Steps.{IsChecked, MoveOf, AroundBy, Around, PairStart, PairRound, TopBack, InitialBelow, Beside, LevelRound, of_kind?, move_of?};

use table::{Kind, Refusal};

// How many numbers of scratch a call must be lent.
pub const SCRATCH: usize = 16384;

// How many balanced pairs and live levels there are.
#[derive(Clone, Copy)]
pub struct Sizes {
    pub pairs: usize,
    pub levels: usize,
}

// The answer, and beside it the rows of both relations. The rows are not part of the answer, since the clauses `pairs_value` and `levels_value` speak of them on a
// refusal too: they are zeros then.
#[derive(Clone, Copy)]
pub struct Nesting {
    pub found: Result<Sizes, Refusal>,
    pub pairs: [u64; 64],
    pub levels: [u64; 64],
}

// The balanced pairs and the live levels of a table, as rows and by number. Scratch is left as it was where the call refuses, and else is cleared.
// That (j, k) is held exactly if it is balanced, or live: `nesting_pairs_iff` and `nesting_levels_iff` of proofs/CallLaws.
pub fn pairs_and_levels(table: &[u8], scratch: &mut [u16]) -> Nesting
    ensures found_value { found_as result.found ≡ nesting_answer table.now scratch.old }
    ensures pairs_value { result.pairs ≡ nesting_pairs table.now scratch.old }
    ensures levels_value { result.levels ≡ nesting_levels table.now scratch.old }
    ensures scratch_after { scratch.new ≡ scratch_after table.now scratch.old }
{
    match table::check(table) {
        Err(refusal) => refused(refusal),
        Ok(counts) => {
            if scratch.len() < SCRATCH {
                return refused(Refusal::Lent);
            }
            clear(scratch);
            found_in(table, counts.states, counts.marks)
        }
    }
}

fn refused(refusal: Refusal) -> Nesting
    ensures found_value { found_as result.found ≡ refused (number_of refusal) }
    ensures pairs_value { result.pairs ≡ replicate 64 0 }
    ensures levels_value { result.levels ≡ replicate 64 0 }
{
    Nesting {
        found: Err(refusal),
        pairs: [0; 64],
        levels: [0; 64],
    }
}

fn found_in(table: &[u8], states: usize, marks: usize) -> Nesting
    requires { IsChecked table.now states marks }
    ensures found_value { found_as result.found ≡ sizes_answer (parse table.now) }
    ensures pairs_value { result.pairs ≡ rows (pairs (parse table.now)) }
    ensures levels_value { result.levels ≡ rows (levels (parse table.now)) }
{
    let pairs = balanced_pairs(table, states, marks);
    let levels = live_levels(table, marks, pairs);
    Nesting {
        found: Ok(Sizes {
            pairs: relation::size(pairs),
            levels: relation::size(levels),
        }),
        pairs,
        levels,
    }
}

// Zeros where a call may have worked, whatever was there.
pub fn clear(scratch: &mut [u16])
    requires { scratch_size ≤ length scratch.old }
    ensures { scratch.new ≡ cleared scratch.old }
{
    scratch[..SCRATCH].fill(0);
}

// The balanced pairs: from those that are balanced at once, round after round, until a round adds none.
// This and `live_levels`, which docs/DECISIONS.md names, ask for bytes and counts by clauses, and so do the functions that they stand on: a `Checked` is more than
// they have.
pub fn balanced_pairs(table: &[u8], states: usize, marks: usize) -> [u64; 64]
    requires { IsChecked table.now states marks }
    ensures { result ≡ rows (pairs (parse table.now)) }
{
    let mut r = first_pairs(table, states);
    // `live_levels` has the same loop. One function for both would be no plainer: it would take the round as a closure, and each caller would have to say in
    // clauses of that closure what the round asks and adds.
    loop {
        let s = pairs_round(table, marks, r);
        if relation::size(s) == relation::size(r) {
            return r;
        }
        r = s;
    }
}

// Each state with itself, and the plain moves, whose mark is 0.
fn first_pairs(table: &[u8], states: usize) -> [u64; 64]
    requires { (verdict table.now ≡ 0) × (states ≡ state_count (parse table.now)) }
    ensures { HoldsExactly result (PairStart (parse table.now)) }
{
    relation::either(relation::identity(states), moves_of(table, Kind::Plain, 0))
}

// The pairs of r, these joined, and each between an open move and a close move.
fn pairs_round(table: &[u8], marks: usize, r: [u64; 64]) -> [u64; 64]
    requires { (verdict table.now ≡ 0) × (marks ≡ (parse table.now).mark_count) }
    ensures { HoldsExactly result (PairRound (parse table.now) r) }
{
    let nested = around(table, marks, Kind::Open, r, Kind::Close);
    relation::either(r, relation::either(relation::join(r, r), nested))
}

// The live levels, given the balanced pairs. Levels are held turned round until the end, so that what one opens is a single chain of joins.
pub fn live_levels(table: &[u8], marks: usize, balanced: [u64; 64]) -> [u64; 64]
    requires { (verdict table.now ≡ 0) × ((marks ≡ (parse table.now).mark_count) × (balanced ≡ rows (pairs (parse table.now)))) }
    ensures { result ≡ rows (levels (parse table.now)) }
{
    let back = relation::transposed(balanced);
    let mut live = top_levels(table, back);
    loop {
        let more = levels_round(table, marks, balanced, back, live);
        if relation::size(more) == relation::size(live) {
            return relation::transposed(live);
        }
        live = more;
    }
}

// The balanced pairs from an initial to a final state, turned round.
fn top_levels(table: &[u8], back: [u64; 64]) -> [u64; 64]
    ensures { HoldsExactly result (TopBack (parse table.now) back) }
{
    let initial = initial_states(table);
    let mut r = relation::empty();
    // `from_fn` was tried: what `if_final` promises is not found again behind a closure that has no clauses of its own.
    for (q, &row) in back.iter().enumerate() {
        r[q] = if_final(table, q, row & initial);
    }
    r
}

fn if_final(table: &[u8], q: usize, row: u64) -> u64
    ensures { (o : ℕ) → (bit result o ≡ 1) ↔ ((bit row o ≡ 1) × T (final? (parse table.now) q)) }
{
    if table::is_final(table, q) { row } else { 0 }
}

// A digit for each initial state.
fn initial_states(table: &[u8]) -> u64
    ensures { InitialBelow (parse table.now) 64 result }
{
    let mut x: u64 = 0;
    // Each o is a state and no place in an array; the closure of a `fold` would need clauses of its own, as in `around`.
    for o in 0..64 {
        x |= initial_digit(table, o);
    }
    x
}

// A digit for the state o if it is initial, else none.
pub fn initial_digit(table: &[u8], o: usize) -> u64
    requires { o < 64 }
    ensures { (k : ℕ) → (bit result k ≡ 1) ↔ ((k ≡ o) × T (initial? (parse table.now) k)) }
{
    if table::is_initial(table, o) {
        1u64 << o
    } else {
        0
    }
}

// The levels held, and each balanced pair that one of them opens.
fn levels_round(
    table: &[u8],
    marks: usize,
    balanced: [u64; 64],
    back: [u64; 64],
    live: [u64; 64],
) -> [u64; 64]
    requires { (verdict table.now ≡ 0) × (marks ≡ (parse table.now).mark_count) }
    ensures { HoldsExactly result (LevelRound (parse table.now) balanced back live) }
{
    let opened = around(
        table,
        marks,
        Kind::Close,
        beside(balanced, live),
        Kind::Open,
    );
    relation::either(live, relation::both(back, opened))
}

// From where a close move inside a level ends to where an open move inside it begins.
fn beside(balanced: [u64; 64], live: [u64; 64]) -> [u64; 64]
    ensures { HoldsExactly result (Beside balanced live) }
{
    relation::join(relation::join(balanced, live), balanced)
}

// The pairs of r between two moves of these kinds with the same mark.
fn around(table: &[u8], marks: usize, first: Kind, r: [u64; 64], last: Kind) -> [u64; 64]
    requires { verdict table.now ≡ 0 }
    ensures { HoldsExactly result (Around (parse table.now) (kind_meant first) (kind_meant last) r marks) }
{
    let mut s = relation::empty();
    // A `fold` is no plainer: its closure calls functions, and would need clauses of its own to say what `Around` says.
    for mark in 0..marks {
        // Laid down first: an array that is still read cannot take a call's result.
        let next = relation::either(s, around_by(table, mark, first, r, last));
        s = next;
    }
    s
}

fn around_by(table: &[u8], mark: usize, first: Kind, r: [u64; 64], last: Kind) -> [u64; 64]
    requires { verdict table.now ≡ 0 }
    ensures { HoldsExactly result (AroundBy (parse table.now) (kind_meant first) (kind_meant last) r mark) }
{
    relation::join(
        relation::join(moves_of(table, first, mark), r),
        moves_of(table, last, mark),
    )
}

// The moves of a kind and a mark.
pub fn moves_of(table: &[u8], kind: Kind, mark: usize) -> [u64; 64]
    requires { verdict table.now ≡ 0 }
    ensures { HoldsExactly result (MoveOf (parse table.now) (kind_meant kind) mark) }
{
    let part = table::checked_moves(table);
    let mut r = relation::empty();
    for &[from, letter, with, to] in part.as_chunks::<4>().0 {
        if has_kind_and_mark(table, letter, with, kind, mark) {
            r[usize::from(from)] |= 1u64 << to;
        }
    }
    r
}

// Whether the move at place i of the moves is of this kind and mark.
pub fn is_move_of(table: &[u8], part: &[u8], i: usize, kind: Kind, mark: usize) -> bool
    requires { i + 3 < length part.now }
    ensures { move_of? table.now part.now i (kind_meant kind) mark ≡ result }
{
    has_kind_and_mark(table, part[i + 1], part[i + 2], kind, mark)
}

// Whether a move by this letter with this mark is what is asked for. The mark is looked at first, since a kind has to be looked up.
fn has_kind_and_mark(table: &[u8], letter: u8, with: u8, kind: Kind, mark: usize) -> bool
    ensures { (eqb with mark && of_kind? (kind_answer table.now letter) (kind_meant kind)) ≡ result }
{
    let is_marked = usize::from(with) == mark;
    is_marked && is_of_kind(table, usize::from(letter), kind)
}

// Whether a letter is of this kind. One past the table's is of none.
pub fn is_of_kind(table: &[u8], letter: usize, kind: Kind) -> bool
    ensures { of_kind? (kind_answer table.now letter) (kind_meant kind) ≡ result }
{
    table::kind_at(table, letter) == Some(kind)
}
