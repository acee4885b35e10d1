// The triples of trimming: the trimmed states and the trimmed marks of a table, listed in order and numbered, and what the trimmer asks of their numbers.
//
// Lists stand as rows of four numbers at the front of scratch. `list_states`, `list_marks` and `append` write them and answer how many there are,
// `read_back` reads triples back, and `plan_of` makes rows of digits of their numbers: a set of trimmed states or of trimmed marks is a word, since
// there are at most 64.
//
// None of them is a call. They ask for what the trimmer knows: enough scratch; the pairs and levels of a checked table (`list_marks`); at most 64 rows
// (`read_back`); numbers below 64 (`plan_of`); at most 1,024 rows, of 16-bit numbers (`append`).
#![tactic(auto)]

ghost use Rattle.std.specs.Prelude.{ℕ, ◌+◌, ◌*◌, ◌<◌, ◌≤◌, length, get_or, ◌≡◌};
ghost use Rattle.std.specs.Int.Bits.{bit_and};
ghost use Rattle.vpa.specs.Lists.{each, below};
ghost use Rattle.vpa.specs.PairsComputed.{pairs, levels};
ghost use Rattle.vpa.specs.TrimComputed.{trim_marks};
ghost use Rattle.table.specs.Layout.{move_bytes};
ghost use Rattle.table.specs.Meaning.{meant};
ghost use Rattle.relation.specs.Relations.{HoldsExactly};
ghost use Rattle.nesting.specs.Calls.{rows};
ghost use Rattle.nesting.specs.Scratch.{scratch_size};
ghost use Rattle.triples.specs.Listing.{digits_of, rows_with, trio_rows, Laid, Appended};
ghost use Rattle.triples.specs.Steps.{Column, state_rows, InBy, OutBy, marks_of, WaysOf, MoreWays, Gathers, Low, NumberAt, OnLevel, SameValues, Turning, Plans};

use table::{Checked, Kind, Table};

// Trimmed states (o, q, p) or trimmed marks (γ, o, q), by number.
// It keeps an array for each part, as `Ways` and `Plan` do, and none of structs: the rows of those two are relations that `relation::transposed` and
// `relation::join` take whole, and `Column` and `Plans`, which `read_back` and `plan_of` promise, speak of each array by itself.
#[derive(Clone, Copy)]
pub struct Trios {
    pub count: usize,
    pub first: [usize; 64],
    pub second: [usize; 64],
    pub third: [usize; 64],
}

// Of trimmed marks: how many, and for each the states that an open move by it leads to from where its level begins, and those from which a close move
// by it leads to where the end of its level can be reached. With more than 64 marks nobody asks for these.
#[derive(Clone, Copy)]
pub struct Ways {
    pub count: usize,
    pub opens: [u64; 64],
    pub closes: [u64; 64],
}

// What the trimmed moves are listed by. Of trimmed states: how many, and the original's state of each. Of an original's state: the trimmed states that
// stand for it. Of a trimmed state: the states of its level, the marks of its level, and the marks that it can be the end of an inner level under.
// Of a trimmed mark: the original's mark, the states that begin an inner level under it, and the states of its own level, the outer one.
#[derive(Clone, Copy)]
pub struct Plan {
    pub count: usize,
    pub state: [usize; 64],
    pub here: [u64; 64],
    pub level: [u64; 64],
    pub pushes: [u64; 64],
    pub pops: [u64; 64],
    pub mark: [usize; 64],
    pub entered: [u64; 64],
    pub outer: [u64; 64],
}

// The trimmed states on the level of a trimmed state, and on that of a trimmed mark.
#[derive(Drop)]
struct Levels {
    level: [u64; 64],
    outer: [u64; 64],
}

// Reads back rows that were listed.
pub fn read_back(scratch: &[u16], count: usize) -> Trios
    requires { (count ≤ 64) × (scratch_size ≤ length scratch.now) }
    ensures { (result.count ≡ count) × (Column scratch.now 1 count result.first × (Column scratch.now 2 count result.second × Column scratch.now 3 count result.third)) }
{
    Trios {
        count,
        first: column(scratch, 1),
        second: column(scratch, 2),
        third: column(scratch, 3),
    }
}

// One number of each of the first 64 rows.
fn column(scratch: &[u16], place: usize) -> [usize; 64]
    requires { (place ≤ 3) × (scratch_size ≤ length scratch.now) }
    ensures { Column scratch.now place 64 result }
{
    let rows = scratch.as_chunks::<4>().0;
    std::array::from_fn(|i| usize::from(rows[i][place]))
}

// Lists the trimmed states: by o, among equals by q, among those by p.
pub fn list_states(balanced: [u64; 64], live: [u64; 64], scratch: &mut [u16]) -> usize
    requires { scratch_size ≤ length scratch.old }
    ensures { Appended 64 (state_rows balanced live) scratch.old 0 scratch.new result }
{
    let back = relation::transposed(balanced);
    let mut count = 0;
    for (o, &ends) in live.iter().enumerate() {
        count = list_states_from(scratch, count, o, balanced[o], &back, ends);
    }
    count
}

// Those that begin at o: balanced is its row of pairs, live its row of levels.
fn list_states_from(
    scratch: &mut [u16],
    count: usize,
    o: usize,
    balanced: u64,
    back: &[u64; 64],
    live: u64,
) -> usize
    requires { (o < 64) × ((count ≤ 65) × (scratch_size ≤ length scratch.old)) }
    ensures { Appended 64 (each (λ q. rows_with 0 o q (digits_of (bit_and balanced (get_or back.now q 0)))) (digits_of live)) scratch.old count scratch.new result }
{
    let mut total = count;
    for q in relation::ones_of(live) {
        total = append(scratch, total, Table::STATES, 0, o, q, balanced & back[q]);
    }
    total
}

// Lists the trimmed marks: by γ, among equals by o, among those by q; and finds the ways of each. With more than 64 the rows of the ways are 0, in place of
// no ways at all: `Appended` asks for the count then too, which the next mark goes on from, and `WaysOf` is promised of at most 64 marks.
// Balanced and live stay two parameters: `list_states` takes any two relations (`state_rows`), `ways_in` and `ways_out` the first alone, so a struct of them
// and their table, with the clause as its invariant, would be taken apart where it is used, for three shorter lists of parameters.
pub fn list_marks(
    table: &Checked,
    balanced: [u64; 64],
    live: [u64; 64],
    scratch: &mut [u16],
) -> Ways
    requires scratch_bound { scratch_size ≤ length scratch.old }
    requires balanced_value { (balanced ≡ rows (pairs (meant table.now))) × (live ≡ rows (levels (meant table.now))) }
    ensures appended { Appended 64 (trio_rows (trim_marks (meant table.now))) scratch.old 0 scratch.new result.count }
    ensures ways_of { result.count ≤ 64 → WaysOf (meant table.now) (trim_marks (meant table.now)) result }
{
    let mut ways = Ways {
        count: 0,
        opens: [0; 64],
        closes: [0; 64],
    };
    // A mark is its number; there is no list of marks to go over.
    for mark in 0..table.counts.marks {
        ways = list_marks_of(table, mark, balanced, live, ways, scratch);
    }
    ways
}

// Those of one mark, appended.
fn list_marks_of(
    table: &Checked,
    mark: usize,
    balanced: [u64; 64],
    live: [u64; 64],
    ways: Ways,
    scratch: &mut [u16],
) -> Ways
    requires mark_bound { (mark < 64) × (scratch_size ≤ length scratch.old) }
    requires balanced_value { (balanced ≡ rows (pairs (meant table.now))) × (live ≡ rows (levels (meant table.now))) }
    requires count_bound { ways.count ≤ 65 }
    ensures appended { Appended 64 (trio_rows (marks_of (meant table.now) mark)) scratch.old ways.count scratch.new result.count }
    ensures more_ways { result.count ≤ 64 → MoreWays (meant table.now) mark ways result }
{
    let inward = ways_in(table, mark, balanced);
    let outward = ways_out(table, mark, balanced);
    let opening = relation::both(
        live,
        relation::join(relation::join(inward, balanced), outward),
    );
    let from = ways.count;
    let total = list_openers(scratch, from, mark, opening);
    if Table::MARKS < total {
        return Ways {
            count: total,
            opens: [0; 64],
            closes: [0; 64],
        };
    }
    let opens = ways.opens;
    let closes = ways.closes;
    Ways {
        count: total,
        opens: gathered(opens, from, total, scratch, 2, inward),
        closes: gathered(
            closes,
            from,
            total,
            scratch,
            3,
            relation::transposed(outward),
        ),
    }
}

// From the beginning of a level along the balanced pairs and over an open move with this mark.
fn ways_in(table: &Checked, mark: usize, balanced: [u64; 64]) -> [u64; 64]
    requires { balanced ≡ rows (pairs (meant table.now)) }
    ensures { HoldsExactly result (InBy (meant table.now) mark) }
{
    relation::join(balanced, nesting::moves_of(table.bytes, Kind::Open, mark))
}

// Over a close move with this mark, and along the balanced pairs to the end of a level.
fn ways_out(table: &Checked, mark: usize, balanced: [u64; 64]) -> [u64; 64]
    requires { balanced ≡ rows (pairs (meant table.now)) }
    ensures { HoldsExactly result (OutBy (meant table.now) mark) }
{
    relation::join(nesting::moves_of(table.bytes, Kind::Close, mark), balanced)
}

// Appends the mark with each level that opens one by it.
fn list_openers(scratch: &mut [u16], count: usize, mark: usize, opening: [u64; 64]) -> usize
    requires { (mark < 64) × ((count ≤ 65) × (scratch_size ≤ length scratch.old)) }
    ensures { Appended 64 (each (λ o. rows_with 0 mark o (digits_of (get_or opening o 0))) (below 64)) scratch.old count scratch.new result }
{
    let mut total = count;
    for (o, &ends) in opening.iter().enumerate() {
        total = append(scratch, total, Table::MARKS, 0, mark, o, ends);
    }
    total
}

// The old rows, but in the places from `from` to below `to` the rows that the listed numbers name.
fn gathered(
    old: [u64; 64],
    from: usize,
    to: usize,
    scratch: &[u16],
    place: usize,
    named: [u64; 64],
) -> [u64; 64]
    requires to_bound { (to ≤ 64) × ((place ≤ 3) × (scratch_size ≤ length scratch.now)) }
    requires by_index { (k : ℕ) → from ≤ k → k < to → get_or scratch.now (4 * k + place) 0 < 64 }
    ensures { Gathers old from to scratch.now place named result }
{
    let rows = scratch.as_chunks::<4>().0;
    std::array::from_fn(|k| {
        if from <= k && k < to {
            named[usize::from(rows[k][place])]
        } else {
            old[k]
        }
    })
}

// Appends a row (x, y, z, k) for each digit k of last that is 1, if that makes no more than most rows, and answers how many there are then; one past
// the most for more. x, y and z stay three numbers: what it promises speaks of each of them (`rows_with`).
// It answers a number, and no None, for too many rows: its clause `Appended` says which (`capped`), and docs/DECISIONS.md so describes `append`. The same
// holds of all that list by it: `list_states`, `list_marks` and the trimmer's moves.
pub fn append(
    scratch: &mut [u16],
    count: usize,
    most: usize,
    x: usize,
    y: usize,
    z: usize,
    last: u64,
) -> usize
    requires most_bound { (most ≤ 1024) × ((count ≤ most + 1) × (scratch_size ≤ length scratch.old)) }
    requires x_bound { (x < 65536) × ((y < 65536) × (z < 65536)) }
    ensures { Appended most (rows_with x y z (digits_of last)) scratch.old count scratch.new result }
{
    let total = count + last.count_ones() as usize;
    if most < total {
        return most + 1;
    }
    write_rows(scratch, count, x, y, z, last);
    total
}

fn write_rows(scratch: &mut [u16], count: usize, x: usize, y: usize, z: usize, last: u64)
    requires last_bound { (count + length (digits_of last) ≤ 1024) × (scratch_size ≤ length scratch.old) }
    requires x_bound { (x < 65536) × ((y < 65536) × (z < 65536)) }
    ensures { Laid (4 * count) (move_bytes (rows_with x y z (digits_of last))) scratch.old scratch.new }
{
    // The place is counted by hand: with the pieces of `as_chunks_mut` in a `zip` with the digits, which was tried, the proof has no name for what the pieces
    // hold after a turn, and did not close.
    let mut at = 4 * count;
    for k in relation::ones_of(last) {
        let row = [x as u16, y as u16, z as u16, k as u16];
        scratch[at..at + 4].copy_from_slice(&row);
        at += 4;
    }
}

pub fn plan_of(states: Trios, marks: Trios, ways: Ways) -> Plan
    requires low { Low states.count states.first × (Low states.count states.second × Low states.count states.third) }
    requires low_2 { Low marks.count marks.second × Low marks.count marks.third }
    ensures { Plans states marks ways result }
{
    let Levels { level, outer } = levels_of(states, marks);
    let Trios {
        count,
        first,
        second,
        third: state,
    } = states;
    let mark = marks.first;
    let ends = turning(second, first, state, count);
    let left = relation::join(ways.opens, ends);
    let starts = turning(first, second, state, count);
    Plan {
        count,
        state,
        here: numbers_at(state, count),
        level,
        pushes: relation::transposed(outer),
        pops: relation::transposed(left),
        mark,
        entered: relation::join(ways.closes, starts),
        outer,
    }
}

fn levels_of(states: Trios, marks: Trios) -> Levels
    requires { Low states.count states.first × (Low states.count states.second × (Low marks.count marks.second × Low marks.count marks.third)) }
    ensures level { HoldsExactly result.level (SameValues states.first states.second states.count states.first states.second states.count) }
    ensures outer { HoldsExactly result.outer (SameValues marks.second marks.third marks.count states.first states.second states.count) }
{
    let begun = numbers_at(states.first, states.count);
    let ending = numbers_at(states.second, states.count);
    Levels {
        level: on_levels(begun, ending, states.first, states.second, states.count),
        outer: on_levels(begun, ending, marks.second, marks.third, marks.count),
    }
}

// For each value, the numbers below n that have it.
fn numbers_at(values: [usize; 64], n: usize) -> [u64; 64]
    requires { Low n values }
    ensures { HoldsExactly result (NumberAt values n) }
{
    let mut r = [0; 64];
    for (j, &value) in values[..n].iter().enumerate() {
        r[value] |= 1u64 << j;
    }
    r
}

// For each number below n, those that begin and end as the two values of it say. It is a loop, since the edit `closed_to_any_end` of `from_fn`, which was
// proved too, met the prover's step limit in place of a refused fact.
fn on_levels(
    begun: [u64; 64],
    ending: [u64; 64],
    first: [usize; 64],
    second: [usize; 64],
    n: usize,
) -> [u64; 64]
    requires { Low n first × Low n second }
    ensures { HoldsExactly result (OnLevel begun ending first second n) }
{
    let mut r = [0; 64];
    for (i, &begins) in first[..n].iter().enumerate() {
        r[i] = begun[begins] & ending[second[i]];
    }
    r
}

// As `numbers_at` of far, with a test for each number; the test as a closure would need clauses of its own, for one line less.
// For each value of far, the numbers below n that have it and whose third value is the near one: they stand where their level begins, or where it ends.
fn turning(near: [usize; 64], far: [usize; 64], third: [usize; 64], n: usize) -> [u64; 64]
    requires { Low n far }
    ensures { HoldsExactly result (Turning near far third n) }
{
    let mut r = [0; 64];
    for (j, &value) in far[..n].iter().enumerate() {
        if third[j] == near[j] {
            r[value] |= 1u64 << j;
        }
    }
    r
}
