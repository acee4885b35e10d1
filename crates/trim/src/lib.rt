// The trimmer: from a table the one whose every step can still be finished, with the same accepting runs.
//
// `trim` is the call. It finds the balanced pairs and the live levels, lists the trimmed states, then the trimmed marks, then the trimmed moves, each list
// in its order as rows of four numbers at the front of scratch, and writes only once it is known that they are few enough and that the output has room.
#![tactic(auto)]

ghost use Rattle.std.specs.Prelude.{ℕ, ◌+◌, ◌*◌, ◌/◌, ◌<◌, ◌≤◌, T, length, get_or, take, cond, ◌↔◌, ◌≡◌};
ghost use Rattle.vpa.specs.PairsComputed.{pairs, levels};
ghost use Rattle.vpa.specs.TableOnDisk.{letter_count};
ghost use Rattle.vpa.specs.TrimComputed.{trim_states, trim_marks, trim_byte, trim_table};
ghost use Rattle.table.specs.Bytes.{word};
ghost use Rattle.table.specs.Layout.{entries, parse, unparse};
ghost use Rattle.table.specs.Meaning.{meant};
ghost use Rattle.relation.specs.Digits.{bit};
ghost use Rattle.nesting.specs.Calls.{rows};
ghost use Rattle.nesting.specs.Scratch.{scratch_size, KeptFrom};
ghost use Rattle.trim.specs.Answers.{trimmed_as};
ghost use Rattle.trim.specs.Calls.{written_answer, written_out, trim_call};
ghost use Rattle.triples.specs.Listing.{Laid, Appended};
ghost use Rattle.triples.specs.Steps.{Columns, WaysOf, Guides, PlanOf};
ghost use Rattle.trim.specs.Steps.{IsFrom, moves_by, moves_from, Rising, Cut, BlockOf, EndsLow, arrives?, marked_rows, head_bytes, ListedIn};

use table::{Checked, Kind, Refusal, Table};
use triples::{Plan, Trios, Ways};

// What the moves of one trimmed state are listed by.
#[derive(Clone, Copy)]
struct Origin {
    number: usize,
    state: usize,
    level: u64,
    pushes: u64,
    pops: u64,
}

// Writes the trimmed table to the front of out, and answers how many bytes it has. Refused, out is not touched. Scratch is left as it was where the bytes
// are no table or scratch is too short, and else is cleared, also where the call refuses with 8 or 9.
// That what is written passes the check and has the accepting runs of the original, one for one, and that 8 and 9 are exact: `trim_answered`,
// `written_same_runs`, `eight_exact` and `nine_exact` of proofs/CallLaws.
pub fn trim(table: &[u8], scratch: &mut [u16], out: &mut [u8]) -> Result<usize, Refusal>
    ensures result_value { trimmed_as result ≡ (trim_call table.now scratch.old out.old).answer }
    ensures scratch_after { scratch.new ≡ (trim_call table.now scratch.old out.old).scratch }
    ensures out_after { out.new ≡ (trim_call table.now scratch.old out.old).out }
{
    let table = Checked::new(table)?;
    if scratch.len() < nesting::SCRATCH {
        return Err(Refusal::Lent);
    }
    let answer = trim_checked(&table, scratch, out);
    nesting::clear(scratch);
    answer
}

fn trim_checked(table: &Checked, scratch: &mut [u16], out: &mut [u8]) -> Result<usize, Refusal>
    requires { scratch_size ≤ length scratch.old }
    ensures result_value { trimmed_as result ≡ written_answer (trim_table (meant table.now)) out.old }
    ensures out_after { out.new ≡ written_out (trim_table (meant table.now)) out.old }
    ensures kept_from { KeptFrom 4096 scratch.old scratch.new }
{
    let counts = table.counts;
    let balanced = nesting::balanced_pairs(table.bytes, counts.states, counts.marks);
    let live = nesting::live_levels(table.bytes, counts.marks, balanced);
    let count = triples::list_states(balanced, live, scratch);
    // The test has a name since two edits on the limit name its step.
    let too_many = Table::STATES < count;
    if too_many {
        return Err(Refusal::Large);
    }
    let states = triples::read_back(scratch, count);
    trim_with_states(table, balanced, live, states, scratch, out)
}

// The rest, once the trimmed states are known to be few enough. That `states` are those of the table stays a clause, of four functions: a struct of the two
// would be taken apart again for `plan_of` and `write_states`, which take numbers of no certain table and its bytes alone.
fn trim_with_states(
    table: &Checked,
    balanced: [u64; 64],
    live: [u64; 64],
    states: Trios,
    scratch: &mut [u16],
    out: &mut [u8],
) -> Result<usize, Refusal>
    requires scratch_bound { scratch_size ≤ length scratch.old }
    requires balanced_value { (balanced ≡ rows (pairs (meant table.now))) × (live ≡ rows (levels (meant table.now))) }
    requires columns { Columns (trim_states (meant table.now)) states }
    ensures result_value { trimmed_as result ≡ written_answer (trim_table (meant table.now)) out.old }
    ensures out_after { out.new ≡ written_out (trim_table (meant table.now)) out.old }
    ensures kept_from { KeptFrom 4096 scratch.old scratch.new }
{
    let ways = triples::list_marks(table, balanced, live, scratch);
    if Table::MARKS < ways.count {
        return Err(Refusal::Large);
    }
    let marks = triples::read_back(scratch, ways.count);
    trim_with_marks(table, states, marks, ways, scratch, out)
}

// The rest, once the trimmed marks are known to be few enough too.
fn trim_with_marks(
    table: &Checked,
    states: Trios,
    marks: Trios,
    ways: Ways,
    scratch: &mut [u16],
    out: &mut [u8],
) -> Result<usize, Refusal>
    requires scratch_bound { scratch_size ≤ length scratch.old }
    requires columns { Columns (trim_states (meant table.now)) states }
    requires columns_2 { Columns (trim_marks (meant table.now)) marks }
    requires ways_of { WaysOf (meant table.now) (trim_marks (meant table.now)) ways }
    ensures result_value { trimmed_as result ≡ written_answer (trim_table (meant table.now)) out.old }
    ensures out_after { out.new ≡ written_out (trim_table (meant table.now)) out.old }
    ensures kept_from { KeptFrom 4096 scratch.old scratch.new }
{
    let plan = triples::plan_of(states, marks, ways);
    let moves = list_moves(table, &plan, scratch);
    if Table::MOVES < moves {
        return Err(Refusal::Large);
    }
    let size = table::KINDS_PLACE + table.counts.letters + states.count + 4 * moves;
    if out.len() < size {
        return Err(Refusal::Room);
    }
    write_table(table, states, marks.count, moves, scratch, out);
    Ok(size)
}

// Lists the trimmed moves: by from, among equals by letter, among those by mark, among those by to. For too many it answers as `triples::append` does.
fn list_moves(table: &Checked, plan: &Plan, scratch: &mut [u16]) -> usize
    requires scratch_bound { scratch_size ≤ length scratch.old }
    requires plan_of { PlanOf (meant table.now) plan.now }
    ensures { Appended 1024 (trim_table (meant table.now)).moves scratch.old 0 scratch.new result }
{
    let mut total = 0;
    // A trimmed state is its number; the plan has an array for each thing that is known of it.
    for number in 0..plan.count {
        total = list_from(scratch, total, table, origin_of(plan, number), plan);
    }
    total
}

// What the plan says of one trimmed state.
fn origin_of(plan: &Plan, number: usize) -> Origin
    requires { number < 64 }
    ensures number { result.number ≡ number }
    ensures is_from { (t : _) → PlanOf t plan.now → number < plan.now.count → IsFrom t result }
{
    Origin {
        number,
        state: plan.state[number],
        level: plan.level[number],
        pushes: plan.pushes[number],
        pops: plan.pops[number],
    }
}

// Those from one trimmed state. The original's moves of a state stand together, and so do those of a state and a letter.
fn list_from(scratch: &mut [u16], count: usize, table: &Checked, from: Origin, plan: &Plan) -> usize
    requires count_bound { (count ≤ 1025) × (scratch_size ≤ length scratch.old) }
    requires guides { Guides (meant table.now) plan.now.here plan.now.mark plan.now.entered plan.now.outer × IsFrom (meant table.now) from }
    ensures { Appended 1024 (moves_from (meant table.now) from.number) scratch.old count scratch.new result }
{
    let part = table.moves();
    let key = 256 * from.state;
    let mut at = first_move(part, key);
    let mut total = count;
    // A letter is its number; the moves that it begins are found by it.
    for letter in 0..table.counts.letters {
        let end = end_of(part, at, key + letter);
        if at < end {
            let block = &part[4 * at..4 * end];
            total = list_by(scratch, total, table, block, letter, from, plan);
        }
        at = end;
    }
    total
}

// Those by one letter, block being the original's moves by it.
fn list_by(
    scratch: &mut [u16],
    count: usize,
    table: &Checked,
    block: &[u8],
    letter: usize,
    from: Origin,
    plan: &Plan,
) -> usize
    requires letter_bound { (letter < letter_count (meant table.now)) × ((count ≤ 1025) × (scratch_size ≤ length scratch.old)) }
    requires guides { Guides (meant table.now) plan.now.here plan.now.mark plan.now.entered plan.now.outer × IsFrom (meant table.now) from }
    requires block_of { BlockOf (meant table.now) from.state letter block.now }
    ensures { Appended 1024 (moves_by (meant table.now) from.number letter) scratch.old count scratch.new result }
{
    let number = from.number;
    match table::kind_at(table.bytes, letter) {
        None => count,
        Some(Kind::Plain) => {
            let to = targets(block, 0, &plan.here) & from.level;
            triples::append(scratch, count, Table::MOVES, number, letter, 0, to)
        }
        Some(Kind::Open) => {
            let marks = from.pushes;
            let ends = &plan.entered;
            list_marked(scratch, count, block, letter, number, marks, plan, ends)
        }
        Some(Kind::Close) => {
            let marks = from.pops;
            let ends = &plan.outer;
            list_marked(scratch, count, block, letter, number, marks, plan, ends)
        }
    }
}

// Those by one letter with the trimmed marks of a row, ending among the states that `ends` has for the mark.
fn list_marked(
    scratch: &mut [u16],
    count: usize,
    block: &[u8],
    letter: usize,
    number: usize,
    marks: u64,
    plan: &Plan,
    ends: &[u64; 64],
) -> usize
    requires letter_bound { (letter < 65536) × ((number < 65536) × ((count ≤ 1025) × (scratch_size ≤ length scratch.old))) }
    requires ends_low { EndsLow block.now }
    ensures { Appended 1024 (marked_rows block.now number letter marks plan.now.here plan.now.mark ends.now) scratch.old count scratch.new result }
{
    let mut total = count;
    for k in relation::ones_of(marks) {
        let to = targets(block, plan.mark[k], &plan.here) & ends[k];
        total = triples::append(scratch, total, Table::MOVES, number, letter, k, to);
    }
    total
}

// The trimmed states that stand for where the moves of a block with this mark end.
fn targets(block: &[u8], mark: usize, here: &[u64; 64]) -> u64
    requires { EndsLow block.now }
    ensures { (j : ℕ) → (bit result j ≡ 1) ↔ T (arrives? (entries block.now) mark here.now j) }
{
    let mut r = 0;
    for &[_, _, with, to] in block.as_chunks::<4>().0 {
        if usize::from(with) == mark {
            r |= here[usize::from(to)];
        }
    }
    r
}

// The number of moves whose state and letter stand before the key.
fn first_move(part: &[u8], key: usize) -> usize
    requires { Rising part.now }
    ensures { Cut part.now key result }
{
    let moves = part.as_chunks::<4>().0;
    moves.partition_point(|m| key_of(m) < key)
}

// The same for the next key, given it for this one.
fn end_of(part: &[u8], at: usize, key: usize) -> usize
    requires { Rising part.now × Cut part.now key at }
    ensures { (at ≤ result) × Cut part.now (key + 1) result }
{
    let rest = &part.as_chunks::<4>().0[at..];
    let other = rest.iter().position(|m| key_of(m) != key);
    at + other.unwrap_or(rest.len())
}

// The state and the letter of a move as one number.
fn key_of(m: &[u8; 4]) -> usize
    ensures { word m.now 0 ≡ result }
{
    let &[from, letter, _, _] = m;
    256 * usize::from(from) + usize::from(letter)
}

// Writes a table that was listed.
fn write_table(
    table: &Checked,
    states: Trios,
    marks: usize,
    moves: usize,
    scratch: &[u16],
    out: &mut [u8],
)
    requires columns { Columns (trim_states (meant table.now)) states }
    requires marks_value { (marks ≡ (trim_table (meant table.now)).mark_count) × (marks ≤ 64) }
    requires listed_in { ListedIn scratch.now moves (trim_table (meant table.now)).moves }
    requires moves_in_bounds { 8 + table.now.counts.letters + states.count + 4 * moves ≤ length out.old }
    ensures { Laid 0 (unparse (trim_table (meant table.now))) out.old out.new }
{
    let letters = table.counts.letters;
    let count = states.count;
    lay(&head(letters, count, marks, moves), 0, out);
    let end = table::KINDS_PLACE + letters;
    // The letters are the original's.
    let kinds = &table.bytes[table::KINDS_PLACE..end];
    lay(kinds, table::KINDS_PLACE, out);
    write_states(table.bytes, end, states, out);
    write_moves(scratch, moves, end + count, out);
}

fn head(letters: usize, states: usize, marks: usize, moves: usize) -> [u8; 8]
    requires { (letters ≤ 32) × ((states ≤ 64) × ((marks ≤ 64) × (moves ≤ 1024))) }
    ensures { result ≡ head_bytes states letters marks moves }
{
    let length = 6 + letters + states + 4 * moves;
    let [first, second] = (length as u16).to_be_bytes();
    let [high, low] = (moves as u16).to_be_bytes();
    [
        first,
        second,
        table::VERSION,
        states as u8,
        letters as u8,
        marks as u8,
        high,
        low,
    ]
}

// Copies bytes to a place of the output.
fn lay(bytes: &[u8], place: usize, out: &mut [u8])
    requires { place + length bytes.now ≤ length out.old }
    ensures { Laid place bytes.now out.old out.new }
{
    // A loop and no `copy_from_slice`, which is `memmove`: of other libraries the archive for C asks for `memcpy` and `memset` alone.
    for (i, byte) in out[place..place + bytes.len()].iter_mut().enumerate() {
        *byte = bytes[i];
    }
}

fn write_states(table: &[u8], place: usize, states: Trios, out: &mut [u8])
    requires { Columns (trim_states (parse table.now)) states × (place + states.count ≤ length out.old) }
    ensures { Laid place (trim_table (parse table.now)).state_bytes out.old out.new }
{
    let Trios {
        count,
        first,
        second,
        third,
    } = states;
    for (i, byte) in out[place..place + count].iter_mut().enumerate() {
        *byte = state_byte(table, first[i], second[i], third[i]);
    }
}

// Initial where its level begins, final where it ends, and both only on a level from an initial to a final state.
fn state_byte(table: &[u8], o: usize, q: usize, p: usize) -> u8
    ensures { trim_byte (parse table.now) (o, q, p) ≡ result }
{
    if table::is_initial(table, o) & table::is_final(table, q) {
        u8::from(p == o) + 2 * u8::from(p == q)
    } else {
        0
    }
}

fn write_moves(scratch: &[u16], moves: usize, place: usize, out: &mut [u8])
    requires { (4 * moves ≤ length scratch.now) × ((place + 4 * moves ≤ length out.old) × ((i : ℕ) → i < 4 * moves → get_or scratch.now i 0 < 256)) }
    ensures { Laid place (take (4 * moves) scratch.now) out.old out.new }
{
    let numbers = &scratch[..4 * moves];
    // Enumerated, since in a `zip` with the numbers, which was tried, the proof has no name for the bytes that are written.
    for (i, byte) in out[place..place + numbers.len()].iter_mut().enumerate() {
        *byte = numbers[i] as u8;
    }
}
