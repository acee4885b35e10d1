// A deck's table as bytes: checked, looked at, written back. The bytes stay the caller's.
//
// `check`, `moves`, `move_at` and `write` are the calls. `verdict`, `checked_moves`, `kind_at`, `is_initial` and `is_final` serve the crates
// above; of them only `checked_moves` asks for bytes that were checked.
#![tactic(auto)]

ghost use Rattle.std.specs.Prelude.{ℕ, ◌+◌, ◌*◌, ◌-◌, ◌<◌, ◌≤◌, eqb, length, drop, get_or, cond, ◌++◌, ◌≡◌, ◌↔◌, IsTrue, All};
ghost use Rattle.std.specs.List.{AllAdjacentBelow};
ghost use Rattle.std.specs.Simd.{first_chunks};
ghost use Rattle.vpa.specs.TableOnDisk.{initial?, final?};
ghost use Rattle.table.specs.Answers.{checked_as, written_as, got_as, kind_as, number_of, number_told};
ghost use Rattle.table.specs.Bytes.{byte, word, quad, all?};
ghost use Rattle.table.specs.Calls.{check_answer, moves_answer, move_answer, kind_answer, write_answer, write_out};
ghost use Rattle.table.specs.Layout.{moves_field, states_place, moves_place, states_part, moves_part, parse};
ghost use Rattle.table.specs.Refusals.{whole?, small?, sized?, capped?, lists?, mark_bound, in_range?, Fits, rises?, moves?, rung, head_rungs, verdict};

mod checked;
mod kind;
mod refusal;

pub use checked::Checked;
pub use kind::Kind;
pub use refusal::Refusal;

// The counts of a table.
#[derive(Clone, Copy)]
pub struct Table {
    pub states: usize,
    pub letters: usize,
    pub marks: usize,
    pub moves: usize,
}

// The limits: what a table may have, and the bytes of the largest.
impl Table {
    pub const STATES: usize = 64;

    pub const LETTERS: usize = 32;

    pub const MARKS: usize = 64;

    pub const MOVES: usize = 1024;

    pub const BYTES: usize = KINDS_PLACE + Table::LETTERS + Table::STATES + 4 * Table::MOVES;
}

// How many letters a log may have, whoever reads it.
pub const LONGEST_LOG: usize = 16777215;

// Where the numbers of the head stand, and where what follows it begins.
const LENGTH_FIELD: usize = 0;

const VERSION_FIELD: usize = 2;

const STATES_FIELD: usize = 3;

const LETTERS_FIELD: usize = 4;

const MARKS_FIELD: usize = 5;

const MOVES_FIELD: usize = 6;

pub const KINDS_PLACE: usize = 8;

// The version of a table that is accepted, and of one that is made.
pub const VERSION: u8 = 1;

#[derive(Clone, Copy)]
pub struct Move {
    pub from: u8,
    pub letter: u8,
    pub mark: u8,
    pub to: u8,
}

// The table's counts, or the refusal.
pub fn check(table: &[u8]) -> Result<Table, Refusal>
    ensures { checked_as result ≡ check_answer table.now }
{
    verdict(table)?;
    Ok(Table {
        states: number_at(table, STATES_FIELD),
        letters: number_at(table, LETTERS_FIELD),
        marks: number_at(table, MARKS_FIELD),
        moves: word_at(table, MOVES_FIELD),
    })
}

// The bytes of the table's moves, four for each; none where `check` refuses.
pub fn moves(table: &[u8]) -> &[u8]
    ensures { result.now ≡ moves_answer table.now }
{
    match verdict(table) {
        Ok(()) => checked_moves(table),
        Err(_) => &table[..0],
    }
}

// Move k, counted from 0, of the bytes of moves.
pub fn move_at(part: &[u8], k: usize) -> Option<Move>
    ensures { got_as result ≡ move_answer part.now k }
{
    let &[from, letter, mark, to] = part.as_chunks::<4>().0.get(k)?;
    Some(Move {
        from,
        letter,
        mark,
        to,
    })
}

// Writes the table to the front of out, and answers how many bytes it has. Refused, out is not touched.
pub fn write(table: &[u8], out: &mut [u8]) -> Result<usize, Refusal>
    ensures result_value { written_as result ≡ write_answer table.now out.old }
    ensures out_after { out.new ≡ write_out table.now out.old }
{
    verdict(table)?;
    let has_room = table.len() <= out.len();
    if !has_room {
        return Err(Refusal::Room);
    }
    // A loop and no `copy_from_slice`, which is `memmove`: of other libraries the archive for C asks for `memcpy` and `memset` alone.
    for (i, byte) in out[..table.len()].iter_mut().enumerate() {
        *byte = table[i];
    }
    Ok(table.len())
}

// Whether the bytes are a table; if not, why. What follows the head is looked at only once it is known to be there.
pub fn verdict(table: &[u8]) -> Result<(), Refusal>
    ensures { verdict table.now ≡ number_told result }
{
    head_verdict(table)?;
    rung(are_lists(table), Refusal::List)?;
    rung(are_moves(table), Refusal::Move)
}

// The bytes of the moves of a table that was checked. It asks by a clause, and not by a `Checked`, since docs/DECISIONS.md names it as the way for bytes.
pub fn checked_moves(table: &[u8]) -> &[u8]
    requires { verdict table.now ≡ 0 }
    ensures { result.now ≡ moves_part table.now }
{
    moves_bytes(table)
}

// The kind of a letter. Where the bytes were not checked, it is read from where it would stand; so are the next two.
pub fn kind_at(table: &[u8], letter: usize) -> Option<Kind>
    ensures { kind_as result ≡ kind_answer table.now letter }
{
    if letter >= number_at(table, LETTERS_FIELD) {
        return None;
    }
    let &number = table.get(KINDS_PLACE + letter)?;
    Some(Kind::from(number))
}

// Whether a state is initial. A state past the table's is not.
pub fn is_initial(table: &[u8], state: usize) -> bool
    ensures { initial? (parse table.now) state ≡ result }
{
    state_byte(table, state) % 2 == 1
}

// Whether a state is final. A state past the table's is not.
pub fn is_final(table: &[u8], state: usize) -> bool
    ensures { final? (parse table.now) state ≡ result }
{
    state_byte(table, state) / 2 == 1
}

// A state's byte, and 0 past the table's states.
fn state_byte(table: &[u8], state: usize) -> u8
    ensures { get_or (states_part table.now) state 0 ≡ result }
{
    if state < number_at(table, STATES_FIELD) {
        at(table, KINDS_PLACE + number_at(table, LETTERS_FIELD) + state)
    } else {
        0
    }
}

// What stands at place i; past the end that is 0.
fn at(table: &[u8], i: usize) -> u8
    ensures { byte table.now i ≡ result }
{
    table.get(i).copied().unwrap_or(0)
}

fn number_at(table: &[u8], i: usize) -> usize
    ensures { (byte table.now i ≡ result) × (result < 256) }
{
    usize::from(at(table, i))
}

fn word_at(table: &[u8], i: usize) -> usize
    requires { i < 65536 }
    ensures { (word table.now i ≡ result) × (result < 65536) }
{
    usize::from(u16::from_be_bytes([at(table, i), at(table, i + 1)]))
}

// Where the moves begin.
fn moves_place(table: &[u8]) -> usize
    ensures { (moves_place table.now ≡ result) × (result < 1024) }
{
    KINDS_PLACE + number_at(table, LETTERS_FIELD) + number_at(table, STATES_FIELD)
}

// Whether the head and the number of bytes are those of a table.
fn head_verdict(table: &[u8]) -> Result<(), Refusal>
    ensures { head_rungs table.now 0 ≡ number_told result }
{
    rung(is_whole(table), Refusal::Length)?;
    rung(at(table, VERSION_FIELD) == VERSION, Refusal::Version)?;
    rung(is_small(table), Refusal::Limit)?;
    rung(is_sized(table), Refusal::Size)
}

// A rung of the ladder of refusals.
fn rung(ok: bool, refusal: Refusal) -> Result<(), Refusal>
    ensures { number_told result ≡ rung ok (number_of refusal) 0 }
{
    if ok { Ok(()) } else { Err(refusal) }
}

fn is_whole(table: &[u8]) -> bool
    ensures { whole? table.now ≡ result }
{
    (8 <= table.len()) & (table.len() == word_at(table, LENGTH_FIELD) + 2)
}

fn is_small(table: &[u8]) -> bool
    ensures { small? table.now ≡ result }
{
    (number_at(table, STATES_FIELD) <= Table::STATES)
        & (number_at(table, LETTERS_FIELD) <= Table::LETTERS)
        & (number_at(table, MARKS_FIELD) <= Table::MARKS)
        & (word_at(table, MOVES_FIELD) <= Table::MOVES)
}

fn is_sized(table: &[u8]) -> bool
    ensures { sized? table.now ≡ result }
{
    word_at(table, LENGTH_FIELD)
        == 6 + number_at(table, LETTERS_FIELD)
            + number_at(table, STATES_FIELD)
            + 4 * word_at(table, MOVES_FIELD)
}

fn are_lists(table: &[u8]) -> bool
    requires { moves_place table.now ≤ length table.now }
    ensures { lists? table.now ≡ result }
{
    let place = KINDS_PLACE + number_at(table, LETTERS_FIELD);
    are_at_most(&table[KINDS_PLACE..place], 2) && are_at_most(&table[place..moves_place(table)], 3)
}

fn are_at_most(bytes: &[u8], most: u8) -> bool
    ensures { IsTrue result ↔ All (λ byte. byte ≤ most) bytes.now }
{
    bytes.iter().all(|&byte| byte <= most)
}

fn moves_bytes(table: &[u8]) -> &[u8]
    requires { moves_place table.now + 4 * moves_field table.now ≤ length table.now }
    ensures { result.now ≡ moves_part table.now }
{
    let place = moves_place(table);
    let end = place + 4 * word_at(table, MOVES_FIELD);
    &table[place..end]
}

// The bytes of the moves, four for each.
fn move_quads(table: &[u8]) -> &[[u8; 4]]
    requires { moves_place table.now + 4 * moves_field table.now ≤ length table.now }
    ensures { result.now ≡ first_chunks 4 (moves_field table.now) (moves_part table.now) }
{
    moves_bytes(table).as_chunks::<4>().0
}

fn are_moves(table: &[u8]) -> bool
    requires { moves_place table.now + 4 * moves_field table.now ≤ length table.now }
    ensures { moves? table.now ≡ result }
{
    are_in_range(table) && all_rise(table)
}

// Whether all moves name states, letters and marks of the table.
fn are_in_range(table: &[u8]) -> bool
    requires { moves_place table.now + 4 * moves_field table.now ≤ length table.now }
    ensures { all? (in_range? table.now) (moves_field table.now) ≡ result }
{
    all_fit(
        move_quads(table),
        at(table, STATES_FIELD),
        &mark_bounds(table),
    )
}

fn all_fit(quads: &[[u8; 4]], states: u8, bounds: &[u8; 256]) -> bool
    ensures { IsTrue result ↔ All (Fits states bounds.now) quads.now }
{
    quads.iter().all(|&[from, letter, mark, to]| {
        from < states && mark < bounds[usize::from(letter)] && to < states
    })
}

// For each byte that a move may have as its letter, the number that its mark is below.
fn mark_bounds(table: &[u8]) -> [u8; 256]
    requires { states_place table.now ≤ length table.now }
    ensures { (a : ℕ) → mark_bound table.now a ≡ get_or result a 0 }
{
    let marks = at(table, MARKS_FIELD);
    let kinds = &table[KINDS_PLACE..KINDS_PLACE + number_at(table, LETTERS_FIELD)];
    let mut bounds = [0u8; 256];
    for (letter, &kind) in kinds.iter().enumerate() {
        bounds[letter] = mark_bound(kind, marks);
    }
    bounds
}

fn mark_bound(kind: u8, marks: u8) -> u8
    ensures { cond (eqb kind 0) 1 marks ≡ result }
{
    if kind == 0 { 1 } else { marks }
}

// Whether each move stands before the next.
fn all_rise(table: &[u8]) -> bool
    requires { moves_place table.now + 4 * moves_field table.now ≤ length table.now }
    ensures { all? (rises? table.now) (moves_field table.now - 1) ≡ result }
{
    are_ascending(move_quads(table))
}

fn are_ascending(quads: &[[u8; 4]]) -> bool
    ensures { IsTrue result ↔ AllAdjacentBelow (λ here next. quad here 0 < quad next 0) quads.now (length quads.now) }
{
    quads
        .array_windows::<2>()
        .all(|&[here, next]| number_in(here) < number_in(next))
}

// The number in four bytes.
fn number_in(bytes: [u8; 4]) -> u32
    ensures { quad bytes 0 ≡ result }
{
    u32::from_be_bytes(bytes)
}
