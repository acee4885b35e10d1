// Tables to try: the two that document 01 has, these with a byte changed, and others that are made from their counts.
ghost use Rattle.std.specs.Prelude.{◌<◌};

use crate::lent;

pub const WORKED: [u8; 36] = [
    0x00, 0x22, 0x01, 0x04, 0x04, 0x02, 0x00, 0x05, 0x00, 0x01, 0x02, 0x00, 0x01, 0x00, 0x02, 0x00,
    0x00, 0x01, 0x00, 0x01, 0x00, 0x01, 0x01, 0x03, 0x01, 0x00, 0x00, 0x01, 0x01, 0x02, 0x00, 0x02,
    0x03, 0x03, 0x00, 0x03,
];

pub const TRIMMED: [u8; 27] = [
    0x00, 0x19, 0x01, 0x03, 0x04, 0x01, 0x00, 0x03, 0x00, 0x01, 0x02, 0x00, 0x01, 0x02, 0x00, 0x00,
    0x01, 0x00, 0x02, 0x02, 0x00, 0x00, 0x02, 0x02, 0x02, 0x00, 0x01,
];

// Both marks go between the same levels: each state opens itself and closes itself by either.
pub const TWO_MARKS: [u8; 44] = [
    0x00, 0x2a, 0x01, 0x02, 0x02, 0x02, 0x00, 0x08, 0x01, 0x02, 0x03, 0x03, 0x00, 0x00, 0x00, 0x00,
    0x00, 0x00, 0x01, 0x00, 0x00, 0x01, 0x00, 0x00, 0x00, 0x01, 0x01, 0x00, 0x01, 0x00, 0x00, 0x01,
    0x01, 0x00, 0x01, 0x01, 0x01, 0x01, 0x00, 0x01, 0x01, 0x01, 0x01, 0x01,
];

// A path from 0 to 6: plain, open, open, close, close, plain. From 0 no balanced pair leads to a close move, so the open move
// from 1 to 0 is never closed.
pub const NESTED_TWICE: [u8; 46] = [
    0x00, 0x2c, 0x01, 0x07, 0x03, 0x01, 0x00, 0x07, 0x00, 0x01, 0x02, 0x01, 0x00, 0x00, 0x00, 0x00,
    0x00, 0x02, 0x00, 0x00, 0x00, 0x01, 0x01, 0x01, 0x00, 0x00, 0x01, 0x01, 0x00, 0x02, 0x02, 0x01,
    0x00, 0x03, 0x03, 0x02, 0x00, 0x04, 0x04, 0x02, 0x00, 0x05, 0x05, 0x00, 0x00, 0x06,
];

// From state 1 to state 0. Of the live levels (0,0), (0,1) and (1,0) two begin in 0 and two end there.
pub const TWO_ENDS: [u8; 28] = [
    0x00, 0x1a, 0x01, 0x02, 0x02, 0x02, 0x00, 0x04, 0x01, 0x02, 0x02, 0x01, 0x00, 0x00, 0x01, 0x00,
    0x00, 0x01, 0x01, 0x01, 0x01, 0x00, 0x00, 0x00, 0x01, 0x01, 0x00, 0x00,
];

// The same with a plain letter put first that no move has.
pub const UNUSED_LETTER: [u8; 29] = [
    0x00, 0x1b, 0x01, 0x02, 0x03, 0x02, 0x00, 0x04, 0x00, 0x01, 0x02, 0x02, 0x01, 0x00, 0x01, 0x01,
    0x00, 0x00, 0x02, 0x01, 0x01, 0x01, 0x01, 0x00, 0x00, 0x01, 0x02, 0x00, 0x00,
];

// The one state is initial and final. Letters 0 and 4 open, by marks 0 and 1, and letter 1 closes by either; letter 3 is plain. Letter 2 opens and no move has it.
pub const ONE_STATE: [u8; 34] = [
    0x00, 0x20, 0x01, 0x01, 0x05, 0x02, 0x00, 0x05, 0x01, 0x02, 0x01, 0x00, 0x01, 0x03, 0x00, 0x00,
    0x00, 0x00, 0x00, 0x01, 0x00, 0x00, 0x00, 0x01, 0x01, 0x00, 0x00, 0x03, 0x00, 0x00, 0x00, 0x04,
    0x01, 0x00,
];

// The logs that document 01 reads by the worked table and by the trimmed one, P4 to P9.
pub const EXAMPLES: [&[u8]; 5] = [&[1, 2], &[1, 0, 2], &[1, 3], &[2], &[]];

// No states, letters, marks or moves.
pub const EMPTY: [u8; 8] = [0, 6, 1, 0, 0, 0, 0, 0];

// One byte more than the largest table has.
pub const LARGEST_AND_ONE: usize = 4201;

// Places of the worked table.
pub const VERSION_PLACE: usize = 2;

pub const STATES_PLACE: usize = 3;

const LETTERS_PLACE: usize = 4;

pub const KINDS_PLACE: usize = 8;

pub const LAST_KIND_PLACE: usize = 11;

pub const INITIAL_PLACE: usize = 12;

pub const FINAL_PLACE: usize = 14;

pub const LAST_STATE_PLACE: usize = 15;

pub const MOVES_PLACE: usize = 16;

// Where the bytes of a move stand in it: numbers and no enum, since they are added to where the move stands.
pub const FROM: u8 = 0;

pub const LETTER: u8 = 1;

pub const MARK: u8 = 2;

pub const TO: u8 = 3;

// The worked table with another byte at one place.
pub fn worked_with(place: usize, byte: u8) -> [u8; 36] {
    let mut table = WORKED;
    if let Some(changed) = table.get_mut(place) {
        *changed = byte;
    }
    table
}

// The worked table with another byte in move k.
pub fn changed(k: u8, field: u8, byte: u8) -> [u8; 36] {
    worked_with(MOVES_PLACE + 4 * usize::from(k) + usize::from(field), byte)
}

// The worked table with a byte after it, and L as given.
pub fn longer_worked(l: u8) -> [u8; 37] {
    let mut table = [0u8; 37];
    table[..WORKED.len()].copy_from_slice(&WORKED);
    table[1] = l;
    table
}

// Two states, two open letters, two marks, and these two moves.
pub fn of_two_moves(first: [u8; 4], second: [u8; 4]) -> [u8; 20] {
    let mut table = [0; 20];
    table[..12].copy_from_slice(&[0, 18, 1, 2, 2, 2, 0, 2, 1, 1, 0, 0]);
    table[12..16].copy_from_slice(&first);
    table[16..].copy_from_slice(&second);
    table
}

// State 0 is initial and state 1 final, letter 0 opens and letter 1 closes, and there are these two moves.
pub fn of_open_and_close(first: [u8; 4], second: [u8; 4]) -> [u8; 20] {
    let mut table = of_two_moves(first, second);
    table[9..12].copy_from_slice(&[2, 1, 2]);
    table
}

// 64 states, the first initial and the last final, and a plain move from each to the next.
pub fn chain() -> [u8; LARGEST_AND_ONE] {
    let mut table = of_counts(64, 1, 0, 63);
    table[9] = 1;
    table[72] = 2;
    put_each(&mut table, 63, |k| [low(k), 0, 0, low(k).wrapping_add(1)]);
    table
}

// The chain with a move from its last state to its first, and every state initial and final.
pub fn ring() -> [u8; LARGEST_AND_ONE] {
    let mut table = chain();
    table[1] = 0x47;
    table[7] = 64;
    put(&mut table, 63, [63, 0, 0, 0]);
    table[9..73].fill(3);
    table
}

// As many states, letters and marks as a table may have. State 63 opens itself and closes itself by mark 63.
pub fn last_of_each() -> [u8; LARGEST_AND_ONE] {
    let mut table = of_counts(64, 32, 64, 2);
    table[38] = 1;
    table[39] = 2;
    table[103] = 3;
    put_all(&mut table, &[[63, 30, 63, 63], [63, 31, 63, 63]]);
    table
}

// Of the moves from each state to each of the first `targets` states, by each letter and with each mark, the first `moves` in order. State 0 is initial
// and final; `others` is the byte of each other state that has a move.
pub fn of_all_moves(
    states: u8,
    letters: u8,
    marks: u8,
    targets: u8,
    moves: u16,
    others: u8,
) -> [u8; LARGEST_AND_ONE] {
    let mut table = of_counts(states, letters, marks, moves);
    // Each move's bytes follow from its number.
    for k in 0..moves {
        let (mark, to) = parts(k, targets);
        let (letter, mark) = parts(mark, marks);
        let (from, letter) = parts(letter, letters);
        let from = low(from);
        let place = 8 + usize::from(letters) + usize::from(from);
        table[place] = if from == 0 { 3 } else { others };
        put(&mut table, k, [from, letter, mark, to]);
    }
    table
}

// A number in parts of so many: how many are full, and what is left.
fn parts(n: u16, by: u8) -> (u16, u8) {
    let by = u16::from(by);
    let full = n.checked_div(by).unwrap_or(0);
    let left = n.checked_rem(by).unwrap_or(0);
    (full, low(left))
}

// Letter 0 is plain, letter 1 opens and letter 2 closes. State `first` is initial and the last one final. The moves are still to be put.
fn of_three_letters(states: u8, marks: u8, moves: u16, first: u8) -> [u8; LARGEST_AND_ONE] {
    let mut table = of_counts(states, 3, marks, moves);
    table[9] = 1;
    table[10] = 2;
    table[11 + usize::from(first)] = 1;
    table[10 + usize::from(states)] = 2;
    table
}

// From 0 to 4 lead a plain way by 1 and a nested one by 3, as these moves have it; state 2 is for the longer one.
pub fn plain_and_nested(third: [u8; 4], fourth: [u8; 4], fifth: [u8; 4]) -> [u8; LARGEST_AND_ONE] {
    let mut table = of_three_letters(5, 1, 5, 0);
    put_all(
        &mut table,
        &[[0, 0, 0, 1], [0, 1, 0, 3], third, fourth, fifth],
    );
    table
}

// Mark 0 is pushed. It is popped after a plain move, and before that mark 1 could be.
pub fn other_mark_sooner() -> [u8; LARGEST_AND_ONE] {
    let mut table = of_three_letters(4, 2, 4, 0);
    put_all(
        &mut table,
        &[[0, 1, 0, 1], [1, 0, 0, 2], [1, 2, 1, 3], [2, 2, 0, 3]],
    );
    table
}

// Letter 0 opens too. Both open letters lead to where mark 1 is popped; letter 1 pushes it, and letter 0 mark 0.
pub fn other_mark_first() -> [u8; LARGEST_AND_ONE] {
    let mut table = of_three_letters(3, 2, 3, 0);
    table[KINDS_PLACE] = 1;
    put_all(&mut table, &[[0, 0, 0, 1], [0, 1, 1, 1], [1, 2, 1, 2]]);
    table
}

// Letter 0 opens and letter 1 is plain. The mark is pushed on the way to 1 or to 2, which is nearer, and popped from 3 to 4. Beside the plain move from 2 to 3
// there is an open one, and beside the close move to 4 a plain one.
pub fn second_open_nearer() -> [u8; LARGEST_AND_ONE] {
    let mut table = of_three_letters(5, 1, 7, 0);
    table[KINDS_PLACE] = 1;
    table[KINDS_PLACE + 1] = 0;
    put_all(
        &mut table,
        &[
            [0, 0, 0, 1],
            [0, 0, 0, 2],
            [1, 1, 0, 2],
            [2, 0, 0, 3],
            [2, 1, 0, 3],
            [2, 1, 0, 4],
            [3, 2, 0, 4],
        ],
    );
    table
}

// Level 0 is state 0. Level k + 1 leads from 3k + 1 by 3k + 2 to 3k + 3, and each half of it opens level k by a mark of its own and closes it. So the only way
// through level k has 4 (2^k - 1) letters. After the last level come the plain moves.
pub fn doubling(levels: u8, plain: u8) -> [u8; LARGEST_AND_ONE] {
    let moves = 4 * u16::from(levels) + u16::from(plain);
    let states = low(3 * u16::from(levels) + u16::from(plain) + 1);
    let mut table = of_three_letters(states, low(2 * u16::from(levels)), moves, begin(levels));
    put_each(&mut table, moves, |j| of_doubling(j, levels));
    table
}

// Move number j.
fn of_doubling(j: u16, levels: u8) -> [u8; 4] {
    let k = j / 4;
    let levels = u16::from(levels);
    if levels <= k {
        let from = low(j - levels);
        return [from, 0, 0, from.wrapping_add(1)];
    }
    let inner = begin(low(k));
    match j % 4 {
        0 => [low(3 * k), 2, low(2 * k), low(3 * k + 2)],
        1 => [low(3 * k), 2, low(2 * k + 1), low(3 * k + 3)],
        2 => [low(3 * k + 1), 1, low(2 * k), inner],
        _ => [low(3 * k + 2), 1, low(2 * k + 1), inner],
    }
}

// Where a level begins.
fn begin(level: u8) -> u8 {
    low((3 * u16::from(level)).saturating_sub(2))
}

// Open moves lead round the states 0 to 30, close moves round 31 to 63, and a plain move from 30 to 31. From 0 to 63 there are 30, 61, 92, .. opens and 32, 65,
// 98, .. closes. The first number that is both is 1022.
pub fn deep() -> [u8; LARGEST_AND_ONE] {
    let mut table = of_three_letters(64, 1, 65, 0);
    put_each(&mut table, 65, |k| of_deep(low(k)));
    table
}

// Move number k.
fn of_deep(k: u8) -> [u8; 4] {
    match k {
        0..30 => [k, 1, 0, k + 1],
        30 => [30, 0, 0, 31],
        31 => [30, 1, 0, 0],
        32..64 => [k - 1, 2, 0, k],
        _ => [63, 2, 0, 31],
    }
}

// As many bytes as L says.
pub fn whole(table: &[u8; LARGEST_AND_ONE]) -> &[u8] {
    let l = u16::from_be_bytes([table[0], table[1]]);
    lent::front(table, usize::from(l) + 2)
}

// The number of bytes after L.
pub fn length(states: u8, letters: u8, moves: u16) -> usize
    ensures { result < 1000000 }
{
    6 + usize::from(states) + usize::from(letters) + 4 * usize::from(moves)
}

// Every letter plain, no state initial or final, and the moves rise; L follows from the counts.
pub fn of_counts(states: u8, letters: u8, marks: u8, moves: u16) -> [u8; LARGEST_AND_ONE] {
    let mut table = [0u8; LARGEST_AND_ONE];
    let [.., l_high, l_low] = length(states, letters, moves).to_be_bytes();
    let [moves_high, moves_low] = moves.to_be_bytes();
    table[..8].copy_from_slice(&[
        l_high, l_low, 1, states, letters, marks, moves_high, moves_low,
    ]);
    // Move k goes from k / 64 to k % 64 by letter 0.
    put_each(&mut table, moves, |k| [low(k / 64), 0, 0, low(k % 64)]);
    table
}

// Puts so many moves into a table that has its counts, each by its number.
fn put_each<F: Fn(u16) -> [u8; 4]>(table: &mut [u8; LARGEST_AND_ONE], moves: u16, of: F)
    requires { F.IsAlwaysCallable of }
{
    for k in 0..moves {
        put(table, k, of(k));
    }
}

// Puts moves into a table that has its counts, the first of them as move 0.
fn put_all(table: &mut [u8; LARGEST_AND_ONE], moves: &[[u8; 4]]) {
    for (k, &bytes) in (0u16..).zip(moves) {
        put(table, k, bytes);
    }
}

// Puts move k into a table that has its counts, if there is room for it.
fn put(table: &mut [u8; LARGEST_AND_ONE], k: u16, bytes: [u8; 4]) {
    let place = length(table[STATES_PLACE], table[LETTERS_PLACE], k) + 2;
    if let Some(there) = table.get_mut(place..place + 4) {
        there.copy_from_slice(&bytes);
    }
}

fn low(n: u16) -> u8 {
    n.to_le_bytes()[0]
}
