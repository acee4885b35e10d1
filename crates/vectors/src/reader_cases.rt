// What the calls of `reader` answer, and what became of the words that hold its state: as they were, or word 2 alone changed, or what they say now.
ghost use Rattle.std.specs.Prelude.{◌<◌};

use crate::lent::{OLD_WORD, STATE};
use crate::tables::{
    EMPTY, EXAMPLES, INITIAL_PLACE, KINDS_PLACE, NESTED_TWICE, ONE_STATE, TRIMMED, TWO_MARKS,
    VERSION_PLACE, WORKED,
};
use crate::{lent, lines, nesting_cases, tables};
use reader::Heard;
use std::io;
use table::Refusal;

// Places of the words: letters taken, the depth, whether stopped; then the blocks, each a letter and 64 rows.
const TAKEN: usize = 0;

const DEPTH: usize = 1;

const STOPPED: usize = 2;

const LEADING: usize = 3;

const BLOCK: usize = 65;

const ROWS_0: usize = 4;

const LETTER_1: usize = 68;

const ROWS_1: usize = 69;

const LETTER_2: usize = 133;

const LAST_WORD: usize = 2147;

// As many letters as a log may have.
const MOST: u64 = 16777215;

const LARGEST_WORD: u64 = u64::MAX;

// The last two digits of a row. They stand for pairs with state 62 and with state 63.
const DIGIT_62: u64 = 1 << 62;

const DIGIT_63: u64 = 1 << 63;

#[inline(never)]
pub fn run(rt: &impl Print) -> io::Result<()> {
    examples(rt, "worked table, log", &WORKED)?;
    examples(rt, "trimmed table, log", &TRIMMED)?;
    stops(rt)?;
    ends(rt)?;
    marks(rt)?;
    nested(rt)?;
    broken_words(rt)?;
    broken_rows(rt)?;
    several_faults(rt)?;
    zeros(rt)?;
    most_letters(rt)?;
    carried(rt)?;
    halves(rt)?;
    last_states(rt)?;
    sizes(rt)?;
    old_words(rt)?;
    further_words(rt)
}

fn examples(rt: &impl Print, words: &str, table: &[u8]) -> io::Result<()> {
    for log in EXAMPLES {
        show_log(rt, words, table, log)?;
    }
    Ok(())
}

// By a close letter, an open and a plain one. After a stop every letter gets it again; a letter that is refused is not taken.
fn stops(rt: &impl Print) -> io::Result<()> {
    show_log(rt, "worked table, log", &WORKED, &[1, 3, 2, 4, 1])?;
    show_log(rt, "worked table, log", &WORKED, &[1, 1, 2])?;
    show_log(rt, "worked table, log", &WORKED, &[0, 255])?;
    show_log(rt, "worked table, log", &WORKED, &[4, 1, 255, 2])
}

fn ends(rt: &impl Print) -> io::Result<()> {
    show_log(rt, "no states, log", &EMPTY, &[0, 255])?;
    show_log(
        rt,
        "no initial state, log",
        &tables::worked_with(INITIAL_PLACE, 0),
        &[1, 4],
    )?;
    show_log(rt, "one state at both ends, log", &ONE_STATE, &[])?;
    show_log(
        rt,
        "last of each, log",
        tables::whole(&tables::last_of_each()),
        &[30, 31, 32],
    )
}

// A close asks for a mark that the open letter of its own block pushed.
fn marks(rt: &impl Print) -> io::Result<()> {
    let first = tables::other_mark_first();
    show_log(
        rt,
        "another mark for each open letter, log",
        tables::whole(&first),
        &[0, 2],
    )?;
    show_log(
        rt,
        "another mark for each open letter, log",
        tables::whole(&first),
        &[1, 2],
    )?;
    show_log(rt, "one state, log", &ONE_STATE, &[4, 0, 3, 1, 1])?;
    show_log(rt, "two initial states, log", &TWO_MARKS, &[0, 1])?;
    show_log(
        rt,
        "levels away from their ends, log",
        &NESTED_TWICE,
        &[0, 1, 1, 2, 2, 0],
    )
}

fn nested(rt: &impl Print) -> io::Result<()> {
    lines::label(rt, "one state")?;
    let mut state = [0u64; STATE];
    begin(rt, &ONE_STATE, &mut state)?;
    lines::label(rt, "after 31 opens")?;
    repeated(&ONE_STATE, &mut state, 0, 31);
    letter(rt, &ONE_STATE, &mut state, 0)?;
    deepest(rt, &state)?;
    lines::label(rt, "after 31 closes")?;
    repeated(&ONE_STATE, &mut state, 1, 31);
    letter(rt, &ONE_STATE, &mut state, 1)?;
    show_both(rt, "back at depth 0", &ONE_STATE, &state, 1)
}

// At depth 32 an open letter is refused, also one that no move has. 11 and 12 come before that.
fn deepest(rt: &impl Print, state: &[u64; STATE]) -> io::Result<()> {
    show_both(rt, "at depth 32", &ONE_STATE, state, 0)?;
    show_both(rt, "at depth 32, with no move", &ONE_STATE, state, 2)?;
    show_both(rt, "at depth 32, a plain letter", &ONE_STATE, state, 3)?;
    show_both(rt, "at depth 32, past the letters", &ONE_STATE, state, 5)?;
    let mut last = *state;
    last[TAKEN] = MOST;
    show_both(rt, "at depth 32 and 16777215 letters", &ONE_STATE, &last, 0)
}

// Of the leading words and of the letters of blocks. At depth 0 the block above is left over, and at depth 2 the letter 0 of its block is not open.
fn broken_words(rt: &impl Print) -> io::Result<()> {
    show_changed(rt, "16777216 letters", TAKEN, 16777216)?;
    show_changed(rt, "2^64 - 1 letters", TAKEN, LARGEST_WORD)?;
    show_changed(rt, "depth 33", DEPTH, 33)?;
    show_changed(rt, "depth 2^64 - 1", DEPTH, LARGEST_WORD)?;
    show_changed(rt, "depth 0", DEPTH, 0)?;
    show_changed(rt, "depth 2", DEPTH, 2)?;
    show_changed(rt, "stopped 2", STOPPED, 2)?;
    show_changed(rt, "block 0 by 1", LEADING, 1)?;
    show_changed(rt, "block 1 by a plain letter", LETTER_1, 0)?;
    show_changed(rt, "block 1 by a close letter", LETTER_1, 2)?;
    show_changed(rt, "block 1 by 4", LETTER_1, 4)?;
    show_changed(rt, "block 1 by 257", LETTER_1, 257)
}

// Of pairs and of the words above the depth. Any pair of the table's states may be held.
fn broken_rows(rt: &impl Print) -> io::Result<()> {
    show_changed(rt, "all pairs of row 3", ROWS_0 + 3, 15)?;
    show_changed(rt, "a pair (4,0)", ROWS_0 + 4, 1)?;
    show_changed(rt, "a pair (63,0) in block 1", ROWS_1 + 63, 1)?;
    show_changed(rt, "a pair (0,4)", ROWS_0, 17)?;
    show_changed(rt, "a pair (1,63) in block 1", ROWS_1 + 1, DIGIT_63)?;
    show_changed(rt, "block 2 by 1 above the depth", LETTER_2, 1)?;
    show_changed(rt, "the last word not zero", LAST_WORD, 1)
}

// 14 comes before a stop and before 11, and a stop before 11.
fn several_faults(rt: &impl Print) -> io::Result<()> {
    let mut state = inside();
    state[STOPPED] = 1;
    show_both(rt, "stopped", &WORKED, &state, 4)?;
    state[LAST_WORD] = 1;
    show_both(rt, "stopped and the last word not zero", &WORKED, &state, 4)?;
    state[STOPPED] = 0;
    show_both(rt, "the last word not zero", &WORKED, &state, 4)
}

// Zeros are a state that holds no pair.
fn zeros(rt: &impl Print) -> io::Result<()> {
    show_both(rt, "zeros", &WORKED, &[0u64; STATE], 0)?;
    show_both(rt, "zeros", &WORKED, &[0u64; STATE], 4)?;
    show_both(rt, "zeros and no states", &EMPTY, &[0u64; STATE], 0)
}

// 12 comes after a stop and after 11, and before the stop of a close at depth 0.
fn most_letters(rt: &impl Print) -> io::Result<()> {
    let mut state = [0u64; STATE];
    state[ROWS_0] = 1;
    state[TAKEN] = MOST - 1;
    show_both(rt, "16777214 letters", &WORKED, &state, 1)?;
    show_both(rt, "16777214 letters", &WORKED, &state, 2)?;
    state[TAKEN] = MOST;
    show_both(rt, "16777215 letters", &WORKED, &state, 1)?;
    show_both(rt, "16777215 letters", &WORKED, &state, 2)?;
    show_both(rt, "16777215 letters", &WORKED, &state, 4)?;
    state[STOPPED] = 1;
    show_both(rt, "16777215 letters, stopped", &WORKED, &state, 4)
}

// Each call goes by its own table. The trimmed one has no state 3, and its state 2 is not final.
fn carried(rt: &impl Print) -> io::Result<()> {
    show_both(rt, "carried to the trimmed table", &TRIMMED, &inside(), 2)?;
    show_both(
        rt,
        "carried to where letter 1 closes",
        &tables::worked_with(KINDS_PLACE + 1, 2),
        &inside(),
        2,
    )?;
    let mut state = [0u64; STATE];
    state[ROWS_0] = 4;
    show_both(rt, "a pair (0,2)", &WORKED, &state, 2)?;
    show_both(rt, "a pair (0,2) on the trimmed table", &TRIMMED, &state, 2)
}

// Accepted are pairs at depth 0 with an initial first half. A close keeps the first halves of the block below.
fn halves(rt: &impl Print) -> io::Result<()> {
    show_changed(rt, "a pair (0,2) below depth 1", ROWS_0, 5)?;
    show_changed(rt, "a pair (0,2) at depth 1", ROWS_1, 4)?;
    let mut state = [0u64; STATE];
    state[ROWS_0 + 1] = 4;
    show_both(rt, "a pair (1,2)", &WORKED, &state, 2)?;
    let mut above = inside();
    above[ROWS_0] = 0;
    above[ROWS_0 + 3] = 1;
    show_both(rt, "a pair (3,0) below", &WORKED, &above, 2)
}

// With 64 states a row may have every digit, and with 63 all but the last.
fn last_states(rt: &impl Print) -> io::Result<()> {
    let chain = tables::chain();
    let mut state = [0u64; STATE];
    state[ROWS_0 + 63] = DIGIT_63;
    show_both(
        rt,
        "64 states, a pair (63,63)",
        tables::whole(&chain),
        &state,
        0,
    )?;
    state[ROWS_0] = DIGIT_62;
    show_both(
        rt,
        "64 states, a pair (0,62) too",
        tables::whole(&chain),
        &state,
        0,
    )?;
    let fewer = tables::of_counts(63, 1, 0, 0);
    show_both(
        rt,
        "63 states, a pair (63,63)",
        tables::whole(&fewer),
        &state,
        0,
    )?;
    state[ROWS_0 + 63] = 0;
    show_both(
        rt,
        "63 states, a pair (0,62)",
        tables::whole(&fewer),
        &state,
        0,
    )?;
    state[ROWS_0] = DIGIT_63;
    show_both(
        rt,
        "63 states, a pair (0,63)",
        tables::whole(&fewer),
        &state,
        0,
    )
}

fn sizes(rt: &impl Print) -> io::Result<()> {
    let second = tables::worked_with(VERSION_PLACE, 2);
    show_refused(rt, "2147 words", &WORKED, &mut [OLD_WORD; 2147])?;
    show_refused(
        rt,
        "version 2 and 2147 words",
        &second,
        &mut [OLD_WORD; 2147],
    )?;
    show_refused(
        rt,
        "version 2 and 2148 words",
        &second,
        &mut [OLD_WORD; 2148],
    )
}

// Begin does not ask what the words hold.
fn old_words(rt: &impl Print) -> io::Result<()> {
    lines::label(rt, "words that are no state")?;
    begin(rt, &WORKED, &mut [OLD_WORD; STATE])?;
    lines::label(rt, "words that are no state, no states")?;
    begin(rt, &EMPTY, &mut [OLD_WORD; STATE])
}

// Words past the state stay.
fn further_words(rt: &impl Print) -> io::Result<()> {
    let old = [OLD_WORD; 2150];
    let mut words = old;
    print!(rt; "2150 words: begin ")?;
    show_heard(rt, reader::begin(&WORKED, &mut words))?;
    show_words(rt, &old, &words)?;
    let begun = words;
    print!(rt; "2150 words: letter 1 ")?;
    show_heard(rt, reader::letter(&WORKED, &mut words, 1))?;
    show_words(rt, &begun, &words)
}

// Begin, each letter, finish.
fn show_log(rt: &impl Print, words: &str, table: &[u8], log: &[u8]) -> io::Result<()> {
    lines::log_label(rt, words, log)?;
    let mut state = [0u64; STATE];
    begin(rt, table, &mut state)?;
    for &number in log {
        lines::log_label(rt, words, log)?;
        letter(rt, table, &mut state, number)?;
    }
    lines::log_label(rt, words, log)?;
    finish(rt, table, &state)?;
    lines::end(rt)
}

// Finish and a letter on the same state.
fn show_both(
    rt: &impl Print,
    label: &str,
    table: &[u8],
    state: &[u64; STATE],
    number: u8,
) -> io::Result<()> {
    lines::label(rt, label)?;
    finish(rt, table, state)?;
    print!(rt; ", ")?;
    let mut next = *state;
    letter(rt, table, &mut next, number)
}

// The same after letter 1 on the worked table, with another word at one place.
fn show_changed(rt: &impl Print, label: &str, place: usize, word: u64) -> io::Result<()> {
    let mut state = inside();
    if let Some(changed) = state.get_mut(place) {
        *changed = word;
    }
    show_both(rt, label, &WORKED, &state, 0)
}

// The state after letter 1 on the worked table.
fn inside() -> [u64; STATE] {
    let mut state = [0u64; STATE];
    state[TAKEN] = 1;
    state[DEPTH] = 1;
    state[ROWS_0] = 1;
    state[LETTER_1] = 1;
    state[ROWS_1 + 1] = 2;
    state[ROWS_1 + 3] = 8;
    state
}

// The same letter so many times.
fn repeated(table: &[u8], state: &mut [u64; STATE], number: u8, times: usize) {
    for _ in 0..times {
        let _ = reader::letter(table, state, number);
    }
}

// Each call in words that it leaves as they were.
fn show_refused(rt: &impl Print, label: &str, table: &[u8], words: &mut [u64]) -> io::Result<()> {
    print!(rt; "{label}: begin ")?;
    show_heard(rt, reader::begin(table, words))?;
    print!(rt; ", letter 1 ")?;
    show_heard(rt, reader::letter(table, words, 1))?;
    print!(rt; ", finish ")?;
    show_heard(rt, reader::finish(table, words))?;
    show_words(rt, &[OLD_WORD; STATE], words)
}

fn begin(rt: &impl Print, table: &[u8], state: &mut [u64; STATE]) -> io::Result<()> {
    let before = *state;
    print!(rt; "begin ")?;
    show_heard(rt, reader::begin(table, state))?;
    show_words(rt, &before, state)
}

fn letter(rt: &impl Print, table: &[u8], state: &mut [u64; STATE], number: u8) -> io::Result<()> {
    let before = *state;
    print!(rt; "letter {number} ")?;
    show_heard(rt, reader::letter(table, state, number))?;
    show_words(rt, &before, state)
}

fn finish(rt: &impl Print, table: &[u8], state: &[u64; STATE]) -> io::Result<()> {
    print!(rt; "finish ")?;
    show_heard(rt, reader::finish(table, state))
}

pub fn show_heard(rt: &impl Print, answer: Result<Heard, Refusal>) -> io::Result<()> {
    match answer {
        Ok(Heard::Going) => print!(rt; "going"),
        Ok(Heard::Accepted) => print!(rt; "accepted"),
        Ok(Heard::Unfinished) => print!(rt; "unfinished"),
        Ok(Heard::Stop(place)) => print!(rt; "stop {place}"),
        Err(refusal) => print!(rt; "{refusal}"),
    }
}

// What became of the words, as the end of a line.
fn show_words(rt: &impl Print, before: &[u64], after: &[u64]) -> io::Result<()> {
    if lent::same(before, after, 0, after.len()) {
        lines::answer(rt, ", as it was")
    } else if is_stopped_alone(before, after) {
        lines::answer(rt, ", word 2 alone became 1")
    } else {
        show_state(rt, before, after)
    }
}

fn is_stopped_alone(before: &[u64], after: &[u64]) -> bool {
    lent::same(before, after, 0, STOPPED)
        && lent::same(before, after, LEADING, after.len())
        && lent::word(after, STOPPED) == 1
}

// The leading words and the block on top. The rest is in order if it is as it was below that block and past the state, and zeros above the block.
fn show_state(rt: &impl Print, before: &[u64], after: &[u64]) -> io::Result<()> {
    let word = |place| lent::word(after, place);
    print!(rt; ", words {} {} {}", word(TAKEN), word(DEPTH), word(STOPPED))?;
    let top = LEADING + BLOCK * ((word(DEPTH) % 33) as usize);
    print!(rt; ", by {}", word(top))?;
    nesting_cases::show_rows(rt, &rows_from(after, top + 1), " no pair")?;
    if lent::same(before, after, LEADING, top)
        && lent::same(&[], after, top + BLOCK, STATE)
        && lent::same(before, after, STATE, after.len())
    {
        lines::answer(rt, ", rest in order")
    } else {
        lines::answer(rt, ", rest out of order")
    }
}

fn rows_from(words: &[u64], place: usize) -> [u64; 64]
    requires { place < 1000000 }
{
    std::array::from_fn(|j| lent::word(words, place + j))
}
