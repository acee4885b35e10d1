// What the call of `trim` answers: the trimmed table or the refusal, then what the rest of the output and the scratch hold.
use crate::lent::{UNTOUCHED, UNWRITTEN};
use crate::lines::Hex;
use crate::tables::{
    EMPTY, FINAL_PLACE, NESTED_TWICE, TO, TWO_ENDS, TWO_MARKS, UNUSED_LETTER, VERSION_PLACE, WORKED,
};
use crate::{lent, lines, table_cases, tables};
use std::io;
use table::Refusal;

// A table with more bytes is not written out.
const SHORT: usize = 80;

#[inline(never)]
pub fn run(rt: &impl Print) -> io::Result<()> {
    sizes_of_output(rt)?;
    refusals(rt)?;
    whole_tables(rt)?;
    aside(rt)?;
    last_of_each(rt)?;
    nothing_accepted(rt)?;
    plain_moves(rt)?;
    one_state_more(rt)?;
    marks(rt)
}

fn sizes_of_output(rt: &impl Print) -> io::Result<()> {
    show_lent(
        rt,
        "trim of the worked table into 27 bytes",
        &WORKED,
        &mut [UNTOUCHED; 16385],
        &mut [UNWRITTEN; 27],
    )?;
    show_lent(
        rt,
        "trim of the worked table into 26 bytes",
        &WORKED,
        &mut [UNTOUCHED; 16385],
        &mut [UNWRITTEN; 26],
    )
}

fn refusals(rt: &impl Print) -> io::Result<()> {
    let second = tables::worked_with(VERSION_PLACE, 2);
    show_lent(
        rt,
        "trim of version 2 with 16383 numbers of scratch",
        &second,
        &mut [UNTOUCHED; 16383],
        &mut [UNWRITTEN; 27],
    )?;
    show_lent(
        rt,
        "trim with 16383 numbers of scratch",
        &WORKED,
        &mut [UNTOUCHED; 16383],
        &mut [UNWRITTEN; 26],
    )
}

fn whole_tables(rt: &impl Print) -> io::Result<()> {
    show(rt, "trim of the worked table", &WORKED)?;
    show(rt, "trim by two marks between the same levels", &TWO_MARKS)?;
    show(rt, "trim of levels away from their ends", &NESTED_TWICE)?;
    show(rt, "trim of levels with a common end", &TWO_ENDS)?;
    show(rt, "trim with a letter that no move has", &UNUSED_LETTER)
}

// State 3 has a way to the end of the level (0,2) and none from its start, and a way from the start of the level (1,1) and none to its end.
fn aside(rt: &impl Print) -> io::Result<()> {
    let mut table = tables::changed(4, TO, 2);
    table[27] = 3;
    show(rt, "trim with a state aside of both levels", &table)
}

fn last_of_each(rt: &impl Print) -> io::Result<()> {
    let table = tables::last_of_each();
    show(rt, "trim of the last state and mark", tables::whole(&table))
}

fn nothing_accepted(rt: &impl Print) -> io::Result<()> {
    show(rt, "trim of no states", &EMPTY)?;
    show(
        rt,
        "trim of no final state",
        &tables::worked_with(FINAL_PLACE, 0),
    )
}

// Each state is initial and final and has a move to each: n states make n^3 trimmed states, and a move n^2 trimmed moves.
// Where the first alone is initial, they make n^2 trimmed states, and a move n trimmed moves.
fn plain_moves(rt: &impl Print) -> io::Result<()> {
    show_plain(rt, "trim of four states alike", 4, 1, 16, 3)?;
    show_plain(rt, "trim of five states alike", 5, 1, 25, 3)?;
    show_plain(rt, "trim to 1024 moves", 4, 4, 64, 3)?;
    show_plain(rt, "trim to 1025 moves", 5, 9, 205, 2)
}

// Four states alike, and one with no move.
fn one_state_more(rt: &impl Print) -> io::Result<()> {
    let mut table = tables::of_all_moves(5, 1, 1, 4, 16, 3);
    table[13] = 3;
    show_lent(
        rt,
        "trim to 65 states into 0 bytes",
        lent::front(&table, 78),
        &mut [UNTOUCHED; 16385],
        &mut [UNWRITTEN; 0],
    )
}

// Each mark is pushed on the way from any state to state 0, and popped there.
fn marks(rt: &impl Print) -> io::Result<()> {
    show_marks(rt, "trim to 64 marks", 4, 16, 128)?;
    show_marks(rt, "trim to 65 marks", 5, 13, 130)
}

fn show_plain(
    rt: &impl Print,
    label: &str,
    states: u8,
    letters: u8,
    moves: u16,
    others: u8,
) -> io::Result<()> {
    let table = tables::of_all_moves(states, letters, 1, states, moves, others);
    let size = tables::length(states, letters, moves) + 2;
    show(rt, label, lent::front(&table, size))
}

fn show_marks(rt: &impl Print, label: &str, states: u8, marks: u8, moves: u16) -> io::Result<()> {
    let mut table = tables::of_all_moves(states, 2, marks, 1, moves, 3);
    table[8] = 1;
    table[9] = 2;
    let size = tables::length(states, 2, moves) + 2;
    show(rt, label, lent::front(&table, size))
}

fn show(rt: &impl Print, label: &str, table: &[u8]) -> io::Result<()> {
    show_lent(
        rt,
        label,
        table,
        &mut [UNTOUCHED; 16384],
        &mut [UNWRITTEN; 4200],
    )
}

fn show_lent(
    rt: &impl Print,
    label: &str,
    table: &[u8],
    scratch: &mut [u16],
    out: &mut [u8],
) -> io::Result<()> {
    lines::label(rt, label)?;
    let answer = trim::trim(table, scratch, out);
    show_answer(rt, answer, out)?;
    lent::show_scratch(rt, lent::cleared(&answer), scratch)
}

fn show_answer(rt: &impl Print, answer: Result<usize, Refusal>, out: &[u8]) -> io::Result<()> {
    match answer {
        Ok(bytes) => {
            show_trimmed(rt, lent::front(out, bytes))?;
            lent::show_rest(rt, out, bytes)
        }
        Err(refusal) => {
            print!(rt; "{refusal}")?;
            lent::show_rest(rt, out, 0)
        }
    }
}

fn show_trimmed(rt: &impl Print, bytes: &[u8]) -> io::Result<()> {
    let size = bytes.len();
    if size <= SHORT {
        print!(rt; "{size} bytes {}", Hex(bytes))
    } else {
        print!(rt; "{size} bytes, ")?;
        table_cases::show_checked(rt, bytes)?;
        print!(rt; ", sum {}", checksum(bytes))
    }
}

// Differs where a single byte differs, or where two that are near each other are exchanged.
fn checksum(bytes: &[u8]) -> usize {
    bytes.iter().fold(0, |total, &byte| {
        total % 65521 * 256 + usize::from(byte)
    })
}
