// What the call of `nesting` answers: the sizes or the refusal, then the pairs, the levels, and for some what became of the scratch.
use crate::lent::UNTOUCHED;
use crate::tables::{EMPTY, NESTED_TWICE, TRIMMED, TWO_MARKS, VERSION_PLACE, WORKED};
use crate::{lent, lines, tables};
use nesting::{Nesting, Sizes};
use std::io;
use table::Refusal;

// Every digit is 1.
const FULL_ROW: u64 = u64::MAX;

#[inline(never)]
pub fn run(rt: &impl Print) -> io::Result<()> {
    sizes_of_scratch(rt)?;
    refusals(rt)?;
    whole_tables(rt)?;
    marks(rt)?;
    chain(rt)?;
    ring(rt)
}

fn sizes_of_scratch(rt: &impl Print) -> io::Result<()> {
    let worked = WORKED;
    show_lent(
        rt,
        "nesting of the worked table",
        &worked,
        &mut [UNTOUCHED; 16384],
    )?;
    show_lent(
        rt,
        "nesting with 16385 numbers of scratch",
        &worked,
        &mut [UNTOUCHED; 16385],
    )?;
    show_lent(
        rt,
        "nesting with 16383 numbers of scratch",
        &worked,
        &mut [UNTOUCHED; 16383],
    )
}

fn refusals(rt: &impl Print) -> io::Result<()> {
    let second = tables::worked_with(VERSION_PLACE, 2);
    show_lent(rt, "nesting of version 2", &second, &mut [UNTOUCHED; 16384])?;
    show_lent(
        rt,
        "nesting of version 2 with 1 number of scratch",
        &second,
        &mut [UNTOUCHED; 1],
    )
}

fn whole_tables(rt: &impl Print) -> io::Result<()> {
    show(rt, "nesting of the worked table trimmed", &TRIMMED)?;
    show(
        rt,
        "nesting by two marks between the same levels",
        &TWO_MARKS,
    )?;
    show(rt, "nesting of levels away from their ends", &NESTED_TWICE)?;
    show(rt, "nesting of no states", &EMPTY)
}

// An open move from 0 to 1 and a close move from 1 to 1. By the same mark they make (0,1), which would be a level.
fn marks(rt: &impl Print) -> io::Result<()> {
    let apart = tables::of_open_and_close([0, 0, 0, 1], [1, 1, 1, 1]);
    show(rt, "nesting of open mark 0 and close mark 1", &apart)?;
    let same = tables::of_open_and_close([0, 0, 1, 1], [1, 1, 1, 1]);
    show(rt, "nesting of open mark 1 and close mark 1", &same)
}

// Rows 0 and 63 stand for the 2080 pairs, and a row that is full is not written out.
fn chain(rt: &impl Print) -> io::Result<()> {
    lines::label(rt, "nesting of a chain of 64 states")?;
    let answer = nesting::pairs_and_levels(
        tables::whole(&tables::chain()),
        &mut [UNTOUCHED; 16384],
    );
    show_found(rt, &answer.found)?;
    if answer.pairs[0] == FULL_ROW {
        print!(rt; ", all from 0")?;
    }
    print!(rt; ",")?;
    show_row(rt, 63, answer.pairs[63])?;
    show_rows(rt, &answer.levels, " no level")?;
    lines::end(rt)
}

// As many pairs and levels as there can be.
fn ring(rt: &impl Print) -> io::Result<()> {
    lines::label(rt, "nesting of a ring of 64 states")?;
    let answer = nesting::pairs_and_levels(tables::whole(&tables::ring()), &mut [UNTOUCHED; 16384]);
    show_found(rt, &answer.found)?;
    show_full(rt, &answer.pairs, ", every pair")?;
    show_full(rt, &answer.levels, ", every level")?;
    lines::end(rt)
}

fn show(rt: &impl Print, label: &str, table: &[u8]) -> io::Result<()> {
    lines::label(rt, label)?;
    let answer = nesting::pairs_and_levels(table, &mut [UNTOUCHED; 16384]);
    show_answer(rt, &answer)?;
    lines::end(rt)
}

fn show_lent(rt: &impl Print, label: &str, table: &[u8], scratch: &mut [u16]) -> io::Result<()> {
    lines::label(rt, label)?;
    let answer = nesting::pairs_and_levels(table, scratch);
    show_answer(rt, &answer)?;
    lent::show_scratch(rt, lent::cleared(&answer.found), scratch)
}

// On a refusal, too, the rows are looked at: they must be zeros then.
fn show_answer(rt: &impl Print, answer: &Nesting) -> io::Result<()> {
    show_found(rt, &answer.found)?;
    show_rows(rt, &answer.pairs, " no pair")?;
    show_rows(rt, &answer.levels, " no level")
}

fn show_found(rt: &impl Print, found: &Result<Sizes, Refusal>) -> io::Result<()> {
    match found {
        Ok(sizes) => print!(rt; "pairs {}, levels {}", sizes.pairs, sizes.levels),
        Err(refusal) => print!(rt; "{refusal}"),
    }
}

// All that is held, also past the states of the table.
pub fn show_rows(rt: &impl Print, rows: &[u64; 64], none: &str) -> io::Result<()> {
    print!(rt; ",")?;
    for (j, &row) in rows.iter().enumerate() {
        show_row(rt, j, row)?;
    }
    if rows.iter().all(|&row| row == 0) {
        print!(rt; "{none}")?;
    }
    Ok(())
}

// The words, where every row is full.
fn show_full(rt: &impl Print, rows: &[u64; 64], words: &str) -> io::Result<()> {
    if rows.iter().all(|&row| row == FULL_ROW) {
        print!(rt; "{words}")?;
    }
    Ok(())
}

fn show_row(rt: &impl Print, j: usize, row: u64) -> io::Result<()> {
    // Place by place, and not by `ones_of` of relation, on which the calls that are shown here stand: what shows them shares nothing with them.
    for k in 0..64u32 {
        if row >> k & 1 == 1 {
            print!(rt; " ({j},{k})")?;
        }
    }
    Ok(())
}
