// What the call of `whole_log` answers, and what became of the words: as they were, or those of a state cleared.
use crate::lent::{OLD_WORD, STATE, UNTOUCHED, UNWRITTEN};
use crate::tables::{EMPTY, EXAMPLES, ONE_STATE, TRIMMED, VERSION_PLACE, WORKED};
use crate::{lent, lines, reader_cases, tables};
use std::io;

#[inline(never)]
pub fn run(rt: &impl Print) -> io::Result<()> {
    examples(rt, "worked table, whole log", &WORKED)?;
    examples(rt, "trimmed table, whole log", &TRIMMED)?;
    first_to_end_it(rt)?;
    long_logs(rt)?;
    sizes(rt)
}

fn examples(rt: &impl Print, words: &str, table: &[u8]) -> io::Result<()> {
    for log in EXAMPLES {
        show(rt, words, table, log)?;
    }
    Ok(())
}

// The first Stop or refusal; begin comes before the first letter.
fn first_to_end_it(rt: &impl Print) -> io::Result<()> {
    show(rt, "worked table, whole log", &WORKED, &[1, 4, 2])?;
    show(rt, "worked table, whole log", &WORKED, &[2, 4])?;
    show(rt, "no states, whole log", &EMPTY, &[])?;
    show(rt, "no states, whole log", &EMPTY, &[0])?;
    show(rt, "one state at both ends, whole log", &ONE_STATE, &[])
}

// An open at depth 32 is refused, when the last word of the state is in use; so is one in the log of 1022 levels.
fn long_logs(rt: &impl Print) -> io::Result<()> {
    show(rt, "one state, whole log", &ONE_STATE, &[0; 32])?;
    show(
        rt,
        "last of each, whole log",
        tables::whole(&tables::last_of_each()),
        &[30; 33],
    )?;
    show_shortest(
        rt,
        "whole log of 4096 letters",
        tables::whole(&tables::doubling(10, 4)),
    )?;
    show_shortest(
        rt,
        "whole log of 1022 levels",
        tables::whole(&tables::deep()),
    )
}

fn sizes(rt: &impl Print) -> io::Result<()> {
    let second = tables::worked_with(VERSION_PLACE, 2);
    show_lent(
        rt,
        "2150 words, whole log",
        &WORKED,
        &[1, 2],
        &mut [OLD_WORD; 2150],
    )?;
    show_lent(
        rt,
        "2147 words, whole log",
        &WORKED,
        &[1, 2],
        &mut [OLD_WORD; 2147],
    )?;
    show_lent(
        rt,
        "version 2 and 2147 words, whole log",
        &second,
        &[1, 2],
        &mut [OLD_WORD; 2147],
    )
}

fn show(rt: &impl Print, words: &str, table: &[u8], log: &[u8]) -> io::Result<()> {
    show_lent(rt, words, table, log, &mut [OLD_WORD; STATE])
}

fn show_lent(
    rt: &impl Print,
    words: &str,
    table: &[u8],
    log: &[u8],
    state: &mut [u64],
) -> io::Result<()> {
    lines::log_label(rt, words, log)?;
    read(rt, table, log, state)
}

// A shortest log of the table.
fn show_shortest(rt: &impl Print, label: &str, table: &[u8]) -> io::Result<()> {
    let mut log = [UNWRITTEN; 4096];
    lines::label(rt, label)?;
    match shortest::shortest(table, &mut [UNTOUCHED; 16384], &mut log) {
        Ok(Some(count)) => read(rt, table, lent::front(&log, count), &mut [OLD_WORD; STATE]),
        _ => lines::answer(rt, "none"),
    }
}

fn read(rt: &impl Print, table: &[u8], log: &[u8], state: &mut [u64]) -> io::Result<()> {
    reader_cases::show_heard(rt, whole_log::read_log(table, log, state))?;
    show_words(rt, &[OLD_WORD; 2150], state)
}

fn show_words(rt: &impl Print, before: &[u64], after: &[u64]) -> io::Result<()> {
    if lent::same(before, after, 0, after.len()) {
        lines::answer(rt, ", as it was")
    } else if lent::same(&[], after, 0, STATE) && lent::same(before, after, STATE, after.len()) {
        lines::answer(rt, ", 2148 words cleared")
    } else {
        lines::answer(rt, ", other words")
    }
}
