// Reads a table on standard input and prints what the libraries say of it, a line for each answer. Bytes that are no table get one line, the refusal.
#![tactic(auto)]

mod lines;

use nesting::SCRATCH;
use std::io;
use std::io::Read;
use table::{Refusal, Table};

// One byte more than the largest table has, so that an input that is too long shows. The room for it is fixed, since nothing here takes memory of its own.
const INPUT: usize = Table::BYTES + 1;

// The most letters of a log that is shown.
const LETTERS: usize = lengths::OVER - 1;

fn main(rt: HostRuntime) -> io::Result<()> {
    let mut input = [0u8; INPUT];
    let size = read_full(&mut rt.stdin(), &mut input)?;
    if size < INPUT {
        report(&rt, &input[..size])
    } else {
        lines::refused(&rt, Refusal::Length)
    }
}

// Reads until the room is full or the input ends, and tells how many bytes it has put there.
fn read_full<R: Read>(from: &mut R, room: &mut [u8]) -> io::Result<usize> {
    let mut rest = from.take(room.len() as u64);
    Ok(io::copy(&mut rest, &mut &mut *room)? as usize)
}

// After a good check the calls refuse with 8 for the trimmed table or 10 for the log, and with nothing else; the other refusals are printed alike.
// None of the three is inlined: what one lends from its stack is not to lie there while the next one runs.
fn report(rt: &impl Print, table: &[u8]) -> io::Result<()> {
    match table::check(table) {
        Ok(counts) => {
            lines::counts(rt, "table", counts)?;
            show_nesting(rt, table)?;
            show_trimmed(rt, table)?;
            show_shortest(rt, table)
        }
        Err(refusal) => lines::refused(rt, refusal),
    }
}

#[inline(never)]
fn show_nesting(rt: &impl Print, table: &[u8]) -> io::Result<()> {
    match nesting::pairs_and_levels(table, &mut [0u16; SCRATCH]).found {
        Ok(sizes) => {
            lines::count(rt, "pairs", sizes.pairs)?;
            lines::count(rt, "levels", sizes.levels)
        }
        Err(refusal) => {
            lines::refused_for(rt, "pairs", refusal)?;
            lines::refused_for(rt, "levels", refusal)
        }
    }
}

#[inline(never)]
fn show_trimmed(rt: &impl Print, table: &[u8]) -> io::Result<()> {
    let mut out = [0u8; Table::BYTES];
    match trimmed_counts(table, &mut out) {
        Ok(counts) => lines::counts(rt, "trimmed", counts),
        Err(refusal) => lines::refused_for(rt, "trimmed", refusal),
    }
}

// The counts of what the trimmer writes.
fn trimmed_counts(table: &[u8], out: &mut [u8; Table::BYTES]) -> Result<Table, Refusal> {
    let size = trim::trim(table, &mut [0u16; SCRATCH], out)?;
    table::check(front(out, size))
}

#[inline(never)]
fn show_shortest(rt: &impl Print, table: &[u8]) -> io::Result<()> {
    match shortest::shortest(table, &mut [0u16; SCRATCH], &mut [0u8; LETTERS]) {
        Ok(Some(letters)) => lines::count(rt, "shortest", letters),
        Ok(None) => lines::line(rt, "shortest none"),
        Err(Refusal::Long) => lines::count(rt, "shortest over", LETTERS),
        Err(refusal) => lines::refused_for(rt, "shortest", refusal),
    }
}

// The first bytes of a slice, or all of a shorter one. `vectors` has the same line: two programs share libraries only, and none of those is about slices.
fn front(bytes: &[u8], size: usize) -> &[u8] {
    bytes.get(..size).unwrap_or(bytes)
}
