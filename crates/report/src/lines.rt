// The lines of the report.
use std::io;
use table::{Refusal, Table};

pub fn line(rt: &impl Print, words: &str) -> io::Result<()> {
    println!(rt; "{words}")
}

pub fn count(rt: &impl Print, name: &str, n: usize) -> io::Result<()> {
    println!(rt; "{name} {n}")
}

pub fn counts(rt: &impl Print, name: &str, table: Table) -> io::Result<()> {
    println!(rt;
        "{name} {} {} {} {}",
        table.states, table.letters, table.marks, table.moves
    )
}

pub fn refused(rt: &impl Print, refusal: Refusal) -> io::Result<()> {
    println!(rt; "{refusal}")
}

// Stands where the line of that name would.
pub fn refused_for(rt: &impl Print, name: &str, refusal: Refusal) -> io::Result<()> {
    println!(rt; "{name} {refusal}")
}
