// What the call of `balance` answers: the balance, and then the lowest of all prefixes.
use crate::tables::{EMPTY, VERSION_PLACE, WORKED};
use crate::{lines, tables};
use balance::Tally;
use std::io;

#[inline(never)]
pub fn run(rt: &impl Print) -> io::Result<()> {
    around_zero(rt)?;
    far_from_zero(rt)?;
    past_letters(rt)?;
    no_table(rt)
}

// P10 of document 01, the empty log, and logs that stay near 0.
const AROUND_ZERO: [&[u8]; 8] = [
    &[2, 1],
    &[],
    &[0, 3],
    &[1, 2],
    &[1, 1, 2, 0],
    &[1, 1, 2, 2, 2],
    &[2, 2, 1],
    &[1, 2, 2, 2, 1, 3, 1, 1, 2, 2, 1, 1],
];

fn around_zero(rt: &impl Print) -> io::Result<()> {
    for log in AROUND_ZERO {
        show(rt, "worked table, balance", &WORKED, log)?;
    }
    Ok(())
}

fn far_from_zero(rt: &impl Print) -> io::Result<()> {
    lines::label(rt, "4096 opens, balance")?;
    weigh(rt, &WORKED, &[1; 4096])?;
    lines::label(rt, "4096 closes, balance")?;
    weigh(rt, &WORKED, &[2; 4096])
}

// The last letter, and letters after it.
fn past_letters(rt: &impl Print) -> io::Result<()> {
    let last = tables::last_of_each();
    show(rt, "worked table, balance", &WORKED, &[4])?;
    show(rt, "worked table, balance", &WORKED, &[1, 4, 2])?;
    show(rt, "worked table, balance", &WORKED, &[2, 2, 255])?;
    show(
        rt,
        "last of each, balance",
        tables::whole(&last),
        &[30, 31, 31],
    )?;
    show(rt, "last of each, balance", tables::whole(&last), &[31, 32])?;
    show(rt, "no letters, balance", &EMPTY, &[])?;
    show(rt, "no letters, balance", &EMPTY, &[0])
}

// The bytes come before the letters.
fn no_table(rt: &impl Print) -> io::Result<()> {
    let second = tables::worked_with(VERSION_PLACE, 2);
    show(rt, "version 2, balance", &second, &[1, 2])?;
    show(rt, "version 2, balance", &second, &[4])
}

fn show(rt: &impl Print, words: &str, table: &[u8], log: &[u8]) -> io::Result<()> {
    lines::log_label(rt, words, log)?;
    weigh(rt, table, log)
}

fn weigh(rt: &impl Print, table: &[u8], log: &[u8]) -> io::Result<()> {
    match balance::balance(table, log) {
        Ok(Tally { balance, lowest }) => println!(rt; "balance {balance}, lowest {lowest}"),
        Err(refusal) => println!(rt; "{refusal}"),
    }
}
