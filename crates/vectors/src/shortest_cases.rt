// What the call of `shortest` answers: how many letters and which, or that there is no log, or the refusal; then what the rest of the output and the
// scratch hold.
use crate::lent::{UNTOUCHED, UNWRITTEN};
use crate::lines::Numbers;
use crate::tables::{EMPTY, FINAL_PLACE, INITIAL_PLACE, NESTED_TWICE, VERSION_PLACE, WORKED};
use crate::{lent, lines, replay, tables};
use std::io;
use table::Refusal;

// A log with more letters is not written out, unless a case says otherwise.
const SHORT: usize = 8;

// One state, initial and final.
const BOTH_ENDS: [u8; 9] = [0, 7, 1, 1, 0, 0, 0, 0, 3];

// A plain move from the final state to the initial one.
const BACKWARD: [u8; 15] = [0, 13, 1, 2, 1, 0, 0, 1, 0, 1, 2, 1, 0, 0, 0];

#[inline(never)]
pub fn run(rt: &impl Print) -> io::Result<()> {
    sizes_of_output(rt)?;
    refusals(rt)?;
    no_letters(rt)?;
    no_log(rt)?;
    levels(rt)?;
    nested_or_plain(rt)?;
    marks(rt)?;
    several_ends(rt)?;
    long_logs(rt)?;
    most_letters(rt)?;
    too_many_letters(rt)
}

fn sizes_of_output(rt: &impl Print) -> io::Result<()> {
    show_lent(
        rt,
        "shortest of the worked table into 5 bytes",
        &WORKED,
        &mut [UNTOUCHED; 16385],
        &mut [UNWRITTEN; 5],
    )?;
    show_lent(
        rt,
        "shortest of the worked table into 2 bytes",
        &WORKED,
        &mut [UNTOUCHED; 16385],
        &mut [UNWRITTEN; 2],
    )?;
    show_lent(
        rt,
        "shortest of the worked table into 1 byte",
        &WORKED,
        &mut [UNTOUCHED; 16385],
        &mut [UNWRITTEN; 1],
    )
}

fn refusals(rt: &impl Print) -> io::Result<()> {
    let second = tables::worked_with(VERSION_PLACE, 2);
    show_lent(
        rt,
        "shortest of version 2 with 16383 numbers of scratch",
        &second,
        &mut [UNTOUCHED; 16383],
        &mut [UNWRITTEN; 2],
    )?;
    show_lent(
        rt,
        "shortest with 16383 numbers of scratch",
        &WORKED,
        &mut [UNTOUCHED; 16383],
        &mut [UNWRITTEN; 1],
    )
}

fn no_letters(rt: &impl Print) -> io::Result<()> {
    show(rt, "shortest of a state at both ends", &BOTH_ENDS)?;
    show_into(
        rt,
        "shortest of a state at both ends into 0 bytes",
        &BOTH_ENDS,
        &mut [UNWRITTEN; 0],
    )
}

fn no_log(rt: &impl Print) -> io::Result<()> {
    show(rt, "shortest of no states", &EMPTY)?;
    show(
        rt,
        "shortest of no initial state",
        &tables::worked_with(INITIAL_PLACE, 0),
    )?;
    show(
        rt,
        "shortest of no final state",
        &tables::worked_with(FINAL_PLACE, 0),
    )?;
    show(
        rt,
        "shortest from the final to the initial state",
        &BACKWARD,
    )?;
    show_lent(
        rt,
        "shortest from the final to the initial state into 0 bytes",
        &BACKWARD,
        &mut [UNTOUCHED; 16385],
        &mut [UNWRITTEN; 0],
    )
}

fn levels(rt: &impl Print) -> io::Result<()> {
    show(rt, "shortest of levels away from their ends", &NESTED_TWICE)?;
    show(
        rt,
        "shortest where the second open move leads nearer",
        tables::whole(&tables::second_open_nearer()),
    )
}

// The plain way has 3, 2 and 2 letters, the nested one 2, 3 and 2. Which of two shortest logs comes is left open, so the last one is not written out.
fn nested_or_plain(rt: &impl Print) -> io::Result<()> {
    let nested = tables::plain_and_nested([1, 0, 0, 2], [2, 0, 0, 4], [3, 2, 0, 4]);
    show(
        rt,
        "shortest where nested is shorter",
        tables::whole(&nested),
    )?;
    let plain = tables::plain_and_nested([1, 0, 0, 4], [2, 2, 0, 4], [3, 0, 0, 2]);
    show(rt, "shortest where nested is longer", tables::whole(&plain))?;
    let either = tables::plain_and_nested([1, 0, 0, 4], [2, 0, 0, 4], [3, 2, 0, 4]);
    show_up_to(
        rt,
        "shortest where nested is as long",
        tables::whole(&either),
        &mut [UNTOUCHED; 16384],
        &mut [UNWRITTEN; 4097],
        0,
    )
}

fn marks(rt: &impl Print) -> io::Result<()> {
    let apart = tables::of_open_and_close([0, 0, 0, 1], [1, 1, 1, 1]);
    show(rt, "shortest of open mark 0 and close mark 1", &apart)?;
    let same = tables::of_open_and_close([0, 0, 1, 1], [1, 1, 1, 1]);
    show(rt, "shortest of open mark 1 and close mark 1", &same)?;
    show(
        rt,
        "shortest where another mark is popped sooner",
        tables::whole(&tables::other_mark_sooner()),
    )?;
    show(
        rt,
        "shortest where another mark is pushed first",
        tables::whole(&tables::other_mark_first()),
    )
}

// States 0 and 60 are initial, 62 and 63 final.
fn several_ends(rt: &impl Print) -> io::Result<()> {
    let mut table = tables::chain();
    table[69] = 1;
    table[71] = 2;
    show(
        rt,
        "shortest of a chain with several ends",
        tables::whole(&table),
    )
}

fn long_logs(rt: &impl Print) -> io::Result<()> {
    show(
        rt,
        "shortest of a chain of 64 states",
        tables::whole(&tables::chain()),
    )?;
    show(
        rt,
        "shortest of 1022 levels",
        tables::whole(&tables::deep()),
    )
}

// 4 (2^10 - 1) letters, and 4.
fn most_letters(rt: &impl Print) -> io::Result<()> {
    let table = tables::doubling(10, 4);
    show_into(
        rt,
        "shortest of 4096 letters into 4096 bytes",
        tables::whole(&table),
        &mut [UNWRITTEN; 4096],
    )?;
    show_into(
        rt,
        "shortest of 4096 letters into 4095 bytes",
        tables::whole(&table),
        &mut [UNWRITTEN; 4095],
    )
}

// 4 (2^10 - 1) letters, and 5; then 4 (2^18 - 1), and 4.
fn too_many_letters(rt: &impl Print) -> io::Result<()> {
    let table = tables::doubling(10, 5);
    show(rt, "shortest of 4097 letters", tables::whole(&table))?;
    show_lent(
        rt,
        "shortest of 4097 letters into 0 bytes",
        tables::whole(&table),
        &mut [UNTOUCHED; 16385],
        &mut [UNWRITTEN; 0],
    )?;
    show(
        rt,
        "shortest of 1048576 letters",
        tables::whole(&tables::doubling(18, 4)),
    )
}

fn show(rt: &impl Print, label: &str, table: &[u8]) -> io::Result<()> {
    show_into(rt, label, table, &mut [UNWRITTEN; 4097])
}

fn show_into(rt: &impl Print, label: &str, table: &[u8], out: &mut [u8]) -> io::Result<()> {
    show_lent(rt, label, table, &mut [UNTOUCHED; 16384], out)
}

fn show_lent(
    rt: &impl Print,
    label: &str,
    table: &[u8],
    scratch: &mut [u16],
    out: &mut [u8],
) -> io::Result<()> {
    show_up_to(rt, label, table, scratch, out, SHORT)
}

// A log with more than `most` letters is not written out, but replayed.
fn show_up_to(
    rt: &impl Print,
    label: &str,
    table: &[u8],
    scratch: &mut [u16],
    out: &mut [u8],
    most: usize,
) -> io::Result<()> {
    lines::label(rt, label)?;
    let answer = shortest::shortest(table, scratch, out);
    show_answer(rt, answer, table, out, most)?;
    lent::show_scratch(rt, lent::cleared(&answer), scratch)
}

fn show_answer(
    rt: &impl Print,
    answer: Result<Option<usize>, Refusal>,
    table: &[u8],
    out: &[u8],
    most: usize,
) -> io::Result<()> {
    match answer {
        Ok(Some(count)) => {
            show_log(rt, table, lent::front(out, count), most)?;
            lent::show_rest(rt, out, count)
        }
        Ok(None) => {
            print!(rt; "no log")?;
            lent::show_rest(rt, out, 0)
        }
        Err(refusal) => {
            print!(rt; "{refusal}")?;
            lent::show_rest(rt, out, 0)
        }
    }
}

fn show_log(rt: &impl Print, table: &[u8], log: &[u8], most: usize) -> io::Result<()> {
    print!(rt; "{} letters", log.len())?;
    if log.len() <= most {
        print!(rt; "{}", Numbers(log))
    } else if replay::is_accepted(table, log) {
        print!(rt; ", accepted")
    } else {
        print!(rt; ", not accepted")
    }
}
