// What the calls of `table` answer.
use crate::lent::UNWRITTEN;
use crate::tables::{
    FROM, KINDS_PLACE, LAST_KIND_PLACE, LAST_STATE_PLACE, LETTER, MARK, MOVES_PLACE, STATES_PLACE,
    TO, TRIMMED, VERSION_PLACE, WORKED,
};
use crate::{lent, lines, tables};
use std::io;
use table::{Kind, Refusal, Table};

#[inline(never)]
pub fn run(rt: &impl Print) -> io::Result<()> {
    fronts(rt)?;
    whole_tables(rt)?;
    lengths(rt)?;
    long_slices(rt)?;
    versions(rt)?;
    two_faults(rt)?;
    limits(rt)?;
    limits_of_moves(rt)?;
    lists(rt)?;
    ranges(rt)?;
    ranges_of_marks(rt)?;
    falling(rt)?;
    rising(rt)?;
    none_of_a_kind(rt)?;
    sizes_of_moves(rt)?;
    moves(rt)?;
    moves_of_seven_bytes(rt)?;
    letters(rt)?;
    states(rt)?;
    writes(rt)
}

fn fronts(rt: &impl Print) -> io::Result<()> {
    for size in 0..8 {
        show_front(rt, size)?;
    }
    Ok(())
}

fn whole_tables(rt: &impl Print) -> io::Result<()> {
    show(rt, "seven bytes and L = 5", &[0, 5, 1, 0, 0, 0, 0])?;
    show(rt, "the smallest table", &[0, 6, 1, 0, 0, 0, 0, 0])?;
    show(rt, "the worked table", &WORKED)?;
    show(rt, "the worked table trimmed", &TRIMMED)
}

fn lengths(rt: &impl Print) -> io::Result<()> {
    show(rt, "the last byte missing", lent::front(&WORKED, 35))?;
    show(rt, "one byte more", &tables::longer_worked(0x22))?;
    show(rt, "L one less", &tables::worked_with(1, 0x21))?;
    show(rt, "L one more", &tables::worked_with(1, 0x23))?;
    show(
        rt,
        "L and the slice one longer",
        &tables::longer_worked(0x23),
    )?;
    show(
        rt,
        "L and the slice one shorter",
        lent::front(&tables::worked_with(1, 0x21), 35),
    )
}

// L has two bytes, and a slice may have more than they can say.
fn long_slices(rt: &impl Print) -> io::Result<()> {
    let mut table = [0u8; 65544];
    table[1] = 6;
    table[VERSION_PLACE] = 1;
    show(rt, "65544 bytes and L = 6", &table)?;
    table[0] = 255;
    table[1] = 255;
    show(rt, "65537 bytes and L = 65535", lent::front(&table, 65537))
}

fn versions(rt: &impl Print) -> io::Result<()> {
    show(rt, "version 0 in eight bytes", &[0, 6, 0, 0, 0, 0, 0, 0])?;
    show(rt, "version 0", &tables::worked_with(VERSION_PLACE, 0))?;
    let mut second = tables::worked_with(VERSION_PLACE, 2);
    show(rt, "version 2", &second)?;
    show(
        rt,
        "version 2 and the last byte missing",
        lent::front(&second, 35),
    )?;
    second[STATES_PLACE] = 65;
    show(rt, "version 2 and 65 states", &second)
}

// The lower number is the answer.
fn two_faults(rt: &impl Print) -> io::Result<()> {
    show(
        rt,
        "65 states and an L that does not follow",
        &tables::worked_with(STATES_PLACE, 65),
    )?;
    let mut longer = tables::longer_worked(0x23);
    longer[KINDS_PLACE] = 3;
    show(rt, "an L that does not follow and a kind 3", &longer)?;
    let mut stray = tables::worked_with(KINDS_PLACE, 3);
    stray[MOVES_PLACE] = 4;
    show(rt, "a kind 3 and a move from state 4", &stray)
}

fn limits(rt: &impl Print) -> io::Result<()> {
    show_made(rt, "64 states", 64, 0, 0, 0)?;
    show_made(rt, "65 states", 65, 0, 0, 0)?;
    show_made(rt, "32 letters", 0, 32, 0, 0)?;
    show_made(rt, "33 letters", 0, 33, 0, 0)?;
    show_made(rt, "64 marks", 0, 0, 64, 0)?;
    show_made(rt, "65 marks", 0, 0, 65, 0)
}

fn limits_of_moves(rt: &impl Print) -> io::Result<()> {
    show_made(rt, "1024 moves", 64, 1, 0, 1024)?;
    show_made(rt, "1025 moves", 64, 1, 0, 1025)?;
    lines::label(rt, "the largest table")?;
    show_size(rt, Table::BYTES)?;
    let mut table = tables::of_counts(64, 32, 64, 1024);
    show(
        rt,
        "every count at its limit",
        lent::front(&table, Table::BYTES),
    )?;
    table[1] = 0x67;
    show(rt, "one byte more and L = 4199", &table)
}

fn lists(rt: &impl Print) -> io::Result<()> {
    show(rt, "a kind 2", &tables::worked_with(LAST_KIND_PLACE, 2))?;
    show(rt, "a kind 3", &tables::worked_with(LAST_KIND_PLACE, 3))?;
    show(rt, "a kind 255", &tables::worked_with(LAST_KIND_PLACE, 255))?;
    show(
        rt,
        "a state byte 3",
        &tables::worked_with(LAST_STATE_PLACE, 3),
    )?;
    show(
        rt,
        "a state byte 4",
        &tables::worked_with(LAST_STATE_PLACE, 4),
    )?;
    show(
        rt,
        "a state byte 255",
        &tables::worked_with(LAST_STATE_PLACE, 255),
    )
}

// The changed moves still rise.
fn ranges(rt: &impl Print) -> io::Result<()> {
    show_changed(rt, "a move from state 4", 4, FROM, 4)?;
    show_changed(rt, "a move by letter 4", 4, LETTER, 4)?;
    show_changed(rt, "a move to state 4", 4, TO, 4)
}

fn ranges_of_marks(rt: &impl Print) -> io::Result<()> {
    show_changed(rt, "a plain move's mark 1", 4, MARK, 1)?;
    show_changed(rt, "an open move's mark 2", 1, MARK, 2)?;
    show_changed(rt, "a close move's mark 1", 3, MARK, 1)?;
    show_changed(rt, "a close move's mark 2", 3, MARK, 2)
}

// Past the byte that decides, the bytes go the other way.
fn falling(rt: &impl Print) -> io::Result<()> {
    show_two(rt, "two equal moves", [1, 1, 1, 1], [1, 1, 1, 1])?;
    show_two(rt, "falling in the first byte", [1, 0, 0, 0], [0, 1, 1, 1])?;
    show_two(rt, "falling in the second byte", [1, 1, 0, 0], [1, 0, 1, 1])?;
    show_two(rt, "falling in the third byte", [1, 1, 1, 0], [1, 1, 0, 1])?;
    show_two(rt, "falling in the fourth byte", [1, 1, 1, 1], [1, 1, 1, 0])?;
    show_changed(rt, "the first move above the next", 0, FROM, 1)?;
    show_changed(rt, "the last move below the one before", 4, FROM, 0)
}

fn rising(rt: &impl Print) -> io::Result<()> {
    show_two(rt, "rising in the first byte", [0, 1, 1, 1], [1, 0, 0, 0])?;
    show_two(rt, "rising in the second byte", [1, 0, 1, 1], [1, 1, 0, 0])?;
    show_two(rt, "rising in the third byte", [1, 1, 0, 1], [1, 1, 1, 0])?;
    show_two(rt, "rising in the fourth byte", [1, 1, 1, 0], [1, 1, 1, 1])
}

fn none_of_a_kind(rt: &impl Print) -> io::Result<()> {
    show_made(rt, "a move and no state", 0, 1, 0, 1)?;
    show_made(rt, "a move and no letter", 1, 0, 0, 1)?;
    show_made(rt, "letters and marks and no state", 0, 3, 5, 0)?;
    show_made(rt, "plain moves and no mark", 2, 1, 0, 2)?;
    let mut opening = tables::of_counts(2, 1, 0, 1);
    opening[KINDS_PLACE] = 1;
    show(rt, "an open move and no mark", lent::front(&opening, 15))
}

fn sizes_of_moves(rt: &impl Print) -> io::Result<()> {
    lines::label(rt, "the moves of the worked table")?;
    show_size(rt, table::moves(&WORKED).len())?;
    lines::label(rt, "the moves of a refused table")?;
    show_size(rt, table::moves(&tables::changed(4, FROM, 4)).len())?;
    lines::label(rt, "the moves of the empty slice")?;
    show_size(rt, table::moves(lent::front(&WORKED, 0)).len())
}

// Four times 2^62 is 0 in 64 bits.
fn moves(rt: &impl Print) -> io::Result<()> {
    let worked = WORKED;
    let part = table::moves(&worked);
    for k in [0, 1, 2, 3, 4, 5, 4611686018427387904, usize::MAX] {
        show_move(rt, part, k)?;
    }
    Ok(())
}

fn moves_of_seven_bytes(rt: &impl Print) -> io::Result<()> {
    let worked = WORKED;
    let part = lent::front(table::moves(&worked), 7);
    for k in 0..2 {
        print!(rt; "in seven bytes, ")?;
        show_move(rt, part, k)?;
    }
    Ok(())
}

fn letters(rt: &impl Print) -> io::Result<()> {
    for letter in [0, 1, 2, 3, 4, usize::MAX] {
        show_letter(rt, letter)?;
    }
    Ok(())
}

fn states(rt: &impl Print) -> io::Result<()> {
    for state in [0, 1, 2, 3, 4, usize::MAX] {
        show_state(rt, &WORKED, state)?;
    }
    print!(rt; "its byte 3, ")?;
    show_state(rt, &tables::worked_with(LAST_STATE_PLACE, 3), 3)?;
    print!(rt; "after two states a byte 1, ")?;
    show_state(rt, &tables::of_two_moves([1, 1, 1, 0], [1, 1, 1, 1]), 2)
}

fn writes(rt: &impl Print) -> io::Result<()> {
    show_write(
        rt,
        "the worked table into 36 bytes",
        &WORKED,
        &mut [UNWRITTEN; 36],
    )?;
    show_write(
        rt,
        "the worked table into 40 bytes",
        &WORKED,
        &mut [UNWRITTEN; 40],
    )?;
    show_write(
        rt,
        "the worked table into 35 bytes",
        &WORKED,
        &mut [UNWRITTEN; 35],
    )?;
    show_write(
        rt,
        "the worked table into 0 bytes",
        &WORKED,
        &mut [UNWRITTEN; 0],
    )?;
    let second = tables::worked_with(VERSION_PLACE, 2);
    show_write(rt, "version 2 into 40 bytes", &second, &mut [UNWRITTEN; 40])?;
    show_write(rt, "version 2 into 0 bytes", &second, &mut [UNWRITTEN; 0])
}

fn show(rt: &impl Print, label: &str, table: &[u8]) -> io::Result<()> {
    lines::label(rt, label)?;
    show_answer(rt, table)
}

fn show_front(rt: &impl Print, size: usize) -> io::Result<()> {
    print!(rt; "the worked table cut to size {size}: ")?;
    show_answer(rt, lent::front(&WORKED, size))
}

fn show_answer(rt: &impl Print, table: &[u8]) -> io::Result<()> {
    show_checked(rt, table)?;
    lines::end(rt)
}

pub fn show_checked(rt: &impl Print, table: &[u8]) -> io::Result<()> {
    match table::check(table) {
        Ok(counts) => show_counts(rt, counts),
        Err(refusal) => print!(rt; "{refusal}"),
    }
}

fn show_counts(rt: &impl Print, counts: Table) -> io::Result<()> {
    let Table {
        states,
        letters,
        marks,
        moves,
    } = counts;
    print!(rt; "table {states} {letters} {marks} {moves}")
}

fn show_made(
    rt: &impl Print,
    label: &str,
    states: u8,
    letters: u8,
    marks: u8,
    moves: u16,
) -> io::Result<()> {
    let table = tables::of_counts(states, letters, marks, moves);
    let size = tables::length(states, letters, moves) + 2;
    show(rt, label, lent::front(&table, size))
}

fn show_changed(rt: &impl Print, label: &str, k: u8, field: u8, byte: u8) -> io::Result<()> {
    show(rt, label, &tables::changed(k, field, byte))
}

fn show_two(rt: &impl Print, label: &str, first: [u8; 4], second: [u8; 4]) -> io::Result<()> {
    show(rt, label, &tables::of_two_moves(first, second))
}

fn show_size(rt: &impl Print, bytes: usize) -> io::Result<()> {
    println!(rt; "{bytes} bytes")
}

fn show_move(rt: &impl Print, part: &[u8], k: usize) -> io::Result<()> {
    match table::move_at(part, k) {
        Some(found) => println!(rt;
            "move {k}: {} {} {} {}",
            found.from, found.letter, found.mark, found.to
        ),
        None => println!(rt; "move {k}: none"),
    }
}

fn show_letter(rt: &impl Print, letter: usize) -> io::Result<()> {
    print!(rt; "letter {letter}: ")?;
    match table::kind_at(&WORKED, letter) {
        Some(Kind::Plain) => lines::answer(rt, "plain"),
        Some(Kind::Open) => lines::answer(rt, "open"),
        Some(Kind::Close) => lines::answer(rt, "close"),
        None => lines::answer(rt, "none"),
    }
}

fn show_state(rt: &impl Print, table: &[u8], state: usize) -> io::Result<()> {
    let initial = not_unless(table::is_initial(table, state));
    let last = not_unless(table::is_final(table, state));
    println!(rt; "state {state}: {initial}initial, {last}final")
}

fn not_unless(is_so: bool) -> &'static str {
    if is_so { "" } else { "not " }
}

fn show_write(rt: &impl Print, label: &str, table: &[u8], out: &mut [u8]) -> io::Result<()> {
    lines::label(rt, label)?;
    let answer = table::write(table, out);
    show_written(rt, answer, table, out)
}

fn show_written(
    rt: &impl Print,
    answer: Result<usize, Refusal>,
    table: &[u8],
    out: &[u8],
) -> io::Result<()> {
    match answer {
        Ok(bytes) => {
            print!(rt; "wrote {bytes}")?;
            show_output(rt, lent::holds(out, table), ", the table, then as it was")
        }
        Err(refusal) => {
            print!(rt; "{refusal}")?;
            show_output(rt, lent::holds(out, &[]), ", as it was")
        }
    }
}

fn show_output(rt: &impl Print, is_so: bool, words: &str) -> io::Result<()> {
    lines::answer(rt, if is_so { words } else { ", other" })
}
