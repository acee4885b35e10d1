// What is lent to a call, scratch, an output and a reader's words: what they hold before, and whether they hold afterwards what they must.
use crate::lines;
use std::io;
use table::Refusal;

// What scratch holds before it is lent.
pub const UNTOUCHED: u16 = 7;

// What an output holds before it is lent.
pub const UNWRITTEN: u8 = 0xAA;

// What a reader's words hold before they are lent, where they are not zeros.
pub const OLD_WORD: u64 = 7;

// How many numbers of scratch document 01 has cleared.
pub const CLEARED: usize = 16384;

// How many words a reader's state has in document 01.
pub const STATE: usize = 2148;

// How many zeros a call leaves in scratch, by its answer: none where it refuses before it uses scratch.
pub fn cleared<T>(answer: &Result<T, Refusal>) -> usize {
    match answer {
        Ok(_) | Err(Refusal::Large | Refusal::Room | Refusal::Long) => CLEARED,
        Err(_) => 0,
    }
}

// What became of scratch, as the end of a line.
pub fn show_scratch(rt: &impl Print, zeros: usize, scratch: &[u16]) -> io::Result<()> {
    if !holds_zeros(scratch, zeros) {
        lines::answer(rt, ", other scratch")
    } else if zeros == 0 {
        lines::answer(rt, ", scratch as it was")
    } else {
        lines::answer(rt, ", 16384 numbers cleared")
    }
}

// Whether so many numbers are cleared and all after them are as they were.
fn holds_zeros(scratch: &[u16], zeros: usize) -> bool {
    match scratch.split_at_checked(zeros) {
        Some((cleared, rest)) => {
            cleared.iter().all(|&n| n == 0) && rest.iter().all(|&n| n == UNTOUCHED)
        }
        None => false,
    }
}

// What became of an output past its first bytes.
pub fn show_rest(rt: &impl Print, out: &[u8], bytes: usize) -> io::Result<()> {
    if holds(out, front(out, bytes)) {
        print!(rt; ", then as it was")
    } else {
        print!(rt; ", then other")
    }
}

// Whether all of out is these bytes and then bytes as they were.
pub fn holds(out: &[u8], bytes: &[u8]) -> bool {
    match out.strip_prefix(bytes) {
        Some(rest) => rest.iter().all(|&byte| byte == UNWRITTEN),
        None => false,
    }
}

// The first bytes of a slice, or all of a shorter one.
pub fn front(bytes: &[u8], size: usize) -> &[u8] {
    bytes.get(..size).unwrap_or(bytes)
}

// Whether the words from one place to before another are the same. Past its end a slice counts as zeros, so the empty slice stands for zeros.
pub fn same(before: &[u64], after: &[u64], from: usize, to: usize) -> bool {
    after
        .iter()
        .enumerate()
        .take(to)
        .skip(from)
        .all(|(i, &next)| next == word(before, i))
}

// A word, or 0 past the end.
pub fn word(words: &[u64], i: usize) -> u64 {
    words.get(i).copied().unwrap_or(0)
}
