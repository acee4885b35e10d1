// The calls of a capture program, in C's form: `capture_c` exports each to C under its name, `include/nomyugereka.h` declares them. Each is a library's call: tables,
// logs and outputs are bytes, scratch and the balance are numbers, a reader's state is lent as bytes and its words are copied out and back, and the answer is one
// number (specs/Numbers). None asks anything of its caller but what every slice and reference has: memory that is there, is as long as said, and is lent to nobody
// else meanwhile.
#![tactic(auto)]

ghost use Rattle.std.specs.Prelude.{ℕ, ◌<◌, ◌≤◌, List, length, ◌≡◌, Result};
ghost use Rattle.std.specs.Fn.{FnOnceReturnsAtMut};
ghost use Rattle.table.specs.Calls.{for_table, check_answer, write_answer, write_out};
ghost use Rattle.trim.specs.Calls.{trim_call};
ghost use Rattle.balance.specs.Calls.{balance_call};
ghost use Rattle.capture.specs.Calls.{exported_begin, exported_letter, exported_finish, exported_log, ExportedShortest, balance_after, lowest_after};
ghost use Rattle.capture.specs.Numbers.{kind_size, check_number, written_number, weighed_number};
ghost use Rattle.capture.specs.State.{state_bytes};
ghost use Rattle.capture.specs.Steps.{value_of, OnWords};
ghost use Rattle.reader.specs.Answers.{heard_as};
ghost use Rattle.reader.specs.declared.Heard.{Heard};
ghost use Rattle.table.specs.declared.refusal.Refusal.{Refusal};

use reader::Heard;
use table::Refusal;

mod answers;
mod state;

// Whether bytes are a table. The counts are not told: they stand in the bytes.
pub fn nomyugereka_check(table: &[u8]) -> u64
    ensures { result ≡ check_number (check_answer table.now) }
{
    match table::check(table) {
        Ok(_) => answers::GOOD,
        Err(refusal) => answers::refused(refusal),
    }
}

pub fn nomyugereka_write(table: &[u8], out: &mut [u8]) -> u64
    ensures value { result ≡ written_number (write_answer table.now out.old) }
    ensures out_after { out.new ≡ write_out table.now out.old }
{
    answers::written(table::write(table, out))
}

pub fn nomyugereka_trim(table: &[u8], scratch: &mut [u16], out: &mut [u8]) -> u64
    ensures value { result ≡ written_number (trim_call table.now scratch.old out.old).answer }
    ensures scratch_after { scratch.new ≡ (trim_call table.now scratch.old out.old).scratch }
    ensures out_after { out.new ≡ (trim_call table.now scratch.old out.old).out }
{
    answers::written(trim::trim(table, scratch, out))
}

// Which log is written is open where several are shortest; nothing else is: `exported_shortest_once` of proofs/CallLaws.
pub fn nomyugereka_shortest(table: &[u8], scratch: &mut [u16], out: &mut [u8]) -> u64
    ensures { ExportedShortest table.now scratch.old out.old result scratch.new out.new }
{
    match shortest::shortest(table, scratch, out).transpose() {
        Some(answer) => answers::written(answer),
        None => answers::NO_LOG,
    }
}

// Refused, it leaves the bytes, and past the words' own it leaves them always: `begin_keeps`, `begin_past` of proofs/CallLaws.
pub fn nomyugereka_begin(table: &[u8], state: &mut [u8]) -> u64
    ensures value { result ≡ (exported_begin table.now state.old).number }
    ensures state_after { state.new ≡ (exported_begin table.now state.old).bytes }
{
    on_words(table, state, |words| reader::begin(table, words))
}

// The same of a letter: `letter_keeps`, `letter_past`.
pub fn nomyugereka_letter(table: &[u8], state: &mut [u8], letter: u8) -> u64
    ensures value { result ≡ (exported_letter table.now state.old letter).number }
    ensures state_after { state.new ≡ (exported_letter table.now state.old letter).bytes }
{
    on_words(table, state, |words| reader::letter(table, words, letter))
}

// The state is only read.
pub fn nomyugereka_finish(table: &[u8], state: &[u8]) -> u64
    ensures { result ≡ (exported_finish table.now state.now).number }
{
    if state.len() < state::BYTES {
        return answers::too_short(table);
    }
    let words = state::words_in(state);
    answers::heard(reader::finish(table, &words))
}

// Where the bytes are left and where they are cleared: `log_keeps`, `log_clears` of proofs/CallLaws.
pub fn nomyugereka_read_log(table: &[u8], log: &[u8], state: &mut [u8]) -> u64
    ensures value { result ≡ (exported_log table.now log.now state.old).number }
    ensures state_after { state.new ≡ (exported_log table.now log.now state.old).bytes }
{
    on_words(table, state, |words| whole_log::read_log(table, log, words))
}

// What a call of the reader makes of the words that bytes hold, which it leaves in the bytes: its answer as a number, or the refusal of too few bytes.
fn on_words<F>(table: &[u8], state: &mut [u8], call: F) -> u64
where
    F: FnOnce(&mut [u64]) -> Result<Heard, Refusal>,
    requires callable { F.IsAlwaysCallable call }
    requires small { (words left : List ℕ) (heard : Result Heard Refusal) → FnOnceReturnsAtMut F.FnOnce call words heard left → value_of (heard_as heard) < kind_size }
    ensures few { length state.old < state_bytes → (result ≡ for_table table.now 7 (λ k. k)) × (state.new ≡ state.old) }
    ensures enough { state_bytes ≤ length state.old → OnWords F.FnOnce call state.old result state.new }
{
    if state.len() < state::BYTES {
        return answers::too_short(table);
    }
    let mut words = state::words_in(state);
    let heard = call(&mut words);
    state::put(state, &words);
    answers::heard(heard)
}

// Refused, it leaves both numbers.
pub fn nomyugereka_balance(table: &[u8], log: &[u8], balance: &mut i32, lowest: &mut i32) -> u64
    ensures value { result ≡ weighed_number (balance_call table.now log.now) }
    ensures balance_after { balance.new ≡ balance_after (balance_call table.now log.now) balance.old }
    ensures lowest_after { lowest.new ≡ lowest_after (balance_call table.now log.now) lowest.old }
{
    match balance::balance(table, log) {
        Ok(tally) => {
            *balance = tally.balance;
            *lowest = tally.lowest;
            answers::GOOD
        }
        Err(refusal) => answers::refused(refusal),
    }
}
