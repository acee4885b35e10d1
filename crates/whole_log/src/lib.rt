// The check of a whole log: begin, each letter, finish, on one table.
//
// `read_log` is the call. The reader's own calls check their table and their words each time; here both are checked once, and what a table's letters do is found
// once for all of them.
#![tactic(auto, using(reader::proofs::Numbers::numbers))]

ghost use Rattle.std.specs.Prelude.{◌≤◌, length, ◌≡◌};
ghost use Rattle.table.specs.Logs.{longest_log};
ghost use Rattle.nesting.specs.Scratch.{KeptFrom};
ghost use Rattle.reader.specs.Answers.{heard_as};
ghost use Rattle.reader.specs.Layout.{state_size};
ghost use Rattle.whole_log.specs.Calls.{log_answer, log_call};

use pair_sets::Moves;
use reader::{Heard, layout};
use table::{Checked, Refusal};

// Reads a whole log on a table. The words are left as they were where the bytes are no table, the words too few or the log too long, and else are cleared.
// That a log is Accepted exactly if the table accepts it, unless 13 is given: `log_accepted_iff` of proofs/CallLaws.
pub fn read_log(table: &[u8], log: &[u8], state: &mut [u64]) -> Result<Heard, Refusal>
    ensures result_value { heard_as result ≡ (log_call table.now log.now state.old).answer }
    ensures state_after { state.new ≡ (log_call table.now log.now state.old).words }
{
    let table = Checked::new(table)?;
    if state.len() < layout::STATE {
        return Err(Refusal::Lent);
    }
    // This test has a name, since the edit on the longest log names its step.
    let is_too_long = log.len() > table::LONGEST_LOG;
    if is_too_long {
        return Err(Refusal::Letters);
    }
    let answer = read_all(&table, log, state);
    reader::clear(state, 0, layout::STATE);
    answer
}

// Begin, each letter, finish.
fn read_all(table: &Checked, log: &[u8], state: &mut [u64]) -> Result<Heard, Refusal>
    requires state_size_in_bounds { (state_size ≤ length state.old) × (length log.now ≤ longest_log) }
    ensures result_value { heard_as result ≡ log_answer table.now.bytes.now log.now state.old }
    ensures kept_from { KeptFrom state_size state.old state.new }
{
    let from = lengths::chain(table.bytes, lengths::FROM);
    let moves = Moves { table, from: &from };
    // Made last, as in `read` of the reader: before the chain, the compiled code copied the chain.
    let rows = pair_sets::by_letter(table.bytes);
    let mut head = reader::start(moves.table, state);
    if head.stopped {
        return Ok(head.heard());
    }
    for &letter in log {
        let letter = usize::from(letter);
        reader::letter_verdict(moves.table.bytes, moves.table.counts.letters, head, letter)?;
        head = reader::step(moves, &rows, state, head, letter);
        if head.stopped {
            return Ok(head.heard());
        }
    }
    Ok(reader::end(moves.table, state, head))
}
