// The reader: a log letter by letter, on a table, its state in words that are lent.
//
// `begin`, `letter` and `finish` are the calls. Each checks its table and its words. `start`, `letter_verdict`, `step` and `end` are the same without the checks, for
// `whole_log`, which checks once: they ask for what the checks tell. `clear` and `Head::heard` serve it too.
//
// Between calls the state is words. Inside, the three leading ones are a `Head`, which each step takes and hands back, and the blocks stay where they are lent.
#![tactic(auto, using(crate::proofs::Numbers::numbers))]

ghost use Rattle.std.specs.Prelude.{ℕ, suc, ◌+◌, ◌-◌, ◌^◌, ◌<◌, ◌≤◌, eqb, ltb, length, get_or, true, false, cond, List, ◌≡◌};
ghost use Rattle.vpa.specs.Automaton.{closing};
ghost use Rattle.vpa.specs.ReaderComputed.{going, stop_at, begin_state, finish_heard};
ghost use Rattle.vpa.specs.TableOnDisk.{letter_count, kind_in};
ghost use Rattle.table.specs.Answers.{number_told};
ghost use Rattle.table.specs.Bytes.{all?};
ghost use Rattle.table.specs.Layout.{moves_part, parse};
ghost use Rattle.table.specs.Meaning.{meant};
ghost use Rattle.table.specs.Logs.{longest_log};
ghost use Rattle.relation.specs.Relations.{IsRelation, RowsBelow, Joined};
ghost use Rattle.lengths.specs.Steps.{Chained};
ghost use Rattle.pair_sets.specs.Steps.{ByLetter};
ghost use Rattle.reader.specs.Answers.{heard_meant, heard_as};
ghost use Rattle.reader.specs.Calls.{begin_call, letter_call, letter_on, finish_call};
ghost use Rattle.reader.specs.Layout.{leading, deepest, state_size, taken_in, depth_in, stopped_in, block_place, rows_in, state_in, in_place};
ghost use Rattle.reader.specs.Refusals.{leading?, letter_word?, rows?, block?, legal?, letter_verdict};
ghost use Rattle.reader.specs.Steps.{state_with, Ready, Stepped, Written, head_words, letter_rows, OpenedRows, ClosedRows, Extends, Opens, Closes, Settled};

use pair_sets::Moves;
use table::{Checked, Kind, Refusal};

pub mod layout;

// What a reader answers. Stop has its place: how many letters were taken until then.
#[derive(Clone, Copy, Debug, PartialEq, Eq)]
pub enum Heard {
    Going,
    Accepted,
    Unfinished,
    Stop(usize),
}

// The leading words: letters taken, depth, whether stopped.
#[derive(Clone, Copy, Debug, PartialEq, Eq)]
pub struct Head {
    pub taken: usize,
    pub depth: usize,
    pub stopped: bool,
}

impl Head {
    // A plain letter is taken.
    fn plain(self) -> Head
        requires { self.taken < longest_log }
        ensures { result ≡ record { taken = self.taken + 1; depth = self.depth; stopped = false } }
    {
        Head {
            taken: self.taken + 1,
            stopped: false,
            ..self
        }
    }

    // An open letter is taken. Not one function with `plain` and `close`, which would have to be told the new depth, and what keeps it in bounds.
    fn open(self) -> Head
        requires { (self.taken < longest_log) × (self.depth < deepest) }
        ensures { result ≡ record { taken = self.taken + 1; depth = self.depth + 1; stopped = false } }
    {
        Head {
            taken: self.taken + 1,
            depth: self.depth + 1,
            stopped: false,
        }
    }

    // A close letter is taken.
    fn close(self) -> Head
        requires { (self.taken < longest_log) × (0 < self.depth) }
        ensures { result ≡ record { taken = self.taken + 1; depth = self.depth - 1; stopped = false } }
    {
        Head {
            taken: self.taken + 1,
            depth: self.depth - 1,
            stopped: false,
        }
    }

    // No letter is taken any more.
    fn stop(self) -> Head
        ensures { result ≡ record { taken = self.taken; depth = self.depth; stopped = true } }
    {
        Head {
            stopped: true,
            ..self
        }
    }

    // The answer of begin and of a letter.
    pub fn heard(self) -> Heard
        ensures { heard_meant result ≡ cond self.stopped (stop_at self.taken) going }
    {
        if self.stopped {
            Heard::Stop(self.taken)
        } else {
            Heard::Going
        }
    }
}

// Begins to read a log on a table. It is stopped at once where no state is initial; on a trimmed table that is where no log is accepted at all:
// `begin_stops_iff` of proofs/Traces.
pub fn begin(table: &[u8], state: &mut [u64]) -> Result<Heard, Refusal>
    ensures result_value { heard_as result ≡ (begin_call table.now state.old).answer }
    ensures state_after { state.new ≡ (begin_call table.now state.old).words }
{
    let table = Checked::new(table)?;
    // The words need not stand for a state yet, so this is not `state_verdict`.
    if state.len() < layout::STATE {
        return Err(Refusal::Lent);
    }
    Ok(start(&table, state).heard())
}

// Reads one letter more. Refused, the words are as they were, and a stop changes word 2 alone: `letter_does` of proofs/CallLaws. On a trimmed table a letter stops
// the reader exactly where no accepted log goes on with it: `stops_iff` of proofs/Traces.
pub fn letter(table: &[u8], state: &mut [u64], letter: u8) -> Result<Heard, Refusal>
    ensures result_value { heard_as result ≡ (letter_call table.now state.old letter).answer }
    ensures state_after { state.new ≡ (letter_call table.now state.old letter).words }
{
    let table = Checked::new(table)?;
    state_verdict(&table, state)?;
    read(&table, state, usize::from(letter))
}

// Says whether the letters read so far are an accepted log: `trace_accepted_iff` of proofs/Traces.
pub fn finish(table: &[u8], state: &[u64]) -> Result<Heard, Refusal>
    ensures { heard_as result ≡ (finish_call table.now state.now).answer }
{
    let table = Checked::new(table)?;
    state_verdict(&table, state)?;
    Ok(end(&table, state, head_in(state)))
}

// Whether the words that were lent are enough and stand for a state on the table; if not, why.
fn state_verdict(table: &Checked, state: &[u64]) -> Result<(), Refusal>
    ensures { cond (ltb (length state.now) state_size) 7 (cond (legal? (meant table.now) state.now) 0 14) ≡ number_told result }
{
    if state.len() < layout::STATE {
        return Err(Refusal::Lent);
    }
    let memory = Memory { table, state };
    if !memory.is_legal() {
        return Err(Refusal::State);
    }
    Ok(())
}

// Writes the first state.
pub fn start(table: &Checked, state: &mut [u64]) -> Head
    requires { state_size ≤ length state.old }
    ensures value { result ≡ record { taken = 0; depth = 0; stopped = (begin_state (meant table.now)).stopped } }
    ensures state_after { state.new ≡ in_place (begin_state (meant table.now)) state.old }
{
    let pairs = pair_sets::begun(table);
    let head = Head {
        taken: 0,
        depth: 0,
        stopped: relation::is_empty(pairs),
    };
    clear(state, 0, layout::STATE);
    store(state, place(0) + 1, &pairs);
    put_head(state, head);
    head
}

// A letter on words that stand for a state.
fn read(table: &Checked, state: &mut [u64], letter: usize) -> Result<Heard, Refusal>
    requires state_size_in_bounds { (state_size ≤ length state.old) × (legal? (meant table.now) state.old ≡ true) }
    ensures result_value { heard_as result ≡ (letter_on (meant table.now) state.old (state_in state.old) letter).answer }
    ensures state_after { state.new ≡ (letter_on (meant table.now) state.old (state_in state.old) letter).words }
{
    let head = head_in(state);
    if head.stopped {
        return Ok(head.heard());
    }
    letter_verdict(table.bytes, table.counts.letters, head, letter)?;
    let from = lengths::chain(table.bytes, lengths::FROM);
    let moves = Moves { table, from: &from };
    // Made last: before the chain, the compiled code copied their 16 KB twice.
    let rows = pair_sets::by_letter(table.bytes);
    let next = step(moves, &rows, state, head, letter);
    put_head(state, next);
    Ok(next.heard())
}

// Whether a letter may be read; if not, why. It asks for bytes and for their number of letters by a clause, and not for a `Checked`, since it needs no more of a table.
pub fn letter_verdict(
    table: &[u8],
    letters: usize,
    head: Head,
    letter: usize,
) -> Result<(), Refusal>
    requires { letters ≡ letter_count (parse table.now) }
    ensures { (words : List ℕ) → letter_verdict (parse table.now) (state_with head words) letter ≡ number_told result }
{
    if letter >= letters {
        return Err(Refusal::Letter);
    }
    // The tests of the limits have names, since the edits on the limits change these lines and the names of the steps have to stay.
    let is_full = head.taken >= table::LONGEST_LOG;
    if is_full {
        return Err(Refusal::Letters);
    }
    let is_deepest = head.depth >= layout::DEEPEST;
    if is_deepest && nesting::is_of_kind(table, letter, Kind::Open) {
        return Err(Refusal::Depth);
    }
    Ok(())
}

// What a letter that is not refused makes of a running state. The words and the head stay two arguments: the words are lent, and the head is a new one each time.
// Nor is `&mut [u64]` in a struct that knows its length. Tried with `put_head`: its clause becomes `Written .. words.old.state.now words.new.state.now`, and from
// there the proof did not close to `state.new` of a function that was lent the words, as `begin`, `letter` and `start` are.
pub fn step(moves: Moves, rows: &[u64], state: &mut [u64], head: Head, letter: usize) -> Head
    requires by_letter { ByLetter (meant moves.table.now) rows.now }
    requires ready { Ready (meant moves.table.now) state.old head.depth × ((head.stopped ≡ false) × (letter_verdict (meant moves.table.now) (state_with head state.old) letter ≡ 0)) }
    ensures { Stepped (meant moves.entry.table.now) letter head state.old result state.new }
{
    let states = moves.table.counts.states;
    match table::kind_at(moves.table.bytes, letter) {
        Some(Kind::Plain) => plain(states, rows_of(rows, letter), state, head),
        Some(Kind::Open) => open(states, rows_of(rows, letter), state, head, letter),
        Some(Kind::Close) => close(moves, state, head, letter),
        // Never met: such a letter is refused.
        None => head.stop(),
    }
}

// The rows of a letter among those of all letters.
fn rows_of(rows: &[u64], letter: usize) -> &[u64]
    requires { (letter < 32) × (length rows.now ≡ 2048) }
    ensures { (result.now ≡ letter_rows rows.now letter) × (length result.now ≡ 64) }
{
    let row = layout::ROWS * letter;
    &rows[row..row + layout::ROWS]
}

// A plain letter, which has these rows, extends the pairs of the top block.
fn plain(states: usize, rows: &[u64], state: &mut [u64], head: Head) -> Head
    requires states_bound { (states ≤ 64) × ((head.depth ≤ deepest) × (head.taken < longest_log)) }
    requires state_size_in_bounds { (state_size ≤ length state.old) × (RowsBelow states (rows_in state.old head.depth) × (length rows.now ≡ 64)) }
    ensures { Settled (Joined (rows_in state.old head.depth) rows.now) (Extends head.depth) head head.depth state.old result state.new }
{
    let top = place(head.depth) + 1;
    let pairs = relation::join_lent(&state[top..top + layout::ROWS], rows, states);
    if relation::is_empty(pairs) {
        return head.stop();
    }
    store(state, top, &pairs);
    head.plain()
}

// A new block on top: each state that the letter, which has these rows, leads to from a second half, with itself.
fn open(states: usize, rows: &[u64], state: &mut [u64], head: Head, letter: usize) -> Head
    requires states_bound { (states ≤ 64) × ((head.depth < deepest) × (head.taken < longest_log)) }
    requires state_size_in_bounds { (state_size ≤ length state.old) × (RowsBelow states (rows_in state.old head.depth) × (length rows.now ≡ 64)) }
    ensures { Settled (OpenedRows (rows_in state.old head.depth) rows.now) (Opens letter head.depth) head (head.depth + 1) state.old result state.new }
{
    let top = place(head.depth) + 1;
    let halves = relation::together(&state[top..top + layout::ROWS], 0, states);
    let reached = relation::joined_row(halves, rows);
    if reached == 0 {
        return head.stop();
    }
    let next = place(head.depth + 1);
    state[next] = letter as u64;
    store(state, next + 1, &relation::diagonal(reached));
    head.open()
}

// A close letter joins the top block to the one below, and clears it.
fn close(moves: Moves, state: &mut [u64], head: Head, letter: usize) -> Head
    requires { Ready (meant moves.table.now) state.old head.depth × ((kind_in (meant moves.table.now) letter ≡ closing) × (head.taken < longest_log)) }
    ensures { Settled (ClosedRows (meant moves.entry.table.now) state.old head.depth letter) (Closes head.depth) head (head.depth - 1) state.old result state.new }
{
    if head.depth == 0 {
        return head.stop();
    }
    let top = place(head.depth);
    let below = place(head.depth - 1);
    let pairs = moves.joined(
        &state[below + 1..below + layout::BLOCK],
        state[top] as usize,
        &state[top + 1..top + layout::BLOCK],
        letter,
    );
    if relation::is_empty(pairs) {
        return head.stop();
    }
    store(state, below + 1, &pairs);
    clear(state, top, top + layout::BLOCK);
    head.close()
}

// Whether the letters of a state are an accepted log.
pub fn end(table: &Checked, state: &[u64], head: Head) -> Heard
    requires { Ready (meant table.now) state.now head.depth }
    ensures { heard_meant result ≡ finish_heard (meant table.now) (state_with head state.now) }
{
    if head.stopped {
        return Heard::Stop(head.taken);
    }
    let is_open = head.depth != 0;
    if is_open {
        return Heard::Unfinished;
    }
    let top = place(0) + 1;
    if pair_sets::is_accepting(table, &state[top..top + layout::ROWS]) {
        Heard::Accepted
    } else {
        Heard::Unfinished
    }
}

// Where the block of a depth begins.
fn place(depth: usize) -> usize
    requires { depth ≤ suc deepest }
    ensures { (block_place depth ≡ result) × (result ≤ state_size) }
{
    layout::LEADING + layout::BLOCK * depth
}

// The head in the leading words. No `From`, since it is asked of legal words alone.
fn head_in(state: &[u64]) -> Head
    requires { (state_size ≤ length state.now) × (leading? state.now ≡ true) }
    ensures { result ≡ record { taken = taken_in state.now; depth = depth_in state.now; stopped = eqb (stopped_in state.now) 1 } }
{
    Head {
        taken: state[0] as usize,
        depth: state[1] as usize,
        stopped: state[2] == 1,
    }
}

fn put_head(state: &mut [u64], head: Head)
    requires { state_size ≤ length state.old }
    ensures { Written 0 leading (λ j. get_or (head_words head) j 0) state.old state.new }
{
    state[0] = head.taken as u64;
    state[1] = head.depth as u64;
    state[2] = u64::from(head.stopped);
}

// Lays rows down in the words from a place on.
fn store(state: &mut [u64], at: usize, rows: &[u64; 64])
    requires { (at + 64 ≤ length state.old) × IsRelation rows.now }
    ensures { Written at 64 (λ j. get_or rows.now j 0) state.old state.new }
{
    state[at..at + layout::ROWS].copy_from_slice(rows);
}

// Zeros from one place to before another, whatever was there.
pub fn clear(state: &mut [u64], from: usize, to: usize)
    requires { (from ≤ to) × (to ≤ length state.old) }
    ensures { Written from (to - from) (λ j. 0) state.old state.new }
{
    state[from..to].fill(0);
}

// The words that were lent for a state, beside a table that was checked.
#[derive(Clone, Copy)]
struct Memory<'a> {
    table: &'a Checked<'a>,
    state: &'a [u64],
    ghost long: { state_size ≤ length state.now },
}

impl<'a> Memory<'a> {
    // Whether the words stand for a state on this table.
    fn is_legal(self) -> bool
        ensures { legal? (meant self.entry.table.now) self.entry.state.now ≡ result }
    {
        if !self.is_leading() {
            return false;
        }
        let depth = self.state[1] as usize;
        self.are_blocks(depth + 1)
            && relation::together(self.state, place(depth + 1), layout::STATE) == 0
    }

    fn is_leading(self) -> bool
        ensures { leading? self.entry.state.now ≡ result }
    {
        (self.state[0] <= table::LONGEST_LOG as u64)
            & (self.state[1] <= layout::DEEPEST as u64)
            & (self.state[2] <= 1)
    }

    // Whether the blocks below a depth are blocks on this table.
    fn are_blocks(self, depth: usize) -> bool
        requires { depth ≤ suc deepest }
        ensures { all? (block? (meant self.entry.table.now) self.entry.state.now) depth ≡ result }
    {
        (0..depth).all(|d| self.is_block(d))
    }

    // Whether the block of a depth is one on this table.
    fn is_block(self, depth: usize) -> bool
        requires { depth ≤ deepest }
        ensures { block? (meant self.entry.table.now) self.entry.state.now depth ≡ result }
    {
        let at = place(depth);
        is_letter_word(self.table.bytes, depth, self.state[at])
            && are_rows(
                &self.state[at + 1..at + layout::BLOCK],
                self.table.counts.states,
            )
    }
}

// Whether a block of this depth may have this letter.
fn is_letter_word(table: &[u8], depth: usize, letter: u64) -> bool
    ensures { letter_word? (parse table.now) depth letter ≡ result }
{
    if depth == 0 {
        letter == 0
    } else {
        nesting::is_of_kind(table, letter as usize, Kind::Open)
    }
}

// Whether rows name none but the first states.
fn are_rows(rows: &[u64], states: usize) -> bool
    requires { (length rows.now ≡ 64) × (states ≤ 64) }
    ensures { rows? states rows.now ≡ result }
{
    let named = relation::together(rows, 0, states);
    let past = relation::together(rows, states, layout::ROWS);
    is_below(named, states) && past == 0
}

// Whether no digit from number n on is 1. With n = 64 there is none; a shift has to be by less than the width.
fn is_below(x: u64, n: usize) -> bool
    requires { n ≤ 64 }
    ensures { ltb x (2 ^ n) ≡ result }
{
    n >= 64 || x >> n == 0
}
