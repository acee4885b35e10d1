// What a letter makes of a set of pairs of states, the pairs being rows in memory that was lent.
//
// A plain letter joins the pairs with the letter's own relation, and an open letter starts anew from their second halves; both need no more than the rows that
// `by_letter` makes, for all letters at once, and what the crate `relation` has. A close letter is `Moves::joined`. `begun` and `is_accepting` are for the first pairs and for
// the end. All ask for a table that was checked.
//
// The moves of one state are found by a chain of the crate `lengths`.
#![tactic(auto)]

ghost use Rattle.std.specs.Prelude.{◌<◌, ◌≤◌, T, length, ◌↔◌, ◌≡◌};
ghost use Rattle.vpa.specs.Automaton.{opening, closing};
ghost use Rattle.vpa.specs.Reader.{Started, Joined, FinishedBlock};
ghost use Rattle.vpa.specs.TableOnDisk.{kind_in, automaton};
ghost use Rattle.table.specs.Layout.{moves_part, parse};
ghost use Rattle.table.specs.Meaning.{meant};
ghost use Rattle.table.specs.Refusals.{verdict};
ghost use Rattle.relation.specs.Relations.{Holds, HoldsExactly, RowsBelow, DigitsExactly};
ghost use Rattle.lengths.specs.Along.{BeginsAlong};
ghost use Rattle.lengths.specs.Steps.{Chained};
ghost use Rattle.pair_sets.specs.Steps.{Leads, ByLetter, Closes, Linked, LinkedFrom, FromInitial, FinalAmong};

use lengths::Along;
use table::{Checked, Table};

// How many rows there are for all letters.
pub const LETTER_ROWS: usize = Table::STATES * Table::LETTERS;

// For each letter its relation, whatever the marks: row 64 a + p has the states to which letter a leads from p. One flat array, as `ByLetter` says it.
// Not in a struct with the table and the chain, since docs/DECISIONS.md names this function, which makes the rows of all letters for `read_log` and `letter`.
pub fn by_letter(table: &[u8]) -> [u64; LETTER_ROWS]
    requires { verdict table.now ≡ 0 }
    ensures { ByLetter (parse table.now) result }
{
    let mut rows = [0; LETTER_ROWS];
    for &[from, letter, _, to] in table::checked_moves(table).as_chunks::<4>().0 {
        rows[Table::STATES * usize::from(letter) + usize::from(from)] |= 1 << to;
    }
    rows
}

// The first pairs: each initial state with itself.
pub fn begun(table: &Checked) -> [u64; 64]
    ensures { HoldsExactly result (Started (automaton (meant table.now))) }
{
    let mut pairs = [0; 64];
    for (i, row) in pairs[..table.counts.states].iter_mut().enumerate() {
        *row = nesting::initial_digit(table.bytes, i);
    }
    pairs
}

// The moves of a table that was checked, chained by the states that they lead from. `lengths::Links` is the same with a second chain, which would have to be made
// for each letter, and which a reader has no use for.
#[derive(Clone, Copy)]
pub struct Moves<'a> {
    pub table: &'a Checked<'a>,
    pub from: &'a [usize; lengths::CHAIN],
    pub ghost chained: { Chained (moves_part table.now.bytes.now) 0 from.now },
}

impl<'a> Moves<'a> {
    // After a close letter: a pair below, the open letter from where it ends, a pair inside, and the close letter with the open's mark.
    pub fn joined(self, below: &[u64], opener: usize, inside: &[u64], closer: usize) -> [u64; 64]
        requires rows_below { RowsBelow self.table.now.counts.states below.now × (64 ≤ length inside.now) }
        requires opener_value { (kind_in (meant self.table.now) opener ≡ opening) × (kind_in (meant self.table.now) closer ≡ closing) }
        ensures { HoldsExactly result (Joined (automaton (meant self.entry.table.now)) (Holds below.now) opener (Holds inside.now) closer) }
    {
        let states = self.table.counts.states;
        let halves = relation::together(below, 0, states);
        let through = self.links(halves, opener, inside, closer);
        relation::join_lent(below, &through, states)
    }

    // The numbers of those that lead from p.
    fn leaving(self, p: usize) -> Along<'a>
        requires { p < 64 }
        ensures { BeginsAlong (moves_part self.entry.table.now.bytes.now) 0 p result.chain.now result.count result.next }
    {
        Along::new(self.from, p, self.table.moves().len() / 4)
    }

    // From each state that a digit of halves names: the states that the two letters around a pair lead to. The letters and the pairs inside are handed on as they
    // came: `linked` alone looks at them, and a struct for these three would be met nowhere else.
    fn links(self, halves: u64, opener: usize, inside: &[u64], closer: usize) -> [u64; 64]
        requires { 64 ≤ length inside.now }
        ensures { HoldsExactly result (LinkedFrom (meant self.entry.table.now) halves opener inside.now closer) }
    {
        let mut rows = [0; 64];
        for q in relation::ones_of(halves) {
            rows[q] = self.linked(q, opener, inside, closer);
        }
        rows
    }

    // Along the moves from q with the open letter.
    fn linked(self, q: usize, opener: usize, inside: &[u64], closer: usize) -> u64
        requires { (q < 64) × (64 ≤ length inside.now) }
        ensures { DigitsExactly result (Linked (meant self.entry.table.now) opener inside.now closer q) }
    {
        let part = self.table.moves();
        let quads = part.as_chunks::<4>().0;
        let mut y = 0;
        for k in self.leaving(q) {
            let [_, by, mark, to] = quads[k];
            let is_opener = usize::from(by) == opener;
            if is_opener {
                let ends = inside[usize::from(to)];
                y |= self.closed(ends, closer, usize::from(mark));
            }
        }
        y
    }

    // From the states that the digits of x name, along the moves with this letter and mark.
    fn closed(self, x: u64, letter: usize, mark: usize) -> u64
        ensures { DigitsExactly result (Closes (meant self.entry.table.now) x letter mark) }
    {
        let mut y = 0;
        for p in relation::ones_of(x) {
            y |= self.led(p, letter, mark);
        }
        y
    }

    // Where the moves from p with this letter and mark lead.
    fn led(self, p: usize, letter: usize, mark: usize) -> u64
        requires { p < 64 }
        ensures { DigitsExactly result (Leads (meant self.entry.table.now) p letter mark) }
    {
        let part = self.table.moves();
        let quads = part.as_chunks::<4>().0;
        let mut y = 0;
        for k in self.leaving(p) {
            let [_, by, with, _] = quads[k];
            let is_asked = (usize::from(by) == letter) & (usize::from(with) == mark);
            // Where it leads to is read only of a move that is asked for: read of each, it was shifted by for each, which took longer.
            if is_asked {
                y |= 1 << quads[k][3];
            }
        }
        y
    }
}

// Whether some pair is of an initial and a final state.
pub fn is_accepting(table: &Checked, pairs: &[u64]) -> bool
    requires { 64 ≤ length pairs.now }
    ensures { T result ↔ FinishedBlock (automaton (meant table.now)) (Holds pairs.now) }
{
    meets_final(table, from_initial(table, pairs))
}

// The second halves of the pairs from initial states.
fn from_initial(table: &Checked, pairs: &[u64]) -> u64
    requires { 64 ≤ length pairs.now }
    ensures { DigitsExactly result (FromInitial (meant table.now) table.now.counts.states pairs.now) }
{
    let mut x = 0;
    for (i, row) in pairs[..table.counts.states].iter().enumerate() {
        if table::is_initial(table.bytes, i) {
            x |= row;
        }
    }
    x
}

// Whether a digit of x names a final state.
fn meets_final(table: &Checked, x: u64) -> bool
    ensures { T result ↔ FinalAmong (meant table.now) x }
{
    relation::ones_of(x).any(|state| table::is_final(table.bytes, state))
}
