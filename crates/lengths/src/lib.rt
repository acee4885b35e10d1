// The least lengths of the balanced pairs of a table, in scratch.
//
// `find` finds them. `chain`, whose result it asks for, and `length_at` serve the crates above too. Pairs are looked at in the order of their lengths, each once:
// what follows from a pair (by a pair before it, by one after it, by moves around it) is then no shorter than what was looked at before, so nothing has to be
// looked at again. That each is looked at once is a matter of cost alone; what is found does not depend on it, since a pair that is lowered later would be due
// again.
//
// Moves are found by `chain`, which leads from a move to the next one with the same from, or the same to. `Along` goes along a chain, and `Links` holds both chains
// of a table with what is known of them.
#![tactic(auto)]

ghost use Rattle.std.specs.Prelude.{ℕ, ◌+◌, ◌*◌, ◌-◌, ◌/◌, ◌<◌, ◌≤◌, length, get_or, ◌⊎◌, ◌≡◌, None, Some};
ghost use Rattle.table.specs.Layout.{moves_part};
ghost use Rattle.table.specs.Meaning.{meant};
ghost use Rattle.table.specs.Refusals.{verdict};
ghost use Rattle.relation.specs.Digits.{bit};
ghost use Rattle.relation.specs.Relations.{Holds, HoldsExactly, With};
ghost use Rattle.nesting.specs.Scratch.{KeptFrom};
ghost use Rattle.std.specs.Iterator.{at_most};
ghost use Rattle.lengths.specs.Along.{Forward, GivesNext, BeginsAlong};
ghost use Rattle.lengths.specs.Steps.{length_in, Least, Chained, LoweredTo, LoweredBy, LoweredAfter, LoweredBefore, LoweredClosing, LoweredAround, Settled, LoweredSame, LoweredPlain, NoLengths, Searched, Taken};

use table::{Checked, Kind, Table};

// Stands for every length past the most that is shown, 4096. This and the next are numbers and no Option, since scratch lends cells of 16 bits for the lengths.
pub const OVER: usize = 4097;

// Stands for no length.
const NONE: usize = 4098;

// How many lengths there are, 64 to a row.
pub const COUNT: usize = 4096;

// How many numbers a chain has: one for each state and one for each move.
pub const CHAIN: usize = Table::STATES + Table::MOVES;

// The columns of a move by which moves are chained: numbers, since the contract of `chain` names the byte of a move that they stand for.
pub const FROM: usize = 0;

pub const TO: usize = 3;

// The length of the pair (p, q).
pub fn length_at(scratch: &[u16], p: usize, q: usize) -> usize
    requires { (p < 64) × ((q < 64) × (4096 ≤ length scratch.now)) }
    ensures { (length_in scratch.now p q ≡ result) × (result < 65536) }
{
    usize::from(scratch[64 * p + q])
}

// At place x the number of the first move that has x in the column, and at place 64 + k that of the next one after move k that has there what move k has; past
// the moves where there is none. It asks by a clause, and not by a `Checked`, since docs/DECISIONS.md names it.
pub fn chain(table: &[u8], column: usize) -> [usize; CHAIN]
    requires { (verdict table.now ≡ 0) × ((column ≡ 0) ⊎ (column ≡ 3)) }
    ensures { Chained (moves_part table.now) column result }
{
    let quads = table::checked_moves(table).as_chunks::<4>().0;
    // A number past the moves is none, and no Option, since `Chained` speaks of numbers.
    let mut r = [Table::MOVES; CHAIN];
    // The numbers themselves are what is chained, from the last move to the first.
    for k in (0..quads.len()).rev() {
        let x = usize::from(quads[k][column]);
        r[64 + k] = r[x];
        r[x] = k;
    }
    r
}

// The numbers of the moves along a chain, in their order.
#[derive(Drop)]
pub struct Along<'a> {
    chain: &'a [usize; CHAIN],
    next: usize,
    count: usize,
    ghost forward: { Forward count chain.now },
    ghost most: { count ≤ 1024 },
}

impl<'a> Iterator for Along<'a> {
    type Item = usize;

    ghost next_gives = { λ s given t. (t.chain ≡ s.chain) × ((t.count ≡ s.count) × GivesNext s.chain.now s.count s.next given t.next) };

    ghost remaining = { λ s. at_most (s.count - s.next) };

    fn next(&mut self) -> Option<usize> {
        if self.next >= self.count {
            return None;
        }
        let k = self.next;
        self.next = self.chain[64 + k];
        Some(k)
    }
}

impl<'a> Along<'a> {
    // Those of the first `count` moves that have x in the column by which they are chained.
    pub fn new(chain: &'a [usize; CHAIN], x: usize, count: usize) -> Self
        requires { (x < 64) × ((count ≤ 1024) × Forward count chain.now) }
        ensures { (result.chain ≡ chain.entry) × ((result.count ≡ count) × (result.next ≡ get_or chain.now x 0)) }
    {
        Along {
            chain,
            next: chain[x],
            count,
        }
    }
}

// The moves of a checked table, chained by the states that they lead from and by those that they lead to.
#[derive(Clone, Copy)]
pub struct Links<'a> {
    pub table: &'a Checked<'a>,
    from: &'a [usize; CHAIN],
    to: &'a [usize; CHAIN],
    ghost by_from: { Chained (moves_part table.now.bytes.now) 0 from.now },
    ghost by_to: { Chained (moves_part table.now.bytes.now) 3 to.now },
}

impl<'a> Links<'a> {
    pub fn new(table: &'a Checked<'a>, from: &'a [usize; CHAIN], to: &'a [usize; CHAIN]) -> Self
        requires { Chained (moves_part table.now.bytes.now) 0 from.now × Chained (moves_part table.now.bytes.now) 3 to.now }
        ensures { result.table ≡ table.entry }
    {
        Links { table, from, to }
    }

    // The bytes of the moves.
    pub fn moves(self) -> &'a [u8]
        ensures { result.now ≡ moves_part self.entry.table.now.bytes.now }
    {
        self.table.moves()
    }

    // The numbers of the moves that lead from state p.
    pub fn leaving(self, p: usize) -> Along<'a>
        requires { p < 64 }
        ensures { BeginsAlong (moves_part self.entry.table.now.bytes.now) 0 p result.chain.now result.count result.next }
    {
        Along::new(self.from, p, self.moves().len() / 4)
    }

    // The numbers of the moves that lead to state q.
    pub fn reaching(self, q: usize) -> Along<'a>
        requires { q < 64 }
        ensures { BeginsAlong (moves_part self.entry.table.now.bytes.now) 3 q result.chain.now result.count result.next }
    {
        Along::new(self.to, q, self.moves().len() / 4)
    }
}

// The pairs that are due, a row of digits for each first half, and for each row the length of its shortest pair; NONE where the row is empty, and no Option, so
// that lengths are compared as they stand.
// The lengths stay a slice beside it: with a `&mut [u16]` in the struct, each clause from `LoweredTo` to `Settled` had to say also that the slice held is the same.
#[derive(Drop)]
struct Queue {
    due: [u64; 64],
    soonest: [usize; 64],
}

impl Queue {
    fn new() -> Self
        ensures { (p q : ℕ) → Holds result.due p q → ⊥ }
    {
        Queue {
            due: [0; 64],
            soonest: [NONE; 64],
        }
    }

    // Notes that the pair (p, q) is due, which has this length.
    fn note(&mut self, p: usize, q: usize, moves: usize)
        requires { (p < 64) × (q < 64) }
        ensures { HoldsExactly self.new.due (With self.old.due p q) }
    {
        self.due[p] |= 1u64 << q;
        self.soonest[p] = self.soonest[p].min(moves);
    }

    // A row with pairs that are due, and among such rows one with the shortest.
    fn soonest_row(&self, states: usize) -> Option<usize>
        requires { states ≤ 64 }
        ensures none { result ≡ None → (p : ℕ) → p < states → get_or self.now.due p 0 ≡ 0 }
        ensures some { (p : ℕ) → result ≡ Some p → (p < states) × (get_or self.now.due p 0 ≡ 0 → ⊥) }
    {
        (0..states)
            .filter(|&p| self.due[p] != 0)
            .min_by_key(|&p| self.soonest[p])
    }

    // Takes the shortest pair of row p that is due, and answers its second half.
    fn take_from(&mut self, scratch: &[u16], p: usize) -> usize
        requires { (p < 64) × ((4096 ≤ length scratch.now) × (get_or self.old.due p 0 ≡ 0 → ⊥)) }
        ensures { Taken p result self.old.due self.new.due }
    {
        let row = self.due[p];
        let q = soonest_in(scratch, row, p);
        let rest = row ^ (1u64 << q);
        self.due[p] = rest;
        self.soonest[p] = soonest_of(scratch, rest, p);
        q
    }
}

// Finds the least lengths of the pairs of a table.
pub fn find(table: &Checked, from: &[usize; CHAIN], to: &[usize; CHAIN], scratch: &mut [u16])
    requires room { 4096 ≤ length scratch.old }
    requires chained { Chained (moves_part table.now.bytes.now) 0 from.now × Chained (moves_part table.now.bytes.now) 3 to.now }
    ensures { Least (meant table.now) scratch.new × KeptFrom 4096 scratch.old scratch.new }
{
    let links = Links::new(table, from, to);
    let mut queue = Queue::new();
    start(table, scratch, &mut queue);
    while let Some(p) = queue.soonest_row(table.counts.states) {
        let q = queue.take_from(scratch, p);
        settle(links, scratch, &mut queue, p, q);
    }
}

// The lengths that are known at once: of each state with itself, and along plain moves.
fn start(table: &Checked, scratch: &mut [u16], queue: &mut Queue)
    requires room { 4096 ≤ length scratch.old }
    requires none_due { (p q : ℕ) → Holds queue.old.due p q → ⊥ }
    ensures { Searched (meant table.now) scratch.new queue.new.due × KeptFrom 4096 scratch.old scratch.new }
{
    forget(scratch);
    lower_same(table.counts.states, scratch, queue);
    lower_plain(table, scratch, queue);
}

fn forget(scratch: &mut [u16])
    requires { 4096 ≤ length scratch.old }
    ensures { NoLengths scratch.new × KeptFrom 4096 scratch.old scratch.new }
{
    scratch[..COUNT].fill(NONE as u16);
}

fn lower_same(states: usize, scratch: &mut [u16], queue: &mut Queue)
    requires { (states ≤ 64) × (4096 ≤ length scratch.old) }
    ensures { LoweredSame states scratch.old queue.old.due scratch.new queue.new.due }
{
    for p in 0..states {
        lower(scratch, queue, p, p, 0);
    }
}

fn lower_plain(table: &Checked, scratch: &mut [u16], queue: &mut Queue)
    requires { 4096 ≤ length scratch.old }
    ensures { LoweredPlain (meant table.now) scratch.old queue.old.due scratch.new queue.new.due }
{
    let part = table.moves();
    for &[from, letter, _, to] in part.as_chunks::<4>().0 {
        if nesting::is_of_kind(table.bytes, usize::from(letter), Kind::Plain) {
            lower(scratch, queue, usize::from(from), usize::from(to), 1);
        }
    }
}

// Lowers one length, if it is not as low already, and notes that the pair is due.
fn lower(scratch: &mut [u16], queue: &mut Queue, p: usize, q: usize, moves: usize)
    requires { (p < 64) × ((q < 64) × (4096 ≤ length scratch.old)) }
    ensures { LoweredTo p q moves scratch.old queue.old.due scratch.new queue.new.due }
{
    let counted = moves.min(OVER);
    if counted < length_at(scratch, p, q) {
        scratch[64 * p + q] = counted as u16;
        queue.note(p, q, counted);
    }
}

// The length of a shortest pair among the second halves in row; NONE where row is empty.
fn soonest_of(scratch: &[u16], row: u64, p: usize) -> usize
    requires { (p < 64) × (4096 ≤ length scratch.now) }
{
    if row == 0 {
        NONE
    } else {
        length_at(scratch, p, soonest_in(scratch, row, p))
    }
}

fn soonest_in(scratch: &[u16], row: u64, p: usize) -> usize
    requires { (p < 64) × ((4096 ≤ length scratch.now) × (row ≡ 0 → ⊥)) }
    ensures { (result < 64) × (bit row result ≡ 1) }
{
    // A loop and no `min_by_key`: that asks, of every run, that the closure may be called (`callable`: q < 64), which the loop has of each q by `come_next`.
    let mut best = row.trailing_zeros() as usize;
    for q in relation::ones_of(row) {
        if length_at(scratch, p, q) < length_at(scratch, p, best) {
            best = q;
        }
    }
    best
}

// Looks at what follows from the pair (p, q).
fn settle(links: Links, scratch: &mut [u16], queue: &mut Queue, p: usize, q: usize)
    requires { (p < 64) × ((q < 64) × (4096 ≤ length scratch.old)) }
    ensures { Settled (meant links.entry.table.now) links.entry.table.now.counts.states p q (length_in scratch.old p q) scratch.old queue.old.due scratch.new queue.new.due }
{
    let moves = length_at(scratch, p, q);
    lower_beside(links.table.counts.states, scratch, queue, p, q, moves);
    lower_around(links, scratch, queue, p, q, moves);
}

// The pairs (p, r) by way of q, and the pairs (r, q) by way of p.
fn lower_beside(
    states: usize,
    scratch: &mut [u16],
    queue: &mut Queue,
    p: usize,
    q: usize,
    moves: usize,
)
    requires { (states ≤ 64) × ((p < 64) × ((q < 64) × ((moves < 65536) × (4096 ≤ length scratch.old)))) }
    ensures after { LoweredAfter states p q moves scratch.old queue.old.due scratch.new queue.new.due }
    ensures before { LoweredBefore states p q moves scratch.old queue.old.due scratch.new queue.new.due }
{
    for r in 0..states {
        let after = length_at(scratch, q, r);
        lower_by(scratch, queue, p, r, moves, after);
        let before = length_at(scratch, r, p);
        lower_by(scratch, queue, r, q, moves, before);
    }
}

// The pair (p, q) by way of a third state, one part being as long as moves says and the other as more says, which may stand for no length.
fn lower_by(scratch: &mut [u16], queue: &mut Queue, p: usize, q: usize, moves: usize, more: usize)
    requires { (p < 64) × ((q < 64) × ((moves < 65536) × ((more < 65536) × (4096 ≤ length scratch.old)))) }
    ensures { LoweredBy p q moves more scratch.old queue.old.due scratch.new queue.new.due }
{
    if more <= OVER {
        lower(scratch, queue, p, q, moves + more);
    }
}

// The pairs around (p, q): from where an open move to p begins to where a close move from q with its mark ends.
fn lower_around(
    links: Links,
    scratch: &mut [u16],
    queue: &mut Queue,
    p: usize,
    q: usize,
    moves: usize,
)
    requires { (p < 64) × ((q < 64) × ((moves < 65536) × (4096 ≤ length scratch.old))) }
    ensures { LoweredAround (meant links.entry.table.now) p q moves scratch.old queue.old.due scratch.new queue.new.due }
{
    let part = links.moves();
    let quads = part.as_chunks::<4>().0;
    for k in links.reaching(p) {
        let [from, letter, mark, _] = quads[k];
        if nesting::is_of_kind(links.table.bytes, usize::from(letter), Kind::Open) {
            lower_closing(
                links,
                scratch,
                queue,
                usize::from(from),
                usize::from(mark),
                q,
                moves + 2,
            );
        }
    }
}

// The pairs from p to where the close moves from q with this mark lead.
fn lower_closing(
    links: Links,
    scratch: &mut [u16],
    queue: &mut Queue,
    p: usize,
    mark: usize,
    q: usize,
    moves: usize,
)
    requires { (p < 64) × ((q < 64) × (4096 ≤ length scratch.old)) }
    ensures { LoweredClosing (meant links.entry.table.now) p mark q moves scratch.old queue.old.due scratch.new queue.new.due }
{
    let part = links.moves();
    let quads = part.as_chunks::<4>().0;
    for k in links.leaving(q) {
        let [_, _, _, to] = quads[k];
        if nesting::is_move_of(links.table.bytes, part, 4 * k, Kind::Close, mark) {
            lower(scratch, queue, p, usize::from(to), moves);
        }
    }
}
