// Emptiness, and a shortest log of a table.
//
// `shortest` is the call. It finds the least lengths of the balanced pairs, takes the least one from an initial to a final state, and writes a log of that
// length, one letter a turn. How a length came about is not noted: the parts of a shortest way are shortest themselves, so the next move is found where
// lengths add up.
#![tactic(auto)]

ghost use Rattle.std.specs.Prelude.{◌+◌, ◌*◌, ◌-◌, ◌/◌, ◌<◌, ◌≤◌, length, get_or, set, Some, ◌≡◌};
ghost use Rattle.vpa.specs.TableOnDisk.{state_count};
ghost use Rattle.table.specs.Layout.{moves_part};
ghost use Rattle.table.specs.Meaning.{meant};
ghost use Rattle.nesting.specs.Scratch.{KeptFrom};
ghost use Rattle.lengths.specs.Limit.{over};
ghost use Rattle.lengths.specs.Steps.{length_in, Least};
ghost use Rattle.shortest.specs.Answers.{shown_as};
ghost use Rattle.shortest.specs.Calls.{ShowsLog, ShortestCall};
ghost use Rattle.shortest.specs.Steps.{held_at, LeastTop, LesserTop, Writing, WroteLetter, Wrote, SomePlain, SomeNest, WrotePlain, WroteOpen, Via, PlainAt, OpenFor, NestAt, MoveFound, NestFound};

use lengths::Links;
use table::{Checked, Kind, Refusal};

// A pair from an initial to a final state, and its length.
#[derive(Clone, Copy)]
struct Top {
    first: usize,
    last: usize,
    moves: usize,
}

// Where the writing of a log stands: at a state, on the way to another, so many levels deep, with so many letters left, which only the proof asks for.
// `left` is a number among the fields and no ghost field, which holds a fact and no number: `Writing` names it, and the clauses `value` count it down.
// Scratch and out stay parameters: with two `&mut` in the struct, `WroteLetter` had to say also that the slices held are the same.
#[derive(Drop)]
struct Walk {
    here: usize,
    goal: usize,
    depth: usize,
    left: usize,
}

// The numbers of an open and of a close move.
#[derive(Drop)]
struct Nest {
    opens: usize,
    closes: usize,
}

// Closes that are pending stand in scratch after the lengths, three numbers each: the letter, the state that it leads to, the goal of the level around.
// Numbers and no array of structs, since there is no heap and the caller lends scratch as cells of 16 bits.
const PENDING: usize = lengths::COUNT;

// Writes a shortest accepted log to the front of out, and answers how many letters it has; or that no log is accepted. Where it writes nothing, `out` is
// not touched. Scratch is left as it was where the bytes are no table or scratch is too short, and else is cleared.
// That "no log", 10 and 9 are exact and that all but the choice among shortest logs is determined: `no_log_exact`, `ten_exact`, `nine_exact`,
// `shortest_shown` and `shortest_once` of proofs/CallLaws.
pub fn shortest(table: &[u8], scratch: &mut [u16], out: &mut [u8]) -> Result<Option<usize>, Refusal>
    ensures { ShortestCall table.now scratch.old out.old (shown_as result) scratch.new out.new }
{
    let table = Checked::new(table)?;
    if scratch.len() < nesting::SCRATCH {
        return Err(Refusal::Lent);
    }
    let answer = shortest_of(&table, scratch, out);
    nesting::clear(scratch);
    answer
}

fn shortest_of(
    table: &Checked,
    scratch: &mut [u16],
    out: &mut [u8],
) -> Result<Option<usize>, Refusal>
    requires { 16384 ≤ length scratch.old }
    ensures shows_log { ShowsLog (meant table.now) out.old (shown_as result) out.new }
    ensures kept_from { KeptFrom 16384 scratch.old scratch.new }
{
    let from = lengths::chain(table.bytes, lengths::FROM);
    let to = lengths::chain(table.bytes, lengths::TO);
    lengths::find(table, &from, &to, scratch);
    let Some(top) = least_top(table, scratch) else {
        return Ok(None);
    };
    let too_long = top.moves == lengths::OVER;
    if too_long {
        return Err(Refusal::Long);
    }
    if out.len() < top.moves {
        return Err(Refusal::Room);
    }
    let links = Links::new(table, &from, &to);
    write_log(links, top, scratch, out);
    Ok(Some(top.moves))
}

// The length of a pair; past every length where there is no pair.
fn held_at(top: Option<Top>) -> usize
    ensures { result ≡ held_at top }
{
    match top {
        Some(top) => top.moves,
        None => lengths::OVER + 1,
    }
}

// The least length from an initial to a final state.
fn least_top(table: &Checked, scratch: &[u16]) -> Option<Top>
    requires { 4096 ≤ length scratch.now }
    ensures { LeastTop (meant table.now) scratch.now (state_count (meant table.now)) result }
{
    let mut top = None;
    for i in 0..table.counts.states {
        if table::is_initial(table.bytes, i) {
            top = lesser_top(table, scratch, i, top);
        }
    }
    top
}

// The lesser of best and of the lengths from i to final states.
fn lesser_top(table: &Checked, scratch: &[u16], i: usize, best: Option<Top>) -> Option<Top>
    requires { (i < 64) × (4096 ≤ length scratch.now) }
    ensures { LesserTop (meant table.now) scratch.now (state_count (meant table.now)) i best result }
{
    let mut top = best;
    for f in 0..table.counts.states {
        let moves = lengths::length_at(scratch, i, f);
        let nearer = moves < held_at(top);
        if nearer & table::is_final(table.bytes, f) {
            top = Some(Top {
                first: i,
                last: f,
                moves,
            });
        }
    }
    top
}

// Writes a log from the first to the last state of a top, which has as many letters as the lengths say.
fn write_log(links: Links, top: Top, scratch: &mut [u16], out: &mut [u8])
    requires room { 16384 ≤ length scratch.old }
    requires least { Least (meant links.table.now) scratch.old × (LeastTop (meant links.table.now) scratch.old (state_count (meant links.table.now)) (Some top) × ((top.moves < over) × (top.moves ≤ length out.old))) }
    ensures wrote { Wrote (meant links.entry.table.now) top.moves out.old out.new }
    ensures kept_from { KeptFrom 16384 scratch.old scratch.new }
{
    let mut hints = [0u16; lengths::COUNT];
    let mut walk = Walk {
        here: top.first,
        goal: top.last,
        depth: 0,
        left: top.moves,
    };
    for place in 0..top.moves {
        walk = write_letter(links, &mut hints, walk, place, scratch, out);
    }
}

// Writes the next letter. At the goal that is the one which closes the level; else the first on a shortest way there.
fn write_letter(
    links: Links,
    hints: &mut [u16],
    walk: Walk,
    place: usize,
    scratch: &mut [u16],
    out: &mut [u8],
) -> Walk
    requires room { (16384 ≤ length scratch.old) × (4096 ≤ length hints.old) }
    requires least { Least (meant links.table.now) scratch.old × Writing (meant links.table.now) scratch.old out.old place walk }
    ensures { WroteLetter (meant links.entry.table.now) scratch.old out.old place walk scratch.new out.new result }
{
    if walk.here == walk.goal {
        return close_level(walk, place, scratch, out);
    }
    let via = nearest_via(scratch, links.table.counts.states, walk.here, walk.goal);
    let moves = lengths::length_at(scratch, walk.here, via);
    if moves == 1 {
        step_to(links, walk, via, place, out)
    } else {
        open_level(links, hints, walk, via, moves, place, scratch, out)
    }
}

// The letter of the innermost pending close, which is taken away.
fn close_level(walk: Walk, place: usize, scratch: &[u16], out: &mut [u8]) -> Walk
    requires depth_nonzero { (0 < walk.depth) × ((4096 + 3 * walk.depth ≤ length scratch.now) × ((place < length out.old) × (0 < walk.left))) }
    requires depth_bound { get_or scratch.now (4096 + 3 * (walk.depth - 1)) 0 < 256 }
    ensures out_after { out.new ≡ set out.old place (get_or scratch.now (4096 + 3 * (walk.depth - 1)) 0) }
    ensures value { result ≡ record { here = get_or scratch.now (4096 + 3 * (walk.depth - 1) + 1) 0; goal = get_or scratch.now (4096 + 3 * (walk.depth - 1) + 2) 0; depth = walk.depth - 1; left = walk.left - 1 } }
{
    let depth = walk.depth - 1;
    let close = PENDING + 3 * depth;
    out[place] = scratch[close] as u8;
    Walk {
        here: usize::from(scratch[close + 1]),
        goal: usize::from(scratch[close + 2]),
        depth,
        left: walk.left - 1,
    }
}

// The letter of a plain move to the state via.
fn step_to(links: Links, walk: Walk, via: usize, place: usize, out: &mut [u8]) -> Walk
    requires low { (walk.here < 64) × ((place < length out.old) × (0 < walk.left)) }
    requires some_plain { SomePlain (meant links.table.now) (moves_part links.table.now.bytes.now) walk.here via }
    ensures wrote_plain { WrotePlain (meant links.entry.table.now) (moves_part links.entry.table.now.bytes.now) walk.here via place out.old out.new }
    ensures value { result ≡ record { here = via; goal = walk.goal; depth = walk.depth; left = walk.left - 1 } }
{
    let k = find_plain(links, walk.here, via).unwrap();
    let [_, letter, _, _] = links.moves().as_chunks::<4>().0[k];
    out[place] = letter;
    Walk {
        here: via,
        left: walk.left - 1,
        ..walk
    }
}

// The letter of an open move; the close move that leads to the state via is now pending.
fn open_level(
    links: Links,
    hints: &mut [u16],
    walk: Walk,
    via: usize,
    moves: usize,
    place: usize,
    scratch: &mut [u16],
    out: &mut [u8],
) -> Walk
    requires low { (walk.here < 64) × ((walk.goal < 64) × ((via < 64) × ((place < length out.old) × (0 < walk.left)))) }
    requires depth_bound { (walk.depth < 4096) × ((16384 ≤ length scratch.old) × (4096 ≤ length hints.old)) }
    requires some_nest { SomeNest (meant links.table.now) (moves_part links.table.now.bytes.now) (length_in scratch.old) walk.here via moves }
    ensures { WroteOpen (meant links.entry.table.now) (moves_part links.entry.table.now.bytes.now) walk via moves place scratch.old out.old scratch.new out.new result }
{
    let nest = nest_of(links, hints, scratch, walk.here, via, moves);
    let quads = links.moves().as_chunks::<4>().0;
    let [_, letter, _, inside] = quads[nest.opens];
    let [end, closing, _, _] = quads[nest.closes];
    out[place] = letter;
    let close = PENDING + 3 * walk.depth;
    scratch[close] = u16::from(closing);
    scratch[close + 1] = via as u16;
    scratch[close + 2] = walk.goal as u16;
    Walk {
        here: usize::from(inside),
        goal: usize::from(end),
        depth: walk.depth + 1,
        left: walk.left - 1,
    }
}

// The nearest state on a shortest way from p to q, other than p; it may be q. The way there is a single move, or a nesting.
fn nearest_via(scratch: &[u16], states: usize, p: usize, q: usize) -> usize
    requires states_bound { (states ≤ 64) × ((p < 64) × ((q < states) × (4096 ≤ length scratch.now))) }
    requires q_nonzero { (0 < length_in scratch.now p q) × (length_in scratch.now q q ≡ 0) }
    ensures { Via states (length_in scratch.now) p q result }
{
    // A loop and no `filter` with `min_by_key`: that reads a length for the test and again for the key, and asks for r < 64 in closures, which nothing bounds there.
    let whole = lengths::length_at(scratch, p, q);
    let mut best = q;
    let mut least = whole;
    for r in 0..states {
        let first = lengths::length_at(scratch, p, r);
        let second = lengths::length_at(scratch, r, q);
        if (0 < first) & ((first < least) & (first + second == whole)) {
            best = r;
            least = first;
        }
    }
    best
}

// The number of a plain move from p to q.
fn find_plain(links: Links, p: usize, q: usize) -> Option<usize>
    requires { p < 64 }
    ensures { MoveFound (PlainAt (meant links.entry.table.now) (moves_part links.entry.table.now.bytes.now) p q) result }
{
    let quads = links.moves().as_chunks::<4>().0;
    // A loop and no `find`, here and in the two searches below: what bounds k is the run of `Along`, and a closure is given k alone.
    for k in links.leaving(p) {
        let [_, letter, _, to] = quads[k];
        let ends = usize::from(to) == q;
        if ends & nesting::is_of_kind(links.table.bytes, usize::from(letter), Kind::Plain) {
            return Some(k);
        }
    }
    None
}

// The numbers of an open and of a close move as `find_nest` has them, where there are such. A log may come to the same pair again and again, so the close move
// that was found for it is kept as a hint. A hint is tried and not trusted.
fn nest_of(
    links: Links,
    hints: &mut [u16],
    scratch: &[u16],
    p: usize,
    r: usize,
    moves: usize,
) -> Nest
    requires low { (p < 64) × ((r < 64) × ((4096 ≤ length scratch.now) × (4096 ≤ length hints.old))) }
    requires some_nest { SomeNest (meant links.table.now) (moves_part links.table.now.bytes.now) (length_in scratch.now) p r moves }
    ensures { NestAt (meant links.entry.table.now) (moves_part links.entry.table.now.bytes.now) (length_in scratch.now) p r moves result.opens result.closes }
{
    let hint = usize::from(hints[64 * p + r]);
    if let Some(k) = open_for(links, scratch, p, r, hint, moves) {
        return Nest {
            opens: k,
            closes: hint,
        };
    }
    let nest = find_nest(links, scratch, p, r, moves).unwrap();
    hints[64 * p + r] = nest.closes as u16;
    nest
}

// What `find_open` finds for j, if move j is a close move to r.
fn open_for(
    links: Links,
    scratch: &[u16],
    p: usize,
    r: usize,
    j: usize,
    moves: usize,
) -> Option<usize>
    requires { (p < 64) × (4096 ≤ length scratch.now) }
    ensures { MoveFound (λ k. NestAt (meant links.entry.table.now) (moves_part links.entry.table.now.bytes.now) (length_in scratch.now) p r moves k j) result }
{
    let &[_, letter, _, to] = links.moves().as_chunks::<4>().0.get(j)?;
    let ends = usize::from(to) == r;
    if ends & nesting::is_of_kind(links.table.bytes, usize::from(letter), Kind::Close) {
        find_open(links, scratch, p, j, moves)
    } else {
        None
    }
}

// The numbers of an open move from p and of a close move to r with its mark, between which a pair is as long as moves says, the two counted.
fn find_nest(links: Links, scratch: &[u16], p: usize, r: usize, moves: usize) -> Option<Nest>
    requires { (p < 64) × ((r < 64) × (4096 ≤ length scratch.now)) }
    ensures { NestFound (NestAt (meant links.entry.table.now) (moves_part links.entry.table.now.bytes.now) (length_in scratch.now) p r moves) result }
{
    for j in links.reaching(r) {
        if let Some(k) = open_for(links, scratch, p, r, j, moves) {
            return Some(Nest {
                opens: k,
                closes: j,
            });
        }
    }
    None
}

// The number of an open move from p with the mark of close move j, such that the pair between the two is as long as moves says, the two counted.
fn find_open(links: Links, scratch: &[u16], p: usize, j: usize, moves: usize) -> Option<usize>
    requires { (p < 64) × ((j < length (moves_part links.table.now.bytes.now) / 4) × (4096 ≤ length scratch.now)) }
    ensures { MoveFound (OpenFor (meant links.entry.table.now) (moves_part links.entry.table.now.bytes.now) (length_in scratch.now) p j moves) result }
{
    let part = links.moves();
    let quads = part.as_chunks::<4>().0;
    let [from, _, mark, _] = quads[j];
    let (q, mark) = (usize::from(from), usize::from(mark));
    for k in links.leaving(p) {
        let [_, _, _, to] = quads[k];
        let inside = lengths::length_at(scratch, usize::from(to), q);
        if (inside + 2 == moves)
            & nesting::is_move_of(links.table.bytes, part, 4 * k, Kind::Open, mark)
        {
            return Some(k);
        }
    }
    None
}
