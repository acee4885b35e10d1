// Follows a log through a table in which a state and a letter, with the mark on top where the letter closes, have one move at most. This is for logs too long
// to be printed; it shares nothing with what found them but the table's own calls.
use table::{Kind, Move};

// How many marks there is room for.
const DEEPEST: usize = 4096;

// Where a run stands, and how many marks it has pushed and not popped.
#[derive(Clone, Copy)]
struct Place {
    state: u8,
    depth: usize,
}

pub fn is_accepted(table: &[u8], log: &[u8]) -> bool {
    match end(table, log) {
        Some(place) => place.depth == 0 && table::is_final(table, usize::from(place.state)),
        None => false,
    }
}

// Where the run ends, or None where there is none. The marks lie in a fixed array and their number beside them, since nothing here takes memory of its own.
fn end(table: &[u8], log: &[u8]) -> Option<Place> {
    let part = table::moves(table);
    let mut marks = [0u8; DEEPEST];
    let mut place = Place {
        state: initial(table)?,
        depth: 0,
    };
    for &letter in log {
        place = step(table, part, place, letter, &mut marks)?;
    }
    Some(place)
}

// The first initial state.
fn initial(table: &[u8]) -> Option<u8> {
    (0..64).find(|&p| table::is_initial(table, usize::from(p)))
}

fn step(
    table: &[u8],
    part: &[u8],
    place: Place,
    letter: u8,
    marks: &mut [u8; DEEPEST],
) -> Option<Place> {
    match table::kind_at(table, usize::from(letter))? {
        Kind::Plain => {
            let found = find(part, place.state, letter, None)?;
            Some(Place {
                state: found.to,
                depth: place.depth,
            })
        }
        Kind::Open => push(find(part, place.state, letter, None)?, place.depth, marks),
        Kind::Close => pop(part, place, letter, marks),
    }
}

fn push(found: Move, depth: usize, marks: &mut [u8; DEEPEST]) -> Option<Place> {
    *marks.get_mut(depth)? = found.mark;
    Some(Place {
        state: found.to,
        depth: depth + 1,
    })
}

fn pop(part: &[u8], place: Place, letter: u8, marks: &[u8; DEEPEST]) -> Option<Place> {
    let depth = place.depth.checked_sub(1)?;
    let mark = *marks.get(depth)?;
    let found = find(part, place.state, letter, Some(mark))?;
    Some(Place {
        state: found.to,
        depth,
    })
}

// The move from a state by a letter, and with this mark where one is given.
fn find(part: &[u8], state: u8, letter: u8, mark: Option<u8>) -> Option<Move> {
    part.as_chunks::<4>()
        .0
        .iter()
        .map(|&[from, letter, mark, to]| Move {
            from,
            letter,
            mark,
            to,
        })
        .find(|next| {
            next.from == state && next.letter == letter && mark.is_none_or(|m| m == next.mark)
        })
}
