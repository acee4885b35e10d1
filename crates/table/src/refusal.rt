// Why a call refuses. A refusal is known outside by its number, as document 01 has it.
ghost use Rattle.std.specs.Prelude.{◌≡◌};
ghost use Rattle.table.specs.Answers.{number_of};

use std::error::Error;
use std::fmt;

#[derive(Clone, Copy, Debug, PartialEq, Eq)]
pub enum Refusal {
    // Fewer than eight bytes, or not two more than the first number says.
    Length = 1,

    // A version that is not 1.
    Version = 2,

    // More states, letters, marks or moves than a table may have.
    Limit = 3,

    // The first number does not follow from the counts.
    Size = 4,

    // In the lists of letters and of states, a kind that is none of 0 to 2 or a byte that is none of 0 to 3.
    List = 5,

    // A move names a state, letter or mark past the table's, or is plain and its mark is not 0, or it does not stand above the move before it.
    Move = 6,

    // What is lent for the work, scratch or a reader's state, is too short.
    Lent = 7,

    // A table that was made has more states, marks or moves than a table may have.
    Large = 8,

    // The output has too little room for what is to be written.
    Room = 9,

    // More letters than a log that is shown may have, in each log that is accepted.
    Long = 10,

    // A letter that is not one of the table's.
    Letter = 11,

    // More letters than a log may have.
    Letters = 12,

    // An open where there is no room for a deeper block.
    Depth = 13,

    // Words that do not stand for a reader's state on this table.
    State = 14,
}

impl From<Refusal> for u8 {
    ghost from_gives = { λ refusal number. number ≡ number_of refusal };

    fn from(refusal: Refusal) -> u8 {
        refusal as u8
    }
}

impl fmt::Display for Refusal {
    fn fmt<W: fmt::Write>(&self, f: &mut fmt::Formatter<W>) -> fmt::Result {
        write!(f, "refused {}", *self as u8)
    }
}

impl Error for Refusal {}
