// The numbers that the exported calls answer with: a kind times 2^32, and a value below that. The kinds are listed in specs/Numbers.
ghost use Rattle.std.specs.Prelude.{◌<◌, ◌≡◌, IfOk};
ghost use Rattle.table.specs.Answers.{number_of, written_as};
ghost use Rattle.table.specs.Calls.{for_table};
ghost use Rattle.reader.specs.Answers.{heard_as};
ghost use Rattle.capture.specs.Numbers.{kind_size, written_number, heard_number};
ghost use Rattle.capture.specs.Steps.{value_of};

use reader::Heard;
use table::Refusal;

// The answers stay numbers, and no enum, since C gets them.
const KIND_SIZE: u64 = 4294967296;

const GOING: u64 = KIND_SIZE;

const ACCEPTED: u64 = 2 * KIND_SIZE;

const UNFINISHED: u64 = 3 * KIND_SIZE;

const STOP: u64 = 4 * KIND_SIZE;

const WRITTEN: u64 = 5 * KIND_SIZE;

pub const NO_LOG: u64 = 6 * KIND_SIZE;

pub const GOOD: u64 = 7 * KIND_SIZE;

// A refusal's kind is 0.
pub fn refused(refusal: Refusal) -> u64
    ensures { result ≡ number_of refusal }
{
    u64::from(u8::from(refusal))
}

// How many bytes or letters were written, or the refusal.
pub fn written(answer: Result<usize, Refusal>) -> u64
    requires { IfOk answer (λ count. count < kind_size) }
    ensures { result ≡ written_number (written_as answer) }
{
    match answer {
        Ok(count) => WRITTEN + count as u64,
        Err(refusal) => refused(refusal),
    }
}

pub fn heard(answer: Result<Heard, Refusal>) -> u64
    requires { value_of (heard_as answer) < kind_size }
    ensures { result ≡ heard_number (heard_as answer) }
{
    match answer {
        Ok(Heard::Going) => GOING,
        Ok(Heard::Accepted) => ACCEPTED,
        Ok(Heard::Unfinished) => UNFINISHED,
        Ok(Heard::Stop(place)) => STOP + place as u64,
        Err(refusal) => refused(refusal),
    }
}

// For a state of too few bytes: the table's own refusal comes before that.
pub fn too_short(table: &[u8]) -> u64
    ensures { result ≡ for_table table.now 7 (λ k. k) }
{
    match table::check(table) {
        Ok(_) => refused(Refusal::Lent),
        Err(refusal) => refused(refusal),
    }
}
