// A table that passed the check.
ghost use Rattle.std.specs.Prelude.{◌≡◌, IfOk};
ghost use Rattle.vpa.specs.TableOnDisk.{state_count, letter_count};
ghost use Rattle.table.specs.Answers.{told, counts_told};
ghost use Rattle.table.specs.Calls.{check_answer};
ghost use Rattle.table.specs.Layout.{moves_part, parse};
ghost use Rattle.table.specs.Refusals.{verdict};

use crate::{Refusal, Table, check, checked_moves};

// Its bytes, which stay the caller's, and its counts. What the check has shown of them is known of every value.
#[derive(Clone, Copy)]
pub struct Checked<'a> {
    pub bytes: &'a [u8],
    pub counts: Table,
    pub ghost good: { verdict bytes.now ≡ 0 },
    pub ghost states: { counts.states ≡ state_count (parse bytes.now) },
    pub ghost letters: { counts.letters ≡ letter_count (parse bytes.now) },
    pub ghost marks: { counts.marks ≡ (parse bytes.now).mark_count },
}

impl<'a> Checked<'a> {
    // As `check`, and the bytes beside the counts.
    pub fn new(bytes: &'a [u8]) -> Result<Self, Refusal>
        ensures answer { told (λ table. counts_told table.counts) result ≡ check_answer bytes.now }
        ensures same_bytes { IfOk result (λ table. table.bytes ≡ bytes.entry) }
    {
        let counts = check(bytes)?;
        Ok(Checked { bytes, counts })
    }

    // The bytes of its moves, four for each.
    pub fn moves(&self) -> &'a [u8]
        ensures { result.now ≡ moves_part self.now.bytes.now }
    {
        checked_moves(self.bytes)
    }
}
