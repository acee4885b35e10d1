// The balance of a log: opens less closes, and the lowest that it is on the way.
//
// `balance` is the call.
#![tactic(auto)]

ghost use Rattle.std.specs.Prelude.{ℕ, ◌<◌, ◌≤◌, pos, ◌+ℤ◌, length, get_or, ◌≡◌};
ghost use Rattle.std.specs.Int.{w32};
ghost use Rattle.std.proofs.Common.{SFits};
ghost use Rattle.vpa.specs.Balance.{change, lesser};
ghost use Rattle.vpa.specs.TableOnDisk.{kind_in};
ghost use Rattle.table.specs.Layout.{most_letters, parse};
ghost use Rattle.table.specs.Logs.{longest_log};
ghost use Rattle.table.specs.Meaning.{meant};
ghost use Rattle.balance.specs.Answers.{weighed_as};
ghost use Rattle.balance.specs.Calls.{letters_weighed, balance_call};

use table::{Checked, Kind, Refusal, Table};

// The balance of the letters so far, and the lowest of all prefixes.
#[derive(Clone, Copy)]
pub struct Tally {
    pub balance: i32,
    pub lowest: i32,
}

impl Tally {
    // One letter more, that adds this to the balance.
    fn after(self, added: i32) -> Tally
        requires { SFits w32 (self.balance +ℤ added) }
        ensures { result ≡ record { balance = self.balance +ℤ added; lowest = lesser self.lowest (self.balance +ℤ added) } }
    {
        let balance = self.balance + added;
        Tally {
            balance,
            lowest: self.lowest.min(balance),
        }
    }
}

// The balance of a log and the lowest of its prefixes; or the refusal for bytes that are no table, then for a log that is too long, then for a letter that the table
// does not have. The moves do not matter: a log that no run is on has a balance too. (`balance_told`, `lowest_told`, `balance_refused_iff` of proofs/CallLaws.)
pub fn balance(table: &[u8], log: &[u8]) -> Result<Tally, Refusal>
    ensures { weighed_as result ≡ balance_call table.now log.now }
{
    let table = Checked::new(table)?;
    let is_too_long = log.len() > table::LONGEST_LOG;
    if is_too_long {
        return Err(Refusal::Letters);
    }
    weigh(&table, log)
}

// The letters' own part of the answer. The kinds are asked for once, for every number that a letter can have, so that a letter of the log costs one look at them.
fn weigh(table: &Checked, log: &[u8]) -> Result<Tally, Refusal>
    requires { length log.now ≤ longest_log }
    ensures { weighed_as result ≡ letters_weighed (meant table.now) log.now }
{
    let letters = table.counts.letters;
    let added = changes(table.bytes);
    let mut tally = Tally {
        balance: 0,
        lowest: 0,
    };
    for &byte in log {
        let letter = usize::from(byte);
        if letter >= letters {
            return Err(Refusal::Letter);
        }
        tally = tally.after(added[letter]);
    }
    Ok(tally)
}

// What each letter adds.
fn changes(table: &[u8]) -> [i32; Table::LETTERS]
    ensures { (a : ℕ) → a < most_letters → get_or result a (pos 0) ≡ change (kind_in (parse table.now) a) }
{
    std::array::from_fn(|letter| change(table, letter))
}

// What a letter adds. One that the table does not have counts as plain here; `weigh` refuses it before it is added.
fn change(table: &[u8], letter: usize) -> i32
    ensures { result ≡ change (kind_in (parse table.now) letter) }
{
    match table::kind_at(table, letter) {
        Some(Kind::Plain) => 0,
        Some(Kind::Open) => 1,
        Some(Kind::Close) => -1,
        None => 0,
    }
}
