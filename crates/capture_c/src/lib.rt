// The exported calls, which C programs link; `include/nomyugereka.h` declares them. Each is the call of that name in `capture`, with the same contract. To C a slice is
// a pointer and then a length.
#![tactic(auto)]

ghost use Rattle.std.specs.Prelude.{◌≡◌};
ghost use Rattle.table.specs.Calls.{check_answer, write_answer, write_out};
ghost use Rattle.trim.specs.Calls.{trim_call};
ghost use Rattle.balance.specs.Calls.{balance_call};
ghost use Rattle.capture.specs.Calls.{exported_begin, exported_letter, exported_finish, exported_log, ExportedShortest, balance_after, lowest_after};
ghost use Rattle.capture.specs.Numbers.{check_number, written_number, weighed_number};

#[unsafe(no_mangle)]
pub extern "C" fn nomyugereka_check(table: &[u8]) -> u64
    ensures { result ≡ check_number (check_answer table.now) }
{
    capture::nomyugereka_check(table)
}

#[unsafe(no_mangle)]
pub extern "C" fn nomyugereka_write(table: &[u8], out: &mut [u8]) -> u64
    ensures value { result ≡ written_number (write_answer table.now out.old) }
    ensures out_after { out.new ≡ write_out table.now out.old }
{
    capture::nomyugereka_write(table, out)
}

#[unsafe(no_mangle)]
pub extern "C" fn nomyugereka_trim(table: &[u8], scratch: &mut [u16], out: &mut [u8]) -> u64
    ensures value { result ≡ written_number (trim_call table.now scratch.old out.old).answer }
    ensures scratch_after { scratch.new ≡ (trim_call table.now scratch.old out.old).scratch }
    ensures out_after { out.new ≡ (trim_call table.now scratch.old out.old).out }
{
    capture::nomyugereka_trim(table, scratch, out)
}

#[unsafe(no_mangle)]
pub extern "C" fn nomyugereka_shortest(table: &[u8], scratch: &mut [u16], out: &mut [u8]) -> u64
    ensures { ExportedShortest table.now scratch.old out.old result scratch.new out.new }
{
    capture::nomyugereka_shortest(table, scratch, out)
}

#[unsafe(no_mangle)]
pub extern "C" fn nomyugereka_begin(table: &[u8], state: &mut [u8]) -> u64
    ensures value { result ≡ (exported_begin table.now state.old).number }
    ensures state_after { state.new ≡ (exported_begin table.now state.old).bytes }
{
    capture::nomyugereka_begin(table, state)
}

#[unsafe(no_mangle)]
pub extern "C" fn nomyugereka_letter(table: &[u8], state: &mut [u8], letter: u8) -> u64
    ensures value { result ≡ (exported_letter table.now state.old letter).number }
    ensures state_after { state.new ≡ (exported_letter table.now state.old letter).bytes }
{
    capture::nomyugereka_letter(table, state, letter)
}

#[unsafe(no_mangle)]
pub extern "C" fn nomyugereka_finish(table: &[u8], state: &[u8]) -> u64
    ensures { result ≡ (exported_finish table.now state.now).number }
{
    capture::nomyugereka_finish(table, state)
}

#[unsafe(no_mangle)]
pub extern "C" fn nomyugereka_read_log(table: &[u8], log: &[u8], state: &mut [u8]) -> u64
    ensures value { result ≡ (exported_log table.now log.now state.old).number }
    ensures state_after { state.new ≡ (exported_log table.now log.now state.old).bytes }
{
    capture::nomyugereka_read_log(table, log, state)
}

#[unsafe(no_mangle)]
pub extern "C" fn nomyugereka_balance(
    table: &[u8],
    log: &[u8],
    balance: &mut i32,
    lowest: &mut i32,
) -> u64
    ensures value { result ≡ weighed_number (balance_call table.now log.now) }
    ensures balance_after { balance.new ≡ balance_after (balance_call table.now log.now) balance.old }
    ensures lowest_after { lowest.new ≡ lowest_after (balance_call table.now log.now) lowest.old }
{
    capture::nomyugereka_balance(table, log, balance, lowest)
}
