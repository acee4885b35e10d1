// Cases of what each library must answer, one line for each. The file `stdout` has the lines that must come.
// The modules look alike where they show an answer, and each shows that of another call; what they share stands in `lent` and `lines`.
#![tactic(auto)]

mod balance_cases;
mod lent;
mod lines;
mod log_cases;
mod nesting_cases;
mod reader_cases;
mod replay;
mod shortest_cases;
mod table_cases;
mod tables;
mod trim_cases;

use std::io;

// None of these is inlined: what one lends from its stack is not to lie there while the next one runs.
fn main(rt: HostRuntime) -> io::Result<()> {
    table_cases::run(&rt)?;
    nesting_cases::run(&rt)?;
    trim_cases::run(&rt)?;
    shortest_cases::run(&rt)?;
    reader_cases::run(&rt)?;
    log_cases::run(&rt)?;
    balance_cases::run(&rt)
}
