// Parts of a line.
use std::fmt::{self, Display, Formatter, Write};
use std::io;

// Bytes as numbers, each after a space.
#[derive(Clone, Copy)]
pub struct Numbers<'a>(pub &'a [u8]);

impl Display for Numbers<'_> {
    fn fmt<W: Write>(&self, f: &mut Formatter<W>) -> fmt::Result {
        for byte in self.0 {
            write!(f, " {byte}")?;
        }
        Ok(())
    }
}

// Bytes as two hexadecimal digits each.
#[derive(Clone, Copy)]
pub struct Hex<'a>(pub &'a [u8]);

impl Display for Hex<'_> {
    fn fmt<W: Write>(&self, f: &mut Formatter<W>) -> fmt::Result {
        for byte in self.0 {
            write!(f, "{byte:02x}")?;
        }
        Ok(())
    }
}

pub fn label(rt: &impl Print, words: &str) -> io::Result<()> {
    print!(rt; "{words}: ")
}

// A label that ends in the letters of a log.
pub fn log_label(rt: &impl Print, words: &str, log: &[u8]) -> io::Result<()> {
    print!(rt; "{words}{}: ", Numbers(log))
}

// What a case answered, as the end of its line.
pub fn answer(rt: &impl Print, words: &str) -> io::Result<()> {
    println!(rt; "{words}")
}

pub fn end(rt: &impl Print) -> io::Result<()> {
    answer(rt, "")
}
