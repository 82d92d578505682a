//! Names and words in sentences.

use std::fmt;

/// A text as sentences have it, within one line: line feeds, tabs and carriage returns as `\n`, `\t` and `\r`, and other control
/// characters as U+FFFD, so that no name of a file can steer the terminal by them.
#[derive(Clone, Copy)]
pub struct OneLine<'a>(&'a str);

/// A name or a word as sentences have it.
pub fn shown(text: &str) -> OneLine<'_> {
    OneLine(text)
}

impl fmt::Display for OneLine<'_> {
    fn fmt<W: fmt::Write>(&self, f: &mut fmt::Formatter<W>) -> fmt::Result {
        for c in self.0.chars() {
            match c {
                '\n' => f.write_str("\\n")?,
                '\t' => f.write_str("\\t")?,
                '\r' => f.write_str("\\r")?,
                _ if c.is_control() => f.write_str("\u{fffd}")?,
                _ => f.write_char(c)?,
            }
        }
        Ok(())
    }
}
