ghost use Rattle.std.specs.Prelude.{◌≤◌};

use std::fmt;

/// Bytes as they are shown to people: what is no printed ASCII as `?`, and a tab as a blank, so that no file moves a
/// terminal.
#[derive(Clone, Copy, Debug)]
pub struct Printed<'a>(pub &'a [u8]);

impl fmt::Display for Printed<'_> {
    fn fmt<W: fmt::Write>(&self, f: &mut fmt::Formatter<W>) -> fmt::Result {
        for byte in self.0 {
            f.write_char(shown(*byte))?;
        }
        Ok(())
    }
}

fn shown(byte: u8) -> char
    ensures low { 32 ≤ result }
    ensures high { result ≤ 126 }
{
    if (32..=126).contains(&byte) {
        char::from(byte)
    } else if byte == b'\t' {
        ' '
    } else {
        '?'
    }
}

/// A character so many times.
#[derive(Clone, Copy, Debug)]
pub(crate) struct Times(pub(crate) char, pub(crate) usize);

impl fmt::Display for Times {
    fn fmt<W: fmt::Write>(&self, f: &mut fmt::Formatter<W>) -> fmt::Result {
        for _ in 0..self.1 {
            f.write_char(self.0)?;
        }
        Ok(())
    }
}
