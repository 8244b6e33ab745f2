ghost use Rattle.std.specs.Prelude.{◌≡◌, ◌+◌, ◌≤◌, ◌++◌, length, IfSome};

use memchr::{memchr, memmem, memrchr};
use query_tokens::last_line;

/// A line of a file, in three parts: the word that is meant, and what stands before and behind it. Where no word is meant
/// the whole line stands behind. The line is 0, without bytes, where the file as a whole is meant.
#[derive(Clone, Copy, Debug)]
pub struct Place<'a> {
    pub file: &'a str,
    pub line: u64,
    pub before: &'a [u8],
    pub word: &'a [u8],
    pub behind: &'a [u8],
}

impl<'a> Place<'a> {
    /// The same line, of which so many bytes from this one on are meant.
    pub fn word_at(self, at: usize, len: usize) -> Place<'a>
        requires { at + len ≤ length self.behind.now }
        ensures same_line { result.before.now ++ result.word.now ++ result.behind.now
            ≡ self.entry.behind.now }
        ensures word { length result.word.now ≡ len }
    {
        let (before, rest) = self.behind.split_at(at);
        let (word, behind) = rest.split_at(len);
        Place {
            file: self.file,
            line: self.line,
            before,
            word,
            behind,
        }
    }
}

/// The file as a whole.
pub fn whole_file(file: &str) -> Place<'_>
    ensures { result.line ≡ 0 }
{
    line_of(file, 0, b"")
}

/// A line, no word of which is meant.
fn line_of<'a>(file: &'a str, line: u64, text: &'a [u8]) -> Place<'a>
    ensures line { result.line ≡ line }
    ensures text { result.behind.now ≡ text.now }
{
    Place {
        file,
        line,
        before: b"",
        word: b"",
        behind: text,
    }
}

/// The bytes behind the last line feed.
fn last_part(bytes: &[u8]) -> &[u8] {
    match memrchr(b'\n', bytes) {
        Some(at) => &bytes[at + 1..],
        None => bytes,
    }
}

/// The bytes before the first line end.
fn first_part(bytes: &[u8]) -> &[u8] {
    let line = match memchr(b'\n', bytes) {
        Some(at) => &bytes[..at],
        None => return bytes,
    };
    match line {
        [text @ .., b'\r'] => text,
        _ => line,
    }
}

/// The bytes before the line of this number, from 1, and those from it on. None where there are fewer lines.
pub fn split_at_line(bytes: &[u8], line: u64) -> Option<(&[u8], &[u8])>
    ensures { IfSome result (λ parts. bytes.now ≡ parts.0.now ++ parts.1.now) }
{
    let mut left = line;
    for (i, byte) in bytes.iter().enumerate() {
        if left <= 1 {
            return Some(bytes.split_at(i));
        }
        if *byte == b'\n' {
            left -= 1;
        }
    }
    None
}

/// The line of this number, from 1, no word of which is meant; without bytes where the file has no such line.
pub fn line_place<'a>(file: &'a str, bytes: &'a [u8], line: u64) -> Place<'a>
    ensures { result.line ≡ line }
{
    match split_at_line(bytes, line) {
        Some((_, rest)) => line_of(file, line, first_part(rest)),
        None => line_of(file, line, b""),
    }
}

/// The first place from this line on at which these bytes stand.
pub fn found<'a>(file: &'a str, bytes: &'a [u8], line: u64, needle: &[u8]) -> Option<Place<'a>> {
    let (head, rest) = split_at_line(bytes, line)?;
    let at = memmem::find(rest, needle)?;
    let (_, from) = rest.split_at(at);
    let (word, behind) = from.split_at(needle.len());
    let (before, _) = bytes.split_at(head.len() + at);
    Some(Place {
        file,
        line: line_behind(before),
        before: last_part(before),
        word,
        behind: first_part(behind),
    })
}

/// The line of the byte behind these.
fn line_behind(before: &[u8]) -> u64 {
    match before {
        [.., b'\n'] => last_line(before) + 1,
        _ => last_line(before),
    }
}
