ghost use Rattle.std.specs.Prelude.{◌≡◌, ◌≤◌, length};
ghost use Rattle.query_tokens.specs.Lines as specs;

/// How many line feeds stand in the text.
pub fn line_feeds(text: &[u8]) -> u64
    ensures value { result ≡ specs.line_feeds text.now }
    ensures few { result ≤ length text.now }
{
    text.iter().filter(|byte| **byte == b'\n').count() as u64
}

/// The line of the last byte, from 1. It is 1 for an empty text.
pub fn last_line(bytes: &[u8]) -> u64
    ensures { result ≡ specs.last_line bytes.now }
{
    match bytes {
        [before @ .., _] => 1 + line_feeds(before),
        [] => 1,
    }
}
