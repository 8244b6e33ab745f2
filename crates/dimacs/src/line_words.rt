ghost use Rattle.std.specs.Prelude.{◌≡◌, ◌<◌, ◌≤◌, ◌∷◌, [], ℕ, false, true, length, map, slice_index, take, IfSome, IfNone};
ghost use Rattle.std.specs.List.{list_all, list_any};
ghost use Rattle.dimacs.specs.Words.{is_blank, is_comment, line_words, placed, words_at};

fn is_blank(byte: u8) -> bool
    ensures { result ≡ is_blank byte }
{
    byte == b' ' || byte == b'\t' || byte == b'\r'
}

fn is_comment(line: &[u8]) -> bool
    ensures { result ≡ is_comment line.now }
{
    match line {
        [first, ..] => *first == b'c',
        [] => false,
    }
}

/// The line, or nothing where it is a comment.
pub fn without_comment(line: &[u8]) -> &[u8]
    ensures { (number : ℕ)
        → map (placed number) (line_words result.now) ≡ words_at number line.now }
{
    if is_comment(line) { &[] } else { line }
}

/// How many blanks the line begins with.
fn blank_count(line: &[u8]) -> usize
    ensures within { result ≤ length line.now }
    ensures blank { list_all is_blank (take result line.now) ≡ true }
    ensures behind { result < length line.now → is_blank (slice_index line.now result) ≡ false }
{
    for (i, byte) in line.iter().enumerate() {
        if !is_blank(*byte) {
            return i;
        }
    }
    line.len()
}

/// How many bytes stand before the first blank.
fn word_len(text: &[u8]) -> usize
    ensures within { result ≤ length text.now }
    ensures word { list_any is_blank (take result text.now) ≡ false }
    ensures behind { result < length text.now → is_blank (slice_index text.now result) ≡ true }
{
    for (i, byte) in text.iter().enumerate() {
        if is_blank(*byte) {
            return i;
        }
    }
    text.len()
}

/// The first word of a line, and what stands behind it.
pub fn first_word(line: &[u8]) -> Option<(&[u8], &[u8])>
    ensures found { IfSome result
        (λ parts. line_words line.now ≡ parts.0.now ∷ line_words parts.1.now) }
    ensures shorter { IfSome result (λ parts. length parts.1.now < length line.now) }
    ensures none { IfNone result (line_words line.now ≡ []) }
{
    let text = &line[blank_count(line)..];
    let end = word_len(text);
    if end == 0 {
        return None;
    }
    Some((&text[..end], &text[end..]))
}
