ghost use Rattle.std.specs.Prelude.{◌≡◌, ◌∷◌, [], length, MatchResult};
ghost use Rattle.dimacs.specs.Words.{placed, text_words, end_line};

use crate::line_words::{first_word, without_comment};
use certificates::first_line;
use std::marker::Model;

/// A word of a text.
#[derive(Clone, Copy, Drop)]
pub struct Word<'a> {
    /// From 1.
    pub line: u64,
    pub text: &'a [u8],
}

/// What is left of a text, as words.
#[derive(Drop)]
pub struct Words<'a> {
    /// The number of the current line; 0 before the first.
    number: u64,
    /// What is left of it.
    line: &'a [u8],
    /// The lines behind it.
    rest: &'a [u8],
}

impl<'a> Model for Words<'a> {
    ghost use Rattle.std.specs.Prelude.{◌+◌, ◌^◌, ◌<◌, ◌++◌, length, map};
    ghost use Rattle.certificates.specs.Lines.{text_lines};
    ghost use Rattle.dimacs.specs.Words.{line_words, placed, words_from};
    ghost use Rattle.dimacs.specs.Inside.Cursors.{Cursor};

    ghost Value = { Cursor };

    ghost view = { λ w. record {
      words = map (placed w.number) (line_words w.line.now)
          ++ words_from (w.number + 1) (text_lines w.rest.now);
      end = (w.number + 1) + length (text_lines w.rest.now);
    } };

    ghost invariant = { λ w. w.number + length w.rest.now < 2 ^ 63 };
}

impl<'a> Words<'a> {
    /// All words of a text.
    pub fn of(bytes: &'a [u8]) -> Words<'a>
        ensures words { result.words ≡ text_words bytes.now }
        ensures end { result.end ≡ end_line bytes.now }
    {
        Words {
            number: 0,
            line: &[],
            rest: bytes,
        }
    }

    /// Takes the next word; or says the number behind the last line, where there is none.
    pub fn next(&mut self) -> Result<Word<'a>, u64>
        ensures next { MatchResult result
            (λ word. self.old.words ≡ placed word.line word.text.now ∷ self.new.words)
            (λ end. (self.old.words ≡ []) × (end ≡ self.old.end)) }
        ensures end { self.new.end ≡ self.old.end }
    {
        loop {
            if let Some((text, behind)) = first_word(self.line) {
                self.line = behind;
                return Ok(Word {
                    line: self.number,
                    text,
                });
            }
            let Some((line, rest)) = first_line(self.rest) else {
                return Err(self.number + 1);
            };
            self.number += 1;
            self.line = without_comment(line);
            self.rest = rest;
        }
    }
}
