ghost use Rattle.std.specs.Prelude.{◌≡◌, false, IfOk, IfErr};
ghost use Rattle.ios_lex.specs.NextWords.{NoName};
ghost use Rattle.ios_lex.specs.Stops.{BeginsWith, expected_of, IsStop};
ghost use Rattle.ios_interface.specs.Grammar.{IsAccessGroup, IsDirection, Line};
ghost use Rattle.ios_interface.specs.Parts.{SomeDirection};
ghost use Rattle.ios_interface.specs.declared.kind.Kind.TheVariants as kinds;

use crate::kind::Direction;
use ios_lex::{Due, Stop, Word, next_end, next_name, stop_before};

/// The direction that the words begin with, and the words behind it.
fn next_direction(words: &[Word]) -> Result<(Direction, &[Word]), Stop>
    ensures read { IfOk result (λ found. BeginsWith (IsDirection found.0) words.now found.1.now) }
    ensures stop { IfErr result (IsStop NoName SomeDirection words.now) }
    ensures part { IfErr result (λ stop. (expected_of stop.due).whole ≡ false) }
{
    let Some((first, rest)) = words.split_first() else {
        return Err(stop_before(words, Due::Keyword));
    };
    if first.is("in") {
        Ok((Direction::In, rest))
    } else if first.is("out") {
        Ok((Direction::Out, rest))
    } else {
        Err(stop_before(words, Due::Keyword))
    }
}

/// The name of the list that the words behind `ip access-group` spell, and its direction.
pub(crate) fn access_group(words: &[Word]) -> Result<(&Word, Direction), Stop>
    ensures read { IfOk result (λ group. IsAccessGroup false group.0.now group.1 words.now) }
    ensures stop { IfErr result (IsStop NoName (Line kinds.AccessGroup) words.now) }
{
    let (name, rest) = next_name(words, &[])?;
    let (direction, rest) = next_direction(rest)?;
    next_end(rest)?;
    Ok((name, direction))
}
