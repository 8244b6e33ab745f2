use query_tokens::{
    Placed, Token, keyword_text, keywords_differ, last_line, lines_are_read_back, number,
    one_list_of_tokens, push_line, tokens,
};
use sorted_logic::Text;
use std::alloc::Global;
use std::test::Fail;
use test_tables::{answered, push_bytes, push_number};

/// Writes the line of the token, the token, and `|`. Names, numbers and other words have their kind in front.
fn push_placed(alloc: Global, text: &mut String, placed: &Placed) -> Result<(), Fail> {
    write!(text, "{} ", placed.line)?;
    match &placed.token {
        Token::Keyword(keyword) => text.push_str(keyword_text(alloc, *keyword)?.as_str())?,
        Token::Name(name) => write!(text, "name {}", name.as_str())?,
        Token::Digits(digits) => write!(text, "digits {}", digits.as_str())?,
        Token::Word(word) => write!(text, "word {}", word.as_str())?,
        Token::Quoted(quoted) => write!(text, "\"{}\"", quoted.as_str())?,
        Token::Sign(sign) => write!(text, "{sign:?}")?,
        Token::Bad => text.push_str("bad")?,
    }
    text.push('|')?;
    Ok(())
}

fn push_tokens(alloc: Global, given: &str, text: &mut String) -> Result<(), Fail> {
    let placed = tokens(alloc, given.as_bytes())?;
    for one in &placed {
        push_placed(alloc, text, one)?;
    }
    Ok(())
}

/// Scripts, and their tokens.
const TOKENS: &str = " => ~
LOAD IOS \"edge.cfg\" AS r; => 1 LOAD|1 IOS|1 \"edge.cfg\"|1 AS|1 name r|1 Semicolon|~
1x _a a-1 007 show SHOWN => 1 word 1x|1 word _a|1 name a-1|1 digits 007|1 name show|1 name SHOWN|~
<req>:,.=?()[]; => 1 Request|1 Colon|1 Comma|1 Dot|1 Equals|1 Question|1 Open|1 Close|\
1 OpenBracket|1 CloseBracket|1 Semicolon|~
";

#[test]
fn scripts_have_tokens(rt: HostRuntime) -> Result<(), Fail> {
    let text = answered(rt.alloc(), TOKENS, "~\n", push_tokens)?;
    assert_eq!(rt; text.as_str(), TOKENS);
    Ok(())
}

/// Comments, and line breaks between any two tokens. A comment begins where a token would, so `a--b` is a name.
const LINES: &str = "-- a comment
SHOW ONE; -- and one more
-- the last => 2 SHOW|2 ONE|2 Semicolon|~
r
.acl\t.\r

10 => 1 name r|2 Dot|2 name acl|2 Dot|4 digits 10|~
a--b --c => 1 name a--b|~
SHOW--ONE
;--
; => 1 name SHOW--ONE|2 Semicolon|3 Semicolon|~
";

#[test]
fn comments_and_line_breaks_part_tokens(rt: HostRuntime) -> Result<(), Fail> {
    let text = answered(rt.alloc(), LINES, "~\n", push_tokens)?;
    assert_eq!(rt; text.as_str(), LINES);
    Ok(())
}

/// Quoted texts end on their line, and have no tab in them. Bytes that are no token end the list.
const QUOTED_AND_WRONG: &str =
    "\"two words\".\"\" \"-- SHOW\" => 1 \"two words\"|1 Dot|1 \"\"|1 \"-- SHOW\"|~
AS \"two
words\"; => 1 AS|1 bad|~
\"a\tb\" => 1 bad|~
\"open => 1 bad|~
SHOW
%ONE; => 1 SHOW|2 bad|~
<re> => 1 bad|~
a - b => 1 name a|1 bad|~
caf\u{e9} => 1 name caf|1 bad|~
";

#[test]
fn wrong_bytes_end_the_tokens(rt: HostRuntime) -> Result<(), Fail> {
    let text = answered(rt.alloc(), QUOTED_AND_WRONG, "~\n", push_tokens)?;
    assert_eq!(rt; text.as_str(), QUOTED_AND_WRONG);
    Ok(())
}

fn push_spelled(alloc: Global, given: &str, text: &mut String) -> Result<(), Fail> {
    push_number(text, number(&Text::of(alloc, given)?))
}

/// Texts, and the numbers that they spell: of 39 digits, below 2^128 and not, and of 40.
const NUMBERS: &str = "0 => 0~
007 => 7~
100000000000000000000000000000000000000 => 100000000000000000000000000000000000000~
340282366920938463463374607431768211455 => 340282366920938463463374607431768211455~
340282366920938463463374607431768211456 => none~
0340282366920938463463374607431768211455 => 340282366920938463463374607431768211455~
1000000000000000000000000000000000000000 => none~
+1 => none~
1x => none~
 => none~
";

#[test]
fn numbers_are_below_2_to_the_128(rt: HostRuntime) -> Result<(), Fail> {
    let text = answered(rt.alloc(), NUMBERS, "~\n", push_spelled)?;
    assert_eq!(rt; text.as_str(), NUMBERS);
    Ok(())
}

fn push_last_line(_alloc: Global, given: &str, text: &mut String) -> Result<(), Fail> {
    write!(text, "{}", last_line(given.as_bytes()))?;
    Ok(())
}

/// Texts, and the line of their last byte.
const LAST_LINES: &str = " => 1~
SHOW => 1~
SHOW
 => 1~
SHOW
ONE => 2~


 => 2~
";

#[test]
fn a_line_feed_is_on_the_line_that_it_ends(rt: HostRuntime) -> Result<(), Fail> {
    let text = answered(rt.alloc(), LAST_LINES, "~\n", push_last_line)?;
    assert_eq!(rt; text.as_str(), LAST_LINES);
    Ok(())
}

/// The tokens of a text as one line, behind a comment that stands there already.
fn line_of(alloc: Global, given: &str) -> Result<Vec<u8>, Fail> {
    let mut line = Vec::new(alloc);
    for placed in tokens(alloc, given.as_bytes())? {
        line.push(placed.token)?;
    }
    let mut bytes = Vec::new(alloc);
    bytes.extend_from_slice(b"-- \n")?;
    push_line(alloc, &mut bytes, line.as_slice())?;
    Ok(bytes)
}

fn push_written(alloc: Global, given: &str, text: &mut String) -> Result<(), Fail> {
    let bytes = line_of(alloc, given)?;
    push_bytes(text, bytes.as_slice())
}

/// Texts, and their tokens written as one line behind a comment.
const WRITTEN: &str = " => -- \n
~
LOAD   IOS\"edge.cfg\"AS
r ; => -- \nLOAD IOS \"edge.cfg\" AS r;
~
EXPLORE[x:Address]r . acl . 10 : permit ( <req> )AND(src_in IN 10 .1. 1.5 0.0.0.1)UNDER a,b; \
=> -- \nEXPLORE [x:Address] r.acl.10:permit(<req>) AND (src_in IN 10.1.1.5 0.0.0.1) UNDER a, b;
~
EXPLORE x=f(y,<req>)OR z; => -- \nEXPLORE x = f(y, <req>) OR z;
~
";

#[test]
fn tokens_are_written_as_a_line(rt: HostRuntime) -> Result<(), Fail> {
    let text = answered(rt.alloc(), WRITTEN, "~\n", push_written)?;
    assert_eq!(rt; text.as_str(), WRITTEN);
    Ok(())
}

#[test]
fn laws_of_tokens() {
    keywords_differ();
    one_list_of_tokens();
    lines_are_read_back();
}
