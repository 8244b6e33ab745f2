use ios_lex::{
    Dotted, Due, IosReason, LexFault, Line, Word, address, byte, four_parts, icmp, is_foreign,
    is_name, is_number_of, kind_of, lines, list_number, number, one_address, one_line_reading,
    one_name, opening_words, port, prefix_len, protocol, reason_of, split_at_byte, stop_before,
    table_at, words_in,
};
use std::alloc::Global;
use std::test::Fail;
use test_tables::{answered, parted, push_answer, push_bytes, push_number, push_reason};

const ADDRESSES: &str = "0.0.0.0 => 0
10.1.1.5 => a010105
010.001.1.05 => a010105
255.255.255.255 => ffffffff
256.0.0.1 => none
0001.0.0.1 => none
1.2.3 => none
1.2.3.4.5 => none
1..3.4 => none
1.2.3.4  => none
 => none
";

fn push_address(_alloc: Global, given: &str, text: &mut String) -> Result<(), Fail> {
    match address(given.as_bytes()) {
        Some(n) => write!(text, "{n:x}")?,
        None => text.push_str("none")?,
    }
    Ok(())
}

#[test]
fn addresses_have_four_bytes(rt: HostRuntime) -> Result<(), Fail> {
    let text = answered(rt.alloc(), ADDRESSES, "\n", push_address)?;
    assert_eq!(rt; text.as_str(), ADDRESSES);
    Ok(())
}

#[test]
fn addresses_are_written_with_dots(rt: HostRuntime) -> Result<(), Fail> {
    let (first, second, third) = (Dotted(0), Dotted(0x0a01_0105), Dotted(0xffff_00ff));
    let text = format!(in rt.alloc(); "{first} {second} {third}")?;
    assert_eq!(rt; text.as_str(), "0.0.0.0 10.1.1.5 255.255.0.255");
    Ok(())
}

/// The greatest number that is read, a blank, and the word.
const NUMBERS: &str = "0 0 => 0
7 007 => 7
7 8 => none
9999999999 4294967296 => 4294967296
9 00000000001 => none
99 1x => none
99  => none
";

fn push_number_of(_alloc: Global, given: &str, text: &mut String) -> Result<(), Fail> {
    let (max, word) = parted(given)?;
    push_number(
        text,
        number(word.as_bytes(), max.parse::<u64>()?).map(u128::from),
    )
}

#[test]
fn numbers_have_one_to_ten_digits(rt: HostRuntime) -> Result<(), Fail> {
    let text = answered(rt.alloc(), NUMBERS, "\n", push_number_of)?;
    assert_eq!(rt; text.as_str(), NUMBERS);
    Ok(())
}

const BYTES: &str = "255 => 255
256 => none
";

fn push_byte(_alloc: Global, given: &str, text: &mut String) -> Result<(), Fail> {
    push_number(text, byte(given.as_bytes()).map(u128::from))
}

#[test]
fn bytes_end_at_255(rt: HostRuntime) -> Result<(), Fail> {
    let text = answered(rt.alloc(), BYTES, "\n", push_byte)?;
    assert_eq!(rt; text.as_str(), BYTES);
    Ok(())
}

/// A word, and whether a copy of it is the word `access-list`.
const WORDS: &str = "access-list => access-list yes
access => access no
";

fn push_copy(alloc: Global, given: &str, text: &mut String) -> Result<(), Fail> {
    let word = Word::of(alloc, given.as_bytes())?.copy(alloc)?;
    push_bytes(text, word.bytes())?;
    text.push(' ')?;
    push_answer(text, word.is("access-list"))
}

#[test]
fn words_are_kept(rt: HostRuntime) -> Result<(), Fail> {
    let text = answered(rt.alloc(), WORDS, "\n", push_copy)?;
    assert_eq!(rt; text.as_str(), WORDS);
    Ok(())
}

/// Texts, cut at their first `-`.
const CUTS: &str = "a-b-c => a|b-c
abc => none
";

fn push_cut(_alloc: Global, given: &str, text: &mut String) -> Result<(), Fail> {
    let Some((front, back)) = split_at_byte(given.as_bytes(), b'-') else {
        text.push_str("none")?;
        return Ok(());
    };
    push_bytes(text, front)?;
    text.push('|')?;
    push_bytes(text, back)
}

#[test]
fn texts_are_cut_at_a_byte(rt: HostRuntime) -> Result<(), Fail> {
    let text = answered(rt.alloc(), CUTS, "\n", push_cut)?;
    assert_eq!(rt; text.as_str(), CUTS);
    Ok(())
}

/// Texts, cut at their first three points.
const FOUR_PARTS: &str = "1..3.4.5 => 1||3|4.5
1.2.3 => none
";

fn push_parts(_alloc: Global, given: &str, text: &mut String) -> Result<(), Fail> {
    let Some((first, second, third, fourth)) = four_parts(given.as_bytes()) else {
        text.push_str("none")?;
        return Ok(());
    };
    push_bytes(text, first)?;
    text.push('|')?;
    push_bytes(text, second)?;
    text.push('|')?;
    push_bytes(text, third)?;
    text.push('|')?;
    push_bytes(text, fourth)
}

#[test]
fn texts_are_cut_at_three_points(rt: HostRuntime) -> Result<(), Fail> {
    let text = answered(rt.alloc(), FOUR_PARTS, "\n", push_parts)?;
    assert_eq!(rt; text.as_str(), FOUR_PARTS);
    Ok(())
}

const PROTOCOLS: &str = "icmp => 1
ahp => 51
pim => 103
255 => 255
256 => none
ip => none
TCP => none
 => none
";

fn push_protocol(_alloc: Global, given: &str, text: &mut String) -> Result<(), Fail> {
    push_number(text, protocol(given.as_bytes()).map(u128::from))
}

#[test]
fn protocols_have_names_or_numbers(rt: HostRuntime) -> Result<(), Fail> {
    let text = answered(rt.alloc(), PROTOCOLS, "\n", push_protocol)?;
    assert_eq!(rt; text.as_str(), PROTOCOLS);
    Ok(())
}

/// Writes the type of a message, with the code where only one is meant, or `none`.
pub(crate) fn push_message(
    text: &mut String,
    message: Option<(u8, Option<u8>)>,
) -> Result<(), Fail> {
    match message {
        Some((kind, Some(code))) => write!(text, "{kind} {code}")?,
        Some((kind, None)) => write!(text, "{kind}")?,
        None => text.push_str("none")?,
    }
    Ok(())
}

/// Names and numbers of messages, and the type, with the code where only one is meant.
const MESSAGES: &str = "echo => 8
echo-reply => 0
port-unreachable => 3 3
traceroute => 30
13 => 13
256 => none
echo- => none
";

fn push_icmp(_alloc: Global, given: &str, text: &mut String) -> Result<(), Fail> {
    push_message(text, icmp(given.as_bytes()))
}

#[test]
fn messages_have_names_or_numbers(rt: HostRuntime) -> Result<(), Fail> {
    let text = answered(rt.alloc(), MESSAGES, "\n", push_icmp)?;
    assert_eq!(rt; text.as_str(), MESSAGES);
    Ok(())
}

/// The ports of a name or a number under TCP and under UDP.
const PORTS: &str = "www => 80 none
domain => 53 53
syslog => none 514
kshell => 544 none
non500-isakmp => none 4500
65535 => 65535 65535
65536 => none none
80x => none none
";

fn push_ports(_alloc: Global, given: &str, text: &mut String) -> Result<(), Fail> {
    push_number(text, port(given.as_bytes(), true).map(u128::from))?;
    text.push(' ')?;
    push_number(text, port(given.as_bytes(), false).map(u128::from))
}

#[test]
fn ports_have_names_or_numbers(rt: HostRuntime) -> Result<(), Fail> {
    let text = answered(rt.alloc(), PORTS, "\n", push_ports)?;
    assert_eq!(rt; text.as_str(), PORTS);
    Ok(())
}

const MASKS: &str = "0.0.0.0 => 0
128.0.0.0 => 1
255.255.255.0 => 24
255.255.255.255 => 32
0.0.0.255 => none
255.0.255.0 => none
0.0.0.1 => none
";

fn push_prefix(_alloc: Global, given: &str, text: &mut String) -> Result<(), Fail> {
    let mask = address(given.as_bytes()).ok_or("no mask")?;
    push_number(text, prefix_len(mask).map(u128::from))
}

#[test]
fn masks_have_ones_and_then_zeros(rt: HostRuntime) -> Result<(), Fail> {
    let text = answered(rt.alloc(), MASKS, "\n", push_prefix)?;
    assert_eq!(rt; text.as_str(), MASKS);
    Ok(())
}

/// Lines, and a stroke before each of their words.
const GAPS: &str = " \tip  access-list\textended A  => |ip|access-list|extended|A
 \t  => \n";

fn push_words(text: &mut String, words: &[Word]) -> Result<(), Fail> {
    for word in words {
        text.push('|')?;
        push_bytes(text, word.bytes())?;
    }
    Ok(())
}

fn push_words_in(alloc: Global, given: &str, text: &mut String) -> Result<(), Fail> {
    let words = words_in(alloc, given.as_bytes())?;
    push_words(text, words.as_slice())
}

#[test]
fn words_stand_between_gaps(rt: HostRuntime) -> Result<(), Fail> {
    let text = answered(rt.alloc(), GAPS, "\n", push_words_in)?;
    assert_eq!(rt; text.as_str(), GAPS);
    Ok(())
}

/// Texts, and their lines: the number, `>` if indented, `#` if of a banner, and a stroke before each word.
const LINES: &str = " => ~
\n => ~
a b\n\n!c\n \td  e\t\n ! f => 1|a|b 4>|d|e ~
a\r\n\r\nb\r => 1|a 3|b\r ~
banner motd #Hi\n\n!x\n y# z\n!\nend => 1#|banner|motd|#Hi 2# 3#|!x 4>#|y#|z 6|end ~
banner motd ^CHi\na ^ C\nb^Cc\nend\n => 1#|banner|motd|^CHi 2#|a|^|C 3#|b^Cc 4|end ~
banner motd #a# b\n!c\nd => 1#|banner|motd|#a#|b 3|d ~
a\nbanner motd #\nb\n => unclosed 2~
banner motd #\nb#\nbanner exec ^C => unclosed 3~
banner motd\nb => 1|banner|motd 2|b ~
 banner motd #\nb => 1>|banner|motd|# 2|b ~
banners motd #\nb => 1|banners|motd|# 2|b ~
banner\tmotd \t#\nb# => 1#|banner|motd|# 2#|b# ~
banner motd ^\nCb^ => 1#|banner|motd|^ 2#|Cb^ ~
";

fn push_line(text: &mut String, line: &Line) -> Result<(), Fail> {
    write!(text, "{}", line.number)?;
    if line.indented {
        text.push('>')?;
    }
    if line.banner {
        text.push('#')?;
    }
    push_words(text, line.words.as_slice())?;
    text.push(' ')?;
    Ok(())
}

fn push_lines(alloc: Global, given: &str, text: &mut String) -> Result<(), Fail> {
    match lines(alloc, given.as_bytes()) {
        Ok(lines) => {
            for line in lines.as_slice() {
                push_line(text, line)?;
            }
        }
        Err(LexFault::Unclosed { line }) => write!(text, "unclosed {line}")?,
        Err(LexFault::NoMemory) => text.push_str("no memory")?,
    }
    Ok(())
}

#[test]
fn lines_and_banners_are_read(rt: HostRuntime) -> Result<(), Fail> {
    let text = answered(rt.alloc(), LINES, "~\n", push_lines)?;
    assert_eq!(rt; text.as_str(), LINES);
    Ok(())
}

/// Names of lists: the number, the kind, whether lists of that number are of another protocol, whether the name is the
/// number of an extended list, and whether it is a name.
const LIST_NAMES: &str = "10 => 10 standard no no yes
0100 => 100 extended no yes yes
200 => 200 neither yes no yes
1299 => 1299 neither yes no yes
1300 => 1300 standard no no yes
2699 => 2699 extended no yes yes
2700 => 2700 neither no no yes
EDGE => none no yes
two words => none no no
say\" => none no no
";

fn kind_name(n: u64) -> &'static str {
    match kind_of(n) {
        Some(true) => "extended",
        Some(false) => "standard",
        None => "neither",
    }
}

fn push_list_number(text: &mut String, name: &[u8]) -> Result<(), Fail> {
    match list_number(name) {
        Some(n) => {
            write!(text, "{n} {} ", kind_name(n))?;
            push_answer(text, is_foreign(n))
        }
        None => Ok(text.push_str("none")?),
    }
}

fn push_list_name(_alloc: Global, given: &str, text: &mut String) -> Result<(), Fail> {
    push_list_number(text, given.as_bytes())?;
    text.push(' ')?;
    push_answer(text, is_number_of(given.as_bytes(), true))?;
    text.push(' ')?;
    push_answer(text, is_name(given.as_bytes()))
}

#[test]
fn lists_have_names_or_numbers(rt: HostRuntime) -> Result<(), Fail> {
    let text = answered(rt.alloc(), LIST_NAMES, "\n", push_list_name)?;
    assert_eq!(rt; text.as_str(), LIST_NAMES);
    Ok(())
}

/// Lines whose first word stands where a number or a name is due, and `evaluate` is not modelled; the reason, and how many
/// words are left.
const REASONS: &str = "7 permit => bad number 2
out => unknown name 1
evaluate x y => unmodelled evaluate 3
";

fn push_reason_of(alloc: Global, given: &str, text: &mut String) -> Result<(), Fail> {
    let words = words_in(alloc, given.as_bytes())?;
    let word = words.as_slice().first().ok_or("no word")?;
    let stop = stop_before(words.as_slice(), Due::Number);
    let table = table_at(1, &["permit"], &["evaluate"], 1);
    let reason = reason_of(alloc, word, table, stop.due, IosReason::BadMask)?;
    push_reason(text, &reason)?;
    write!(text, " {}", stop.left)?;
    Ok(())
}

#[test]
fn lines_are_refused_at_a_word(rt: HostRuntime) -> Result<(), Fail> {
    let text = answered(rt.alloc(), REASONS, "\n", push_reason_of)?;
    assert_eq!(rt; text.as_str(), REASONS);
    Ok(())
}

#[test]
fn laws_of_words_and_lines() {
    one_address();
    one_name();
    one_line_reading();
    opening_words();
}
