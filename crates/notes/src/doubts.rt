use crate::near::{is_near, is_other_case};
use ios_lex::{Dotted, Line, Word, address, prefix_len};
use std::alloc::{AllocError, Global};

/// What of a line is probably not meant.
#[derive(Clone, Copy, Debug)]
pub(crate) enum Doubt {
    /// An entry's word of this place is a mask, behind an address.
    Mask { at: usize, address: u32, mask: u32 },
    /// A word is this command but for capitals.
    Capital(usize, &'static str),
    /// A word is almost this command.
    Misspelt(usize, &'static str),
    /// A list of IPv6 begins.
    Ipv6List,
}

impl Doubt {
    /// Which word of the line is meant.
    pub(crate) fn at(self) -> usize {
        match self {
            Doubt::Mask { at, .. } | Doubt::Capital(at, _) | Doubt::Misspelt(at, _) => at,
            Doubt::Ipv6List => 0,
        }
    }

    pub(crate) fn title(self) -> &'static str {
        match self {
            Doubt::Mask { .. } => "this entry has a mask where a wildcard stands",
            Doubt::Capital(..) => "this line is ignored: commands are in lower case",
            Doubt::Misspelt(..) => "this line is ignored, and is almost one that is read",
            Doubt::Ipv6List => "this line is ignored: lists of IPv6 are not read",
        }
    }

    pub(crate) fn help(self, alloc: Global) -> Result<String, AllocError> {
        match self {
            Doubt::Mask { address, mask, .. } => {
                let (address, wildcard) = (Dotted(address & mask), Dotted(!mask));
                format!(in alloc;
                    "a 1 in a wildcard is ignored; the network is {address} {wildcard}"
                )
            }
            Doubt::Capital(_, meant) | Doubt::Misspelt(_, meant) => {
                format!(in alloc; "write {meant}, if that is meant")
            }
            Doubt::Ipv6List => String::from_str(alloc, "only lists of IPv4 are asked about"),
        }
    }
}

/// What of a line outside banners is probably not meant, where it stands in the block of a list or not.
pub(crate) fn doubt_of(
    alloc: Global,
    line: &Line,
    in_list: bool,
) -> Result<Option<Doubt>, AllocError> {
    let words = line.words.as_slice();
    if begins_entry(words, in_list) {
        return Ok(mask_in(words));
    }
    match words {
        [first, second, ..] if first.is("ipv6") && second.is("access-list") => {
            Ok(Some(Doubt::Ipv6List))
        }
        [first, ..] => command_doubt(alloc, first, words.get(1), line.indented),
        [] => Ok(None),
    }
}

/// Whether the words are an entry of a list, numbered or in its block.
fn begins_entry(words: &[Word], in_list: bool) -> bool {
    match words {
        [first, second, ..] if in_list => is_verdict(first) || is_verdict(second),
        [first, _, third, ..] => first.is("access-list") && is_verdict(third),
        _ => false,
    }
}

fn is_verdict(word: &Word) -> bool {
    word.is("permit") || word.is("deny")
}

/// The commands that a line begins with, and those behind `ip`, outside of blocks and in them.
const COMMANDS: [&str; 3] = ["access-list", "interface", "ip"];

const IP_COMMANDS: [&str; 3] = ["access-list", "route", "nat"];

const BLOCK_COMMANDS: [&str; 2] = ["shutdown", "ip"];

const IP_BLOCK_COMMANDS: [&str; 3] = ["address", "access-group", "nat"];

/// Whether the first word, or behind `ip` the second, is almost a command.
fn command_doubt(
    alloc: Global,
    first: &Word,
    second: Option<&Word>,
    indented: bool,
) -> Result<Option<Doubt>, AllocError> {
    if first.is("ip") {
        let Some(second) = second else {
            return Ok(None);
        };
        let commands = if indented {
            &IP_BLOCK_COMMANDS
        } else {
            &IP_COMMANDS
        };
        return doubt_among(alloc, second, 1, commands);
    }
    if indented {
        doubt_among(alloc, first, 0, &BLOCK_COMMANDS)
    } else {
        doubt_among(alloc, first, 0, &COMMANDS)
    }
}

/// Whether the word is almost one of these.
fn doubt_among(
    alloc: Global,
    word: &Word,
    at: usize,
    commands: &[&'static str],
) -> Result<Option<Doubt>, AllocError> {
    for command in commands {
        if is_other_case(word.bytes(), command) {
            return Ok(Some(Doubt::Capital(at, command)));
        }
        if command.len() >= 8 && is_near(alloc, word.bytes(), command)? {
            return Ok(Some(Doubt::Misspelt(at, command)));
        }
    }
    Ok(None)
}

/// The first mask of an entry: ones and then zeros, behind an address that is not of a `host`.
fn mask_in(words: &[Word]) -> Option<Doubt> {
    let mut is_used = false;
    for at in 1..words.len() {
        if is_used {
            is_used = false;
            continue;
        }
        let before = &words[at - 1];
        let pair = pair_of(before, &words[at]);
        if let Some((address, mask)) = pair {
            if is_doubtful(address, mask) {
                return Some(Doubt::Mask { at, address, mask });
            }
        }
        is_used = before.is("host") || pair.is_some();
    }
    None
}

/// The two words, where they are an address and a wildcard.
fn pair_of(first: &Word, second: &Word) -> Option<(u32, u32)> {
    Some((address(first.bytes())?, address(second.bytes())?))
}

/// Whether the wildcard is ones and then zeros, and not all addresses are meant.
fn is_doubtful(address: u32, wildcard: u32) -> bool {
    wildcard != 0 && prefix_len(wildcard).is_some() && (wildcard != u32::MAX || address != 0)
}
