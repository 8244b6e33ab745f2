use crate::unmodelled::help_for;
use session::Reason;

/// What a reason means, and the likeliest cure.
#[derive(Clone, Copy, Debug)]
pub(crate) struct Meaning {
    pub(crate) title: &'static str,
    pub(crate) help: &'static str,
}

fn says(title: &'static str, help: &'static str) -> Meaning {
    Meaning { title, help }
}

/// What a reason means.
pub(crate) fn meaning_of(reason: &Reason) -> Meaning {
    match reason {
        Reason::NotBuilt
        | Reason::TooLong { .. }
        | Reason::Syntax
        | Reason::Depth
        | Reason::NoExplore
        | Reason::Duplicate
        | Reason::UnknownPolicy
        | Reason::OutOfRange
        | Reason::Arity => script_meaning(reason),
        Reason::UnknownName
        | Reason::BadAddress
        | Reason::BadNumber
        | Reason::BadMask
        | Reason::BadEntry => word_meaning(reason),
        Reason::Unmodelled(word) => says(
            "this changes which packets pass, in a way that is not modelled",
            help_for(word),
        ),
        _ => whole_meaning(reason),
    }
}

/// What a reason means for which a script is refused.
fn script_meaning(reason: &Reason) -> Meaning {
    match reason {
        Reason::NotBuilt => says(
            "this release does not carry this statement out",
            "it answers what one access list decides of the packet that comes in; docs/language.md says which tests it knows",
        ),
        Reason::TooLong { .. } => says(
            "the file has more than 4,194,304 bytes",
            "split the script, or leave out of the configuration what is not needed",
        ),
        Reason::Depth => says(
            "more than 64 levels are open here",
            "parentheses, NOT, quantifiers, arguments and the right side of IMPLIES are a level each: write some as statements of their own",
        ),
        Reason::NoExplore => says("nothing has been asked yet", "put an EXPLORE before it"),
        Reason::Duplicate => says(
            "a router is loaded under this name already, or the name is `net`",
            "choose another name behind AS",
        ),
        Reason::UnknownPolicy => says(
            "no policy of this name is loaded",
            "behind UNDER stands `net` alone",
        ),
        Reason::OutOfRange => says(
            "a number is too great for its field, or a range ends before it begins",
            "addresses have 32 bits, ports end at 65535, flags at 63, and protocols and ICMP numbers at 255",
        ),
        Reason::Arity => says(
            "a packet has eight numbers",
            "in order: source, destination, source port, destination port, protocol, flags, ICMP type, ICMP code",
        ),
        _ => says(
            "no script goes on like this",
            "docs/language.md says what to write; each statement ends with `;`",
        ),
    }
}

/// What a reason means for which a word of a configuration is refused, or a name of a script.
fn word_meaning(reason: &Reason) -> Meaning {
    match reason {
        Reason::BadAddress => says(
            "an address or a wildcard is due here",
            "write four numbers to 255 joined by dots, or `any`, or `host` and an address",
        ),
        Reason::BadNumber => says(
            "a number is due here, and this is none in range",
            "ports end at 65535, protocols and ICMP numbers at 255, entries at 2147483647; a range does not end before it begins",
        ),
        Reason::BadMask => says(
            "this is no mask of the address before it",
            "a mask is ones and then zeros, as 255.255.255.0, and the address has no bits outside of it",
        ),
        Reason::BadEntry => says(
            "no line goes on like this, or it ends too early",
            "docs/ios-profile.md says how lines that are read go on",
        ),
        _ => says(
            "this name is not known here",
            "write the number, or the name as a router prints it: whole, and in lower case",
        ),
    }
}

/// What a reason means that depends on other lines of the configuration.
fn whole_meaning(reason: &Reason) -> Meaning {
    match reason {
        Reason::WrongKind => says(
            "the list is of the other kind, or its number is of none",
            "1 to 99 and 1300 to 1999 are standard lists, 100 to 199 and 2000 to 2699 extended ones",
        ),
        Reason::DuplicateSequence => says(
            "an entry of this list has the number already",
            "give it another number, or none",
        ),
        Reason::NextHopNotConnected => says(
            "the next hop of this route is in no network of an interface that is up",
            "look at the addresses of the interfaces, and which are shut down",
        ),
        Reason::UnknownInterface => says(
            "the file has no interface of this name",
            "write the name as in its `interface` line",
        ),
        Reason::DuplicateStatic => says(
            "this side is translated by an earlier line",
            "keep one of the two lines",
        ),
        Reason::DuplicatePool => says(
            "there is a pool of this name already",
            "keep one of the two, or name it otherwise",
        ),
        Reason::UnknownPool => says(
            "the file has no pool of this name",
            "write the name as in its `ip nat pool` line",
        ),
        Reason::Unclosed => says(
            "the banner that begins here has no end",
            "its first character behind `banner` and a word ends it: write it once more at its end",
        ),
        _ => says(
            "there are more of these than are read",
            "a list has 5,000 entries at most, and all files together 65,536 names of interfaces",
        ),
    }
}
