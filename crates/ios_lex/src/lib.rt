//! Lines and words of IOS configurations, and what single words spell: addresses, numbers, the names of protocols, ports
//! and ICMP messages, and those of access lists; and which masks keep a prefix.
//!
//! A look-up answers None exactly where the word spells nothing of its kind, and takes no memory. Where words stop to
//! begin a line of some grammar, and for which reason the line is refused there, stands here too, since all readers of
//! such lines share it: the grammar is an argument.
//! `ios_acl` reads its lines with these words.
#![tactic(auto)]

mod addresses;
mod banner;
mod cut;
mod decimals;
mod fault;
mod line;
mod list_names;
mod masks;
mod names;
mod next;
mod openings;
mod raw_lines;
mod reason;
mod refusal;
mod stop;
mod taken;
mod word;
mod words;

pub use addresses::{Dotted, address, four_parts, one_address};
pub use banner::opening_words;
pub use cut::split_at_byte;
pub use decimals::{byte, number};
pub use fault::LineFault;
pub use line::{LexFault, Line, lines, one_line_reading};
pub use list_names::{is_foreign, is_name, is_number_of, kind_of, list_number};
pub use masks::prefix_len;
pub use names::{icmp, one_name, port, protocol};
pub use next::{
    first_address, is_name_beside, next_address, next_end, next_mask, next_name, next_number,
};
pub use openings::{behind, first_opening, unmodelled_words};
pub use reason::IosReason;
pub use refusal::{begins_with_digit, is_among, reason_of, stop_reason, table_at, unmodelled};
pub use std::alloc::AllocError as NoMemory;
pub use stop::{Due, Stop, stop_before};
pub use taken::Taken;
pub use word::Word;
pub use words::words_in;
