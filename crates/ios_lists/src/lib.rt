//! The access lists of a Cisco IOS configuration, while its lines are taken one after the other.
//!
//! `Lists::take_numbered`, `Lists::open` and `Lists::take_entry` say what a line makes of the lists, or why it is
//! refused, and leave the lists as they were then; no two lists have one name.
//! `ios_config` takes the lines of access lists with it.
#![tactic(auto)]

mod laws;
mod lists;
mod rules;

pub use ios_lex::Taken;
pub use laws::one_list_line;
pub use lists::Lists;
