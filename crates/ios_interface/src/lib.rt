//! The lines of the blocks of interfaces in a configuration of Cisco IOS, and the interfaces that they make.
//!
//! `Draft::read_line` takes what the words of a line say into the draft of one interface, leaves it as it is where the
//! line is ignored, or says why the line is refused; `Draft::finish` gives the interface. `Interfaces` has the drafts of
//! a whole configuration: `open` finds or begins the block of a heading, `take_line` takes a line of a block, and
//! `finish` gives the interfaces, each with its number.
//! What reads a configuration takes the blocks of its interfaces so.
#![tactic(auto)]

mod access_group;
mod address_line;
mod draft;
mod fault;
mod heading;
mod interfaces;
mod kind;
mod laws;
mod openings;

pub use draft::Draft;
pub use interfaces::Interfaces;
pub use ios_lex::{LineFault, Taken};
pub use laws::{one_heading, one_line};
pub use std::alloc::AllocError as NoMemory;
