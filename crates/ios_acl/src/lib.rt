//! Cisco IOS access lists: how a line is read into an entry, what a list decides, and how it is written.
//!
//! `Acl::decide` says for every packet what the first matching entry in the order of their numbers says, deny by
//! default, and takes no memory. `Acl::read_line` adds the entry that the words of a line spell, or says why none is
//! added, and `write_acl` writes a list as words that are read as it.
//! `ios_config` reads the lines of a configuration into such lists.
#![tactic(auto)]

mod access_list;
mod endings;
mod entry;
mod fault;
mod laws;
mod numbers;
mod packet;
mod places;
mod port_tests;
mod spelled;
mod written;

pub use access_list::Acl;
pub use entry::{Entry, Ports, Verdict};
pub use fault::{AclFault, is_unmodelled, unmodelled};
pub use laws::{established_bits, one_reading};
pub use packet::Packet;
pub use std::alloc::AllocError as NoMemory;
pub use written::{is_block_name, write_acl};
