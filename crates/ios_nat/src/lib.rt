//! Cisco IOS address translation: how a line of a configuration is read into a table, and how the static entries of a
//! table change a packet's addresses and ports.
//!
//! `NatTable::fixed_source` and `NatTable::destination` say what the first static entry that fits says, and take no
//! memory. `NatTable::read_line` adds what the words of a line spell, or says why nothing is added.
//! What reads a configuration reads its lines of translation into one such table.
#![tactic(auto)]

mod address_entries;
mod dynamics;
mod entry;
mod fault;
mod kind;
mod laws;
mod openings;
mod pool_lines;
mod pools;
mod port_entries;
mod statics;
mod table;

pub use entry::{AddressEntry, DynamicEntry, DynamicFrom, PortEntry};
pub use fault::NatFault;
pub use laws::one_reading;
pub use std::alloc::AllocError as NoMemory;
pub use table::NatTable;
