//! Cisco IOS configurations: the router that their lines make, and the request that it judges.
//!
//! `read_config` gives the router of a file and adds the names of its interfaces to the table of all, or says which line is
//! refused, and why. `Router::sources` says what the source of a packet becomes by address translation. What a request is
//! stands here, since all that speaks of routers speaks of it; its fifteen fields are those of `sorted_logic`.
//! `session` loads routers with it.
#![tactic(auto)]

mod command;
mod draft;
mod fault;
mod laws;
mod router;
mod source_choice;

pub use fault::ConfigFault;
pub use ios_names::NameTable;
pub use laws::{one_config, own_lines, written_list};
pub use router::{Router, read_config};
pub use source_choice::SourceChoice;
pub use std::alloc::AllocError as NoMemory;
