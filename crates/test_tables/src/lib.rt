//! What the tests of several crates are written with: tables, and what their rows write.
//!
//! A table is one text. A row is what is given, ` => `, what is wanted, and an end that stands nowhere else. A test writes
//! the same table with the answers of now and compares the two. No clause says what stands here: a row that is written
//! wrongly fails its test. The crates `scenarios_...` stand above.
#![tactic(auto)]

mod reasons;
mod table;
mod values;

pub use reasons::push_reason;
pub use table::answered;
pub use values::{parted, push_answer, push_bytes, push_number, push_packet};
