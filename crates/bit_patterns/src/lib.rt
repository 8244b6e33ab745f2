//! Numbers as patterns of bits: which agree with a value on the bits that a wildcard leaves, and which lie in a range.
//!
//! `agrees` is the wildcard rule of access lists and of all tests of fields, stated here once for numbers of any width;
//! `wildcard_bits` says what it means bit by bit. `ios_acl` and `circuit` stand on it.
#![tactic(auto)]

mod patterns;

pub use patterns::{agrees, wildcard_bits};
