//! Scripts are read by descent over their tokens: each function reads one part from a place on, and answers its value
//! and the place behind it, or where it stops.

pub mod ahead;
pub mod atoms;
pub mod commands;
pub mod explore;
pub mod formulas;
pub mod literals;
pub mod paths;
pub mod statements;
pub mod stop;
pub mod terms;
pub mod variables;
