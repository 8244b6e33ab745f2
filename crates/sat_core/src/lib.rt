//! A search that learns, whose answers are checked.
#![tactic(auto)]

mod derivation;
mod engine;
mod fault;
mod learner;
mod search;
mod solved;
mod solver;
mod source;
mod split;
mod steps;
mod store;
mod walk;

pub use cnf::NoMemory;
pub use fault::AddFault;
pub use solved::Solved;
pub use solver::{Mark, Solver};
pub use steps::Steps;
