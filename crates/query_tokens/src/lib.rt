//! The tokens of a script.
//!
//! `tokens` cuts the bytes of a script into tokens, each with its line; each text has exactly one list of them, and
//! where bytes are no token the list ends with one that says so. `push_line` writes tokens as a line that has exactly
//! these tokens. `query_lang` reads statements from such lists, and writes them.
#![tactic(auto)]

mod gap;
mod keyword;
mod line;
mod numbers;
mod quoted;
mod scan;
mod sign;
mod token;
mod word;
mod writing;

pub use keyword::{Keyword, keywords_differ};
pub use line::last_line;
pub use numbers::number;
pub use scan::{one_list_of_tokens, tokens};
pub use std::alloc::AllocError as NoMemory;
pub use token::{Placed, Sign, Token};
pub use word::{is_name, keyword_text};
pub use writing::{lines_are_read_back, push_line};
