//! Tests of the readers. Those of IOS read words and lines (`ios_lex`), access lists (`ios_acl`) and configurations
//! (`ios_config`), those of scripts the tokens (`query_tokens`), how a script is written (`query_lang`) and what a
//! question about a list asks (`list_questions`). A module or two for each crate that is tested.
//!
//! Each test is a table (`test_tables`). Values come from the documents of IOS, from what is documented of scripts, and from
//! examples that were worked by hand. Nothing stands above this crate.
#![tactic(auto)]

#[cfg(test)]
mod access_lists;
#[cfg(test)]
mod configurations;
#[cfg(test)]
mod lines_and_words;
#[cfg(test)]
mod questions_about_lists;
#[cfg(test)]
mod script_tokens;
#[cfg(test)]
mod written_lists;
#[cfg(test)]
mod written_scripts;
