//! Scripts, answers and dump lines as text.
#![tactic(auto)]

mod answers;
mod dump;
mod ids;
mod report;
#[cfg(test)]
mod tests;
mod words;

pub use report::{write_answer, write_dump};
pub use script_forms::ScriptFault;
pub use script_reader::{read_script, write_line};
pub use script_words::Limit;
