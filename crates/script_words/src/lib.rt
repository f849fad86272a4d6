//! The words of a script, one by one: how each is spelled, and how it is read.
#![tactic(auto)]

mod hex;
mod limits;
mod names;
mod numbers;
mod paths;
mod spelling;
mod splitting;
mod words;

pub use hex::{hex_fit, read_hex};
pub use limits::{Fit, Limit};
pub use names::{is_client_name, is_name_form, is_world_word, layer_of};
pub use numbers::{count_fit, number_fit, read_number};
pub use paths::{path_fit, read_path, sibling_fit};
pub use spelling::{layer_word, push_hex, push_path};
pub use splitting::first_part;
pub use words::Words;
