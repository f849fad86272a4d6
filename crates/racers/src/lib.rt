//! A racer: a client, and the lines of its answers. It is a player, wherever the requests of its client are committed.
#![tactic(auto)]

mod player;
mod racer;

pub use racer::{Racer, play_act};
