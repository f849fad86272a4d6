//! What is proved of a part of a command, so that a command made of parts keeps the laws of programs. That the walk and the release do, and
//! that a part which does is a kind of commands that does, stands in the proofs of this crate. Nothing here is called.
#![tactic(auto)]
