//! Runs of the whole world: how each actor stands in one, which scripts their clients can do, and how one comes of what each actor does of
//! its own.
#![tactic(auto)]
