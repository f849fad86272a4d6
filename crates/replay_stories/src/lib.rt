//! How the lines of a plan are played one after another, what a replay of it is, and how far one has come.
#![tactic(auto)]
