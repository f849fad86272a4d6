//! What is claimed of a replay's history, and of what was written of it.
#![tactic(auto)]
