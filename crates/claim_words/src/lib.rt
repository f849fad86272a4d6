//! What is claimed of the histories of runs, as definitions: that each moment is sound, which steps of the small machine a history has,
//! and at which of its steps a command's answer is decided.
#![tactic(auto)]
