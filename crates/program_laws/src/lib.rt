//! What is proved of programs, as definitions: what a command knows where it stands, when its answer is decided, and the laws by which
//! every moment of every run of such programs is sound. Nothing here is called.
#![tactic(auto)]
