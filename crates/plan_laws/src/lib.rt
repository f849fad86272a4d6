//! A plan that is read can be played by the commands that are served, and has few clients. Nothing here is called.
#![tactic(auto)]
