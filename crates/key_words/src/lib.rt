//! Words and laws of finite maps at the keys of the store: what is found there after a change, and the entries of one directory.
#![tactic(auto)]
