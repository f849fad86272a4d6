//! What the clients of a race have done when some lines are done: each its own lines, by a story in parts that dumps end.
#![tactic(auto)]
