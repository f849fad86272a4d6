//! The store beside its past: what was made, the holds that were granted and where each node is named. What each request does to the past,
//! what it needs and teaches, and what may have been done from one moment to another.
#![tactic(auto)]
