//! Laws of lists: what stands where in a list that is shared out one after another, in a part of one, and in two pair by pair.
#![tactic(auto)]
