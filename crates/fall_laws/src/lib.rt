//! What is owed of the programs of commands so that each command takes few transactions, in every run and whatever the programs; and what
//! is owed for that of a part of a command. What is owed is a record of laws, which a family of commands proves as the contract of one
//! function; what follows stands in the proofs of this crate.
#![tactic(auto)]
