//! What is owed of the programs of commands, and what follows from it in every run, whatever the programs: the small machine follows the
//! run, and each answer is explained by the history before it. What is owed is a record of laws, which a family of commands proves as the
//! contract of one function; what follows stands in the proofs of this crate, and so does what is owed of a part of a command.
#![tactic(auto)]
