//! When the store beside its past is sound; each request whose needs are met keeps it so, and teaches what its role says. So does giving
//! up. In a sound world each row of a file stands for a whole block, and a hold of a row that may still be bound is bound nowhere.
#![tactic(auto)]
