// A file as a block: types, one subject, clauses, end. Its length or its first faulty line refuses it: refusals 2 to 9, in their order.
#![tactic(auto)]

pub mod file;
pub mod line;
