// What works on a store in a lent buffer, over any type of values, any layout and any rule: values are written one after
// another, the wires of a table take theirs along their order, its registers are staged and written together, and rounds
// are made until one changes no register. The passes that differ in nothing else are here as functions, and the laws of
// all of them.
#![tactic(auto)]

pub mod pass;
pub mod plan;
pub mod rule;
pub mod store;
