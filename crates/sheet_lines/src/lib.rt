// The sheet's layout, document 01, 'Sheet': readers and writers of answers and lines. Calls and records are crates of their own.
#![tactic(auto)]

pub mod answers;
pub mod front;
pub mod lines;
