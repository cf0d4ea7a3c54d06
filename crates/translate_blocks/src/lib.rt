// Statements, blocks and processes translated over a file's bytes, and the drives at their end: what the call of crate translator makes its passes with.
#![tactic(auto)]

pub mod blocks;
pub mod case_log;
pub mod emit;
pub mod ends;
pub mod expression;
pub mod merge;
pub mod table;
