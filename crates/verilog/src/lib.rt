// Modules of the Verilog subset: their definitions stand in specs/. The code here reads the form, refusal 2, and parts of a file; the check and the run stand in crates of their own.
#![tactic(auto)]

pub mod form;
pub mod parts;
mod reader;
pub mod reading;
