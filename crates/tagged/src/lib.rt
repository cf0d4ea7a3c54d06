// The tagged form: limits, answers, sorts of fields, numbers in bytes, fields, declarations, rows, and parts of a file.
#![tactic(auto)]

pub mod answers;
pub mod bytes;
pub mod declarations;
pub mod fields;
pub mod files;
pub mod limits;
pub mod names;
pub mod parts;
pub mod payload;
pub mod rows;
pub mod sorts;
pub mod walk;
