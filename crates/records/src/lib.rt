// The records of a data sheet. Document 01, "Sheet"; document 02, C-13.
#![tactic(auto)]

pub mod bytes; // little-endian numbers, read in place
pub mod kind; // what a record holds
pub mod layout; // the records: rules 1 to 5, and where each begins
pub mod places; // the records found, and the values' places
pub mod reader; // a record reader on the caller's sheet
pub mod refusal; // the refusals, and their numbers
pub mod rules; // rules 2, 3 and 4 of one record
