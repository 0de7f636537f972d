// The functions that C calls (include/dekvoz.h). A library exports nothing to C, so each of its functions that C calls stands here again, with the
// same clauses, and calls it.
#![tactic(auto)]

pub mod along;
pub mod arm64_records_read;
pub mod arm64_written;
pub mod fields;
pub mod files;
pub mod frames;
pub mod looked_up;
pub mod machine;
pub mod placed;
pub mod places;
pub mod sections;
pub mod sites;
pub mod structs;
pub mod symbols;
pub mod tables;
pub mod x64_records;
