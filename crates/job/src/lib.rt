// Jobs: commands from bytes, the work area, and the check of a whole job.
#![tactic(auto)]

mod bytes;
mod decode;
mod operations;
pub mod reader;
mod reading;
mod reports;
pub mod run;
mod step;
pub mod types;
pub mod work;
