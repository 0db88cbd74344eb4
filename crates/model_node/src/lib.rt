//! The model of a node: what a command does on its devices, what a run of lines is, how a run ends, and what it promises; with laws of
//! them. Its code is the ends of a run, and what a command writes of its devices.
#![tactic(auto)]

mod note;
mod report;
mod run_end;

pub use note::Note;
pub use report::Report;
pub use run_end::{DeviceRefusal, RunEnd};
