// The packet log as comma-separated values: its lines, and what each one says; on `records` and `text`.
#![tactic(auto)]

mod entry;
mod fields;
mod lines;
mod wrong;

pub use entry::{Cause, Entry, Fate, Loss, Origin};
pub use lines::{Line, Lines, Stop};
pub use wrong::Wrong;
