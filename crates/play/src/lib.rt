// Plans and scripts from any source of lines, played on boards in memory.
#![tactic(auto)]

pub mod draft;
pub mod plans;
pub mod play;
pub mod program;
pub mod reader;
pub mod session;
pub mod stage;
