// The text of plans and scripts: what a line says, and what is printed. It uses no heap.
#![tactic(auto)]

pub mod buffer;
mod digits;
pub mod event;
mod filling;
pub mod line;
pub mod lines;
mod needs;
pub mod numbers;
pub mod printer;
pub mod read;
pub mod sheet;
mod sink;
mod spread;
mod stream_end;
pub mod words;
