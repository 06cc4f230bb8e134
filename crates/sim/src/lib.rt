// A board in memory, with parts that rise slowly or never: it is `Parts`, and the board's side of a `World`.
#![tactic(auto)]

pub mod board;
pub mod build;
mod check;
pub mod draws;
pub mod least;
pub mod pace;
pub mod plan;
mod start;
pub mod state;
mod wishes;
pub mod world;
