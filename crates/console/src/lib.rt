// What the text programs share: the lines of standard input, the numbers of a command, and what is printed.

#![tactic(auto)]

pub mod fault;
pub mod input;
pub mod listing;
pub mod numbers;
pub mod paper;
pub mod print;
pub mod rows;
pub mod sheets;
pub mod tables;
