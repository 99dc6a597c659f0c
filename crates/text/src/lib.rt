// What the planner's text programs read: a line gathered byte by byte, decimal numbers, and bytes in hexadecimal.

#![tactic(auto)]

pub mod decimal;
pub mod hexadecimal;
pub mod line;

const SPACE: u8 = b' ';
