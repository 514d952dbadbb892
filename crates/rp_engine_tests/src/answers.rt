//! The items of partitions, compared with a plain program, and what they cost. What is expected of single partitions is in
//! cases/matcher.script.
mod cases;
mod driven;
mod long;
mod player;
