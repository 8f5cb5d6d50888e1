//! Tables as data: what a row says, and a program that tries each row and counts.
//!
//! A row is a line `KIND INPUT => WANT`. A blank line, and one that begins with `#`, is none. In a text `%0a` stands for the byte 10,
//! and so on, and `<5*ab>` for five times `ab`.
#![tactic(auto)]

mod said;
mod text;
mod trying;

pub use said::Said;
pub use text::{Wrong, bytes_of, bytes_of_hex, number, part};
pub use trying::{Answers, run};
