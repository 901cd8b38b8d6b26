//! The small forms that every format of this project is made of: whole numbers as bytes with the high byte first,
//! decimal texts, and texts in which bytes are escaped. The forms are this project's own.
#![tactic(auto)]

mod decimals;
mod escapes;
mod numbers;

pub use decimals::{decimal, read_decimal};
pub use escapes::{EscapeError, escape, unescape};
pub use numbers::{put_u32, put_u64, read_u32, read_u64};
