// Text as the programs read and write it: numbers, bytes as hexadecimal digits, lines, input that comes in pieces, and
// output that is collected in a block.
#![tactic(auto)]

mod call;
mod exit;
mod input;
mod kept;
mod line;
mod number;
mod octet;
mod output;
mod part;
mod reading;
mod signed;

pub use call::{Sink, Source};
pub use exit::{ending, is_left};
pub use input::{Filled, fill};
pub use kept::Kept;
pub use line::Line;
pub use number::{Parsed, number_after, parse_number, parse_short, short_after, skip};
pub use octet::{high_digit, low_digit, octet_at};
pub use output::{BLOCK_LEN, Output, report};
pub use part::{front, same};
pub use reading::{Answering, answer_lines};
pub use signed::{parse_signed, signed_after};
