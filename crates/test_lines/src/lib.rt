//! Tables of cases, whose lines are printed with their answers; what stands in these lines for bytes that a
//! line can't have, for long texts and for bytes. For programs that tests are.
#![tactic(auto)]

mod digits;
mod escapes;
mod repeats;
mod table;

pub use digits::bytes_of;
pub use escapes::{unescaped, write_escaped};
pub use repeats::write_repeated;
pub use table::{Answers, answered, print_answered, shown};
