//! The lines of the script both ways: how a line is read and written, and how output lines look.
#![tactic(auto)]

mod laws;
mod line;
mod output;
mod parts;
mod print;
mod words;
mod written;

pub use laws::line_laws;
pub use line::{Line, LineFault, read_line};
pub use output::{Counts, OutputLine, print_line, print_reply, print_vector};
pub use print::{number_word, print_entry, print_words};
pub use written::write_line;
