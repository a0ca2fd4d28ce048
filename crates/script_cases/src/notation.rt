//! What the lines of a script or of an output stand for.
//!
//! A line stands for itself and a line feed, but for these:
//!
//!     %none TEXT       the text alone, so that the next line joins it
//!     %cr TEXT         the text and a carriage return
//!     %crlf TEXT       the text, a carriage return and a line feed
//!     %crcrlf TEXT     the text, two carriage returns and a line feed
//!     %fill N TEXT     the text N times, with nothing between
//!     %times N TEXT    N lines of this text
//!     %each N TEXT     N lines: `@n@` stands for the number of the line from 1 on, and `@x@` for
//!                      the one from 0 on, in four hexadecimal digits

use std::alloc::AllocError;
use std::fmt::Write;

/// Appends what a line stands for, and tells whether it has a meaning.
pub fn add_line(to: &mut String, line: &str) -> Result<bool, AllocError> {
    match line.strip_prefix('%') {
        Some(marked) => {
            let (mark, text) = front_word(marked);
            add_marked(to, mark, text)
        }
        None => {
            add_ended(to, line, "\n")?;
            Ok(true)
        }
    }
}

/// The text up to the first space, and what is behind it.
fn front_word(text: &str) -> (&str, &str) {
    text.split_once(' ').unwrap_or((text, ""))
}

fn add_ended(to: &mut String, text: &str, end: &str) -> Result<(), AllocError> {
    to.push_str(text)?;
    to.push_str(end)
}

fn add_marked(to: &mut String, mark: &str, text: &str) -> Result<bool, AllocError> {
    let end = match mark {
        "none" => "",
        "cr" => "\r",
        "crlf" => "\r\n",
        "crcrlf" => "\r\r\n",
        _ => return add_counted(to, mark, text),
    };
    add_ended(to, text, end)?;
    Ok(true)
}

fn add_counted(to: &mut String, mark: &str, text: &str) -> Result<bool, AllocError> {
    let (count, text) = front_word(text);
    let Ok(count) = count.parse::<u32>() else {
        return Ok(false);
    };
    match mark {
        "fill" => add_times(to, count, text, "")?,
        "times" => add_times(to, count, text, "\n")?,
        "each" => add_numbered(to, count, text)?,
        _ => return Ok(false),
    }
    Ok(true)
}

fn add_times(to: &mut String, count: u32, text: &str, end: &str) -> Result<(), AllocError> {
    for _ in 0..count {
        add_ended(to, text, end)?;
    }
    Ok(())
}

fn add_numbered(to: &mut String, count: u32, text: &str) -> Result<(), AllocError> {
    for number in 0..count {
        for part in text.split('@') {
            match part {
                "n" => write!(to, "{}", number.saturating_add(1))?,
                "x" => write!(to, "{number:04x}")?,
                _ => to.push_str(part)?,
            }
        }
        to.push('\n')?;
    }
    Ok(())
}
