//! Many changes of one form.

use crate::grown::take;
use case_changes::next_change;
use case_lines::{CaseFault, Fields};
use std::alloc::Global;
use std::fmt::Write;
use urp_tree::UrpTree;

/// The tree takes so many changes, which the next words write: in these a number with `+` behind it is counted up from
/// change to change, and one with `-` behind it is counted down. Tells how many entries one of them changed at most.
pub fn take_each(
    alloc: Global,
    tree: &mut UrpTree,
    fields: &mut Fields<'_>,
    told: &mut String,
) -> Result<(), CaseFault> {
    let count = fields.number()?;
    let mut most = 0;
    for number in 0..count {
        most = most.max(take_one(alloc, tree, *fields, number)?);
    }
    *fields = Fields::new(b"".as_slice());
    write!(told, "{most}")?;
    Ok(())
}

/// The tree takes the change with this number. Answers how many entries it changes.
fn take_one(
    alloc: Global,
    tree: &mut UrpTree,
    words: Fields<'_>,
    number: u64,
) -> Result<usize, CaseFault> {
    let text = numbered(alloc, words, number)?;
    let change = next_change(alloc, &mut Fields::new(text.as_bytes()))?;
    take(alloc, tree, &change)
}

/// The words, counted up and down by this number.
fn numbered(alloc: Global, words: Fields<'_>, number: u64) -> Result<String, CaseFault> {
    let mut words = words;
    let mut text = String::new(alloc);
    for _ in 0..u64::MAX {
        if words.is_empty() {
            break;
        }
        write_word(&mut text, words.word()?, number)?;
    }
    Ok(text)
}

fn write_word(text: &mut String, word: &str, number: u64) -> Result<(), CaseFault> {
    match counted(word, number) {
        Some((count, rest)) => write!(text, " {count}{rest}")?,
        None => write!(text, " {word}")?,
    }
    Ok(())
}

/// The number at the front of a word, counted up or down, and what stands behind the sign.
fn counted(word: &str, number: u64) -> Option<(u64, &str)> {
    if let Some((first, rest)) = word.split_once('+') {
        return Some((first.parse::<u64>().ok()?.checked_add(number)?, rest));
    }
    let (first, rest) = word.split_once('-')?;
    Some((first.parse::<u64>().ok()?.checked_sub(number)?, rest))
}
