//! The words of a line that is written or printed, one after the other.

ghost use Rattle.std.specs.Prelude.{◌≡◌, ◌++◌, ◌∷◌, [], IfOk, OnOk};
ghost use Rattle.std.specs.Fmt.{decimal};
ghost use Rattle.repl_data.specs.Text.{csn_text, uid_text};

use crate::print::number_word;
use repl_data::{Bytes, BytesList, Csn, Items, NoMemory, Uid};
use std::alloc::Global;

pub(crate) fn put_text(alloc: Global, words: &mut BytesList, text: &[u8]) -> Result<(), NoMemory>
    ensures { OnOk result (words.new ≡ words.old ++ text.now ∷ []) }
{
    words.push(Bytes::from_slice(alloc, text)?)
}

pub(crate) fn put_number(alloc: Global, words: &mut BytesList, number: u64) -> Result<(), NoMemory>
    ensures { OnOk result (words.new ≡ words.old ++ decimal number ∷ []) }
{
    words.push(number_word(alloc, number)?)
}

pub(crate) fn put_csn(alloc: Global, words: &mut BytesList, csn: Csn) -> Result<(), NoMemory>
    ensures { OnOk result (words.new ≡ words.old ++ csn_text csn ∷ []) }
{
    let text = csn.text();
    put_text(alloc, words, text.as_slice())
}

pub(crate) fn put_uid(alloc: Global, words: &mut BytesList, id: Uid) -> Result<(), NoMemory>
    ensures { OnOk result (words.new ≡ words.old ++ uid_text id ∷ []) }
{
    let text = id.text();
    put_text(alloc, words, text.as_slice())
}

/// The first word of a line.
fn named(alloc: Global, name: &[u8]) -> Result<BytesList, NoMemory>
    ensures { IfOk result (λ words. words ≡ name.now ∷ []) }
{
    let mut words = Items::new(alloc);
    words.push(Bytes::from_slice(alloc, name)?)?;
    Ok(words)
}

/// A name and a number.
pub(crate) fn with_one(alloc: Global, name: &[u8], n: u64) -> Result<BytesList, NoMemory>
    ensures { IfOk result (λ words. words ≡ name.now ∷ decimal n ∷ []) }
{
    let mut words = named(alloc, name)?;
    put_number(alloc, &mut words, n)?;
    Ok(words)
}

/// A name and two numbers.
pub(crate) fn with_two(alloc: Global, name: &[u8], a: u64, b: u64) -> Result<BytesList, NoMemory>
    ensures { IfOk result (λ words. words ≡ name.now ∷ decimal a ∷ decimal b ∷ []) }
{
    let mut words = with_one(alloc, name, a)?;
    put_number(alloc, &mut words, b)?;
    Ok(words)
}

/// One more word.
pub(crate) fn then_text(
    alloc: Global,
    mut words: BytesList,
    text: &[u8],
) -> Result<BytesList, NoMemory>
    ensures { IfOk result (λ all. all ≡ words ++ text.now ∷ []) }
{
    put_text(alloc, &mut words, text)?;
    Ok(words)
}

/// A CSN more.
pub(crate) fn then_csn(alloc: Global, mut words: BytesList, csn: Csn) -> Result<BytesList, NoMemory>
    ensures { IfOk result (λ all. all ≡ words ++ csn_text csn ∷ []) }
{
    put_csn(alloc, &mut words, csn)?;
    Ok(words)
}

/// A number more.
pub(crate) fn then_number(
    alloc: Global,
    mut words: BytesList,
    number: u64,
) -> Result<BytesList, NoMemory>
    ensures { IfOk result (λ all. all ≡ words ++ decimal number ∷ []) }
{
    put_number(alloc, &mut words, number)?;
    Ok(words)
}
