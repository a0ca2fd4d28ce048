//! How output lines look: words, and entries.

ghost use Rattle.std.specs.Prelude.{◌≡◌, ◌++◌, OnOk, IfOk};
ghost use Rattle.std.specs.List.{list_all, join_with_byte};
ghost use Rattle.std.specs.Fmt.{decimal};
ghost use Rattle.hex.specs.Hex.{encode_lower};
ghost use Rattle.script_text.specs.Print.{words_line, is_printable, is_plain, plain_line, hexadecimal_line, value_line, attr_lines, dn_line, entry_lines};

use repl_data::{Bytes, NoMemory, Shown, ShownEntry, Val};
use std::alloc::Global;

/// The number in decimal.
pub fn number_word(alloc: Global, number: u64) -> Result<Bytes, NoMemory>
    ensures { IfOk result (λ word. word ≡ decimal number) }
{
    let text = format!(in alloc; "{number}")?;
    Bytes::from_slice(alloc, text.as_bytes())
}

/// The bytes in hexadecimal, in lower case.
pub(crate) fn hexadecimal_word(alloc: Global, bytes: &[u8]) -> Result<Bytes, NoMemory>
    ensures { IfOk result (λ word. word ≡ encode_lower bytes.now) }
{
    let text = hex::encode(alloc, bytes)?;
    Bytes::from_slice(alloc, text.as_bytes())
}

/// Appends the words, with a space between each two.
pub(crate) fn put_words(out: &mut Bytes, words: &[Bytes]) -> Result<(), NoMemory>
    ensures { OnOk result (out.new ≡ out.old ++ join_with_byte 32 words.now) }
{
    match words {
        [] => Ok(()),
        [only] => out.extend_from_slice(only.as_slice()),
        [first, others @ ..] => {
            out.extend_from_slice(first.as_slice())?;
            out.push(b' ')?;
            put_words(out, others)
        }
    }
}

/// Appends the words, joined by one space, and a line feed.
pub fn print_words(_alloc: Global, out: &mut Bytes, words: &[Bytes]) -> Result<(), NoMemory>
    ensures { OnOk result (out.new ≡ out.old ++ words_line words.now) }
{
    put_words(out, words)?;
    out.push(b'\n')?;
    Ok(())
}

fn are_printable(value: &[u8]) -> bool
    ensures { result ≡ list_all is_printable value.now }
{
    value.iter().all(|b| b' ' <= *b && *b <= b'~')
}

fn is_plain(value: &[u8]) -> bool
    ensures { result ≡ is_plain value.now }
{
    match value {
        [] => false,
        [first, ..] => *first != b' ' && are_printable(value),
    }
}

#[tactic(auto, unfolding(crate::specs::Print::plain_line))]
fn put_plain(out: &mut Bytes, attr: &[u8], value: &[u8]) -> Result<(), NoMemory>
    ensures { OnOk result (out.new ≡ out.old ++ plain_line attr.now value.now) }
{
    out.extend_from_slice(b" ")?;
    out.extend_from_slice(attr)?;
    out.extend_from_slice(b": ")?;
    out.extend_from_slice(value)?;
    out.extend_from_slice(b"\n")
}

#[tactic(auto, unfolding(crate::specs::Print::hexadecimal_line))]
fn put_hexadecimal(
    alloc: Global,
    out: &mut Bytes,
    attr: &[u8],
    value: &[u8],
) -> Result<(), NoMemory>
    ensures { OnOk result (out.new ≡ out.old ++ hexadecimal_line attr.now value.now) }
{
    out.extend_from_slice(b" ")?;
    out.extend_from_slice(attr)?;
    out.extend_from_slice(b":x ")?;
    let digits = hexadecimal_word(alloc, value)?;
    out.extend_from_slice(digits.as_slice())?;
    out.extend_from_slice(b"\n")
}

fn print_value(alloc: Global, out: &mut Bytes, attr: &[u8], value: &Val) -> Result<(), NoMemory>
    ensures { OnOk result (out.new ≡ out.old ++ value_line attr.now value.now) }
{
    let spelled = value.spelled.as_slice();
    if is_plain(spelled) {
        put_plain(out, attr, spelled)
    } else {
        put_hexadecimal(alloc, out, attr, spelled)
    }
}

fn print_attr(alloc: Global, out: &mut Bytes, shown: &Shown) -> Result<(), NoMemory>
    ensures { OnOk result (out.new ≡ out.old ++ attr_lines shown.now) }
{
    for value in shown.vals.as_slice() {
        print_value(alloc, out, shown.attr.name.as_slice(), value)?;
    }
    Ok(())
}

#[tactic(auto, unfolding(crate::specs::Print::dn_line))]
fn print_dn(out: &mut Bytes, dn: &[u8]) -> Result<(), NoMemory>
    ensures { OnOk result (out.new ≡ out.old ++ dn_line dn.now) }
{
    out.extend_from_slice(b"dn: ")?;
    out.extend_from_slice(dn)?;
    out.extend_from_slice(b"\n")
}

/// Appends the lines of an entry: its name, and its values.
pub fn print_entry(alloc: Global, out: &mut Bytes, entry: &ShownEntry) -> Result<(), NoMemory>
    ensures { OnOk result (out.new ≡ out.old ++ entry_lines entry.now) }
{
    print_dn(out, entry.dn.as_slice())?;
    for shown in entry.attrs.as_slice() {
        print_attr(alloc, out, shown)?;
    }
    Ok(())
}
