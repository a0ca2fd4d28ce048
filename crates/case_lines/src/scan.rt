//! What stands outside quotes.

ghost use Rattle.std.specs.Prelude.{◌<◌, length, IfSome};

/// The quote that is open behind this byte, or 0.
fn quote_after(quote: u8, byte: u8) -> u8 {
    if quote == byte {
        0
    } else if quote == 0 && (byte == b'"' || byte == b'\'') {
        byte
    } else {
        quote
    }
}

/// The place of the first such byte outside quotes.
pub fn find_bare(text: &[u8], wanted: u8) -> Option<usize>
    ensures { IfSome result (λ at. at < length text.now) }
{
    let mut quote = 0;
    for at in 0..text.len() {
        if quote == 0 && text[at] == wanted {
            return Some(at);
        }
        quote = quote_after(quote, text[at]);
    }
    None
}

/// What stands before the first such byte outside quotes, and what behind it.
pub fn split_bare(text: &[u8], wanted: u8) -> Option<(&[u8], &[u8])> {
    let at = find_bare(text, wanted)?;
    Some((&text[..at], &text[at + 1..]))
}

/// The place of the first `=` outside quotes that has only spaces or an end beside it.
pub fn find_equals(text: &[u8]) -> Option<usize>
    ensures { IfSome result (λ at. at < length text.now) }
{
    let mut quote = 0;
    for at in 0..text.len() {
        if quote == 0 && text[at] == b'=' && stands_alone(text, at) {
            return Some(at);
        }
        quote = quote_after(quote, text[at]);
    }
    None
}

fn stands_alone(text: &[u8], at: usize) -> bool {
    let begins = at == 0 || text.get(at - 1) == Some(&b' ');
    begins
        && text
            .get(at.saturating_add(1))
            .is_none_or(|byte| *byte == b' ')
}
