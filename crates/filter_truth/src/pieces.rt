//! Pieces of a text, in their order.

ghost use Rattle.std.specs.Prelude.{◌≡◌};
ghost use Rattle.std.specs.Option.{option_copied};
ghost use Rattle.filter_truth.specs.Pieces.{in_order, has_pieces};
ghost use Rattle.filter_truth.specs.Behind.{behind, behind_first};

use repl_data::Bytes;

/// What stands behind the piece that the text begins with.
fn behind<'a>(text: &'a [u8], piece: &[u8]) -> Option<&'a [u8]>
    ensures { option_copied result ≡ behind text.now piece.now }
{
    if text.starts_with(piece) {
        Some(&text[piece.len()..])
    } else {
        None
    }
}

/// What stands behind the first place in the text where the piece stands.
fn behind_first<'a>(text: &'a [u8], piece: &[u8]) -> Option<&'a [u8]>
    ensures { option_copied result ≡ behind_first text.now piece.now }
{
    for at in 0..text.len() {
        match behind(&text[at..], piece) {
            Some(rest) => return Some(rest),
            None => {}
        }
    }
    behind(&text[text.len()..], piece)
}

/// Whether the pieces stand in the text in their order and apart from each other, and the last one at its end.
/// Each is taken at the first place where it stands.
fn in_order(middle: &[Bytes], last: &[u8], text: &[u8]) -> bool
    ensures { result ≡ in_order middle.now last.now text.now }
{
    let mut rest = text;
    for piece in middle {
        match behind_first(rest, piece.as_slice()) {
            Some(more) => rest = more,
            None => return false,
        }
    }
    rest.ends_with(last)
}

/// Whether the text begins with the first piece, ends with the last, and has the others between them in their
/// order. In time of the text's length for each byte of the pieces.
pub(crate) fn has_pieces(first: &[u8], middle: &[Bytes], last: &[u8], text: &[u8]) -> bool
    ensures { result ≡ has_pieces first.now middle.now last.now text.now }
{
    match behind(text, first) {
        Some(rest) => in_order(middle, last, rest),
        None => false,
    }
}
