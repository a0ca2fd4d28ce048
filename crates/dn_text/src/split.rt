//! Cutting a text at its unescaped separators, and taking spaces off.

ghost use Rattle.std.specs.Prelude.{◌≡◌, ℕ, ◌+◌, ◌≤◌, ◌<◌, ◌^◌, [], ◌∷◌, length, false, IfNone, IfSome};
ghost use Rattle.dn_text.specs.Split.{is_bare, escapes_next, bare_len, space_count, kept_len, trimmed, pieces};

/// The byte is this one, and no backslash takes it along.
fn is_bare(escaped: bool, by: u8, b: u8) -> bool
    ensures { result ≡ is_bare escaped by b }
{
    !escaped && b == by
}

fn escapes_next(escaped: bool, b: u8) -> bool
    ensures { result ≡ escapes_next escaped b }
{
    !escaped && b == b'\\'
}

/// How many bytes stand before the first unescaped one that is `by`, or how many there are.
#[tactic(auto, using(crate::proofs::Splits::bare_len_here, crate::proofs::Splits::bare_len_next, crate::proofs::Splits::bare_len_end))]
pub(crate) fn bare_len(by: u8, text: &[u8]) -> usize
    ensures value { result ≡ bare_len by false text.now }
    ensures within { result ≤ length text.now }
{
    let mut escaped = false;
    for (at, b) in text.iter().enumerate() {
        if is_bare(escaped, by, *b) {
            return at;
        }
        escaped = escapes_next(escaped, *b);
    }
    text.len()
}

/// How many spaces the text begins with.
#[tactic(auto, using(crate::proofs::Splits::space_count_here, crate::proofs::Splits::space_count_next, crate::proofs::Splits::space_count_end))]
pub(crate) fn space_count(text: &[u8]) -> usize
    ensures value { result ≡ space_count text.now }
    ensures within { result ≤ length text.now }
{
    for (at, b) in text.iter().enumerate() {
        if *b != b' ' {
            return at;
        }
    }
    text.len()
}

/// How long the text is up to the last byte that is no unescaped space.
#[tactic(auto, using(crate::proofs::Splits::kept_from_space, crate::proofs::Splits::kept_from_other, crate::proofs::Splits::kept_from_end))]
fn kept_len(text: &[u8]) -> usize
    ensures value { result ≡ kept_len text.now }
    ensures within { result ≤ length text.now }
{
    let mut escaped = false;
    let mut kept = 0;
    for (at, b) in text.iter().enumerate() {
        if !is_bare(escaped, b' ', *b) {
            kept = at + 1;
        }
        escaped = escapes_next(escaped, *b);
    }
    kept
}

/// The text without the unescaped spaces around it, and the place where it begins, if the text itself
/// begins at `start`.
pub(crate) fn trimmed(start: usize, text: &[u8]) -> (usize, &[u8])
    requires { start + length text.now < 2 ^ 64 }
    ensures start { result.0 ≡ (trimmed start text.now).start }
    ensures text { result.1.now ≡ (trimmed start text.now).text }
    ensures within { result.0 + length result.1.now ≤ start + length text.now }
{
    let spaces = space_count(text);
    let rest = &text[spaces..];
    let kept = kept_len(rest);
    (start + spaces, &rest[..kept])
}

/// The piece before the first unescaped byte that is `by`, and the text after that byte, if it is there.
pub(crate) fn cut(by: u8, text: &[u8]) -> Option<(&[u8], &[u8])>
    ensures whole { IfNone result ((at : ℕ) → pieces by at text.now ≡ record { start = at; text = text.now } ∷ []) }
    ensures parts { IfSome result (λ p. (at : ℕ) → pieces by at text.now
        ≡ record { start = at; text = p.0.now } ∷ pieces by (at + length p.0.now + 1) p.1.now) }
    ensures lengths { IfSome result (λ p. length p.0.now + length p.1.now + 1 ≡ length text.now) }
{
    let len = bare_len(by, text);
    if len >= text.len() {
        return None;
    }
    Some((&text[..len], &text[len + 1..]))
}
