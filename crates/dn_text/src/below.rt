//! Whether a name is the suffix or below it.

ghost use Rattle.std.specs.Prelude.{◌≡◌, ℕ, ◌<◌, ◌≤◌, ◌+◌, ◌-◌, drop, length, IfSome, None};
ghost use Rattle.dn_text.specs.Below.{StandsAbove, is_same_part, are_same_parts, are_same_rdns};

use crate::name::Dn;
use repl_data::{Ava, Rdn};

fn is_same_part(a: &Ava, b: &Ava) -> bool
    ensures { result ≡ is_same_part a.now b.now }
{
    a.attr.name.as_slice() == b.attr.name.as_slice() && a.val.key.as_slice() == b.val.key.as_slice()
}

/// The relative names have the same parts, by attribute and key.
fn are_same_parts(a: &[Ava], b: &[Ava]) -> bool
    ensures { result ≡ are_same_parts a.now b.now }
{
    if a.len() != b.len() {
        return false;
    }
    for (at, ava) in a.iter().enumerate() {
        if !is_same_part(ava, &b[at]) {
            return false;
        }
    }
    true
}

fn are_same_rdns(a: &[Rdn], b: &[Rdn]) -> bool
    requires { length a.now ≡ length b.now }
    ensures { result ≡ are_same_rdns a.now b.now }
{
    for (at, rdn) in a.iter().enumerate() {
        if !are_same_parts(rdn.avas.as_slice(), b[at].avas.as_slice()) {
            return false;
        }
    }
    true
}

impl Dn {
    /// How many relative names stand above the suffix, where the name is the suffix or below it, by the
    /// keys of its relative names: 0 for the suffix itself.
    pub fn below(&self, suffix: &Dn) -> Option<usize>
        ensures found { IfSome result (StandsAbove self.now suffix.now) }
        ensures none { result ≡ None → (count : ℕ) → StandsAbove self.now suffix.now count → ⊥ }
    {
        let rdns = self.rdns.as_slice();
        let above = suffix.rdns.as_slice();
        if rdns.len() < above.len() {
            return None;
        }
        let count = rdns.len() - above.len();
        if are_same_rdns(&rdns[count..], above) {
            Some(count)
        } else {
            None
        }
    }
}
