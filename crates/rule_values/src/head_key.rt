//! A key with its first bytes beside it, which mostly tell how it compares to another: so a sort or a tree seldom looks
//! at the keys themselves, which lie anywhere in memory.

ghost use Rattle.std.specs.Prelude.{◌≡◌, Some, refl, slice_get};
ghost use Rattle.std.specs.Cmp.{partial_order_from_agreeing_total};
ghost use Rattle.std.specs.Cmp;
ghost use Rattle.std.specs.Cmp.Lexicographic.{nat_list_cmp_total};
ghost use Rattle.std.specs.Cmp.Rules.{comparing};
ghost use Rattle.std.proofs.Common.{rules};
ghost use Rattle.std.specs.Ordering.{ordering_then};
ghost use Rattle.repl_data.specs.Order.{bytes_cmp, bytes_eq};
ghost use Rattle.rule_values.specs.Heads.{front, byte_or_zero, keys_equiv, keys_alike};

use repl_data::Bytes;
use std::cmp::Ordering;
use std::marker::Model;

/// A key with its first eight bytes, or with zeros where it has fewer.
#[derive(Debug, Drop)]
pub(crate) struct HeadKey {
    head: [u8; 8],
    key: Bytes,
}

impl Model for HeadKey {
    ghost use Rattle.std.specs.Prelude.{◌≡◌, ℕ, List};
    ghost use Rattle.rule_values.specs.Heads.{front};

    ghost Value = { List ℕ };

    ghost view = { λ k. k.key };

    ghost invariant = { λ k. k.head ≡ front 8 k.key };
}

/// The byte at this place of a key, and zero where there is none.
fn byte_at(key: &[u8], at: usize) -> u8
    ensures { result ≡ byte_or_zero (slice_get key.now at) }
{
    match key.get(at) {
        Some(byte) => *byte,
        None => 0,
    }
}

/// The first eight bytes of a key.
fn head_of(key: &[u8]) -> [u8; 8]
    ensures { result ≡ front 8 key.now }
{
    [
        byte_at(key, 0),
        byte_at(key, 1),
        byte_at(key, 2),
        byte_at(key, 3),
        byte_at(key, 4),
        byte_at(key, 5),
        byte_at(key, 6),
        byte_at(key, 7),
    ]
}

impl HeadKey {
    pub(crate) fn of(key: Bytes) -> HeadKey
        ensures { result ≡ key }
    {
        let head = head_of(key.as_slice());
        HeadKey { head, key }
    }

    pub(crate) fn into_key(self) -> Bytes
        ensures { result ≡ self }
    {
        let HeadKey { key, .. } = self;
        key
    }

    pub(crate) fn as_slice(&self) -> &[u8]
        ensures { result.now ≡ self.now }
    {
        self.key.as_slice()
    }
}

/// The first comparison, or that of the keys where it tells nothing.
fn then_keys(first: Ordering, a: &Bytes, b: &Bytes) -> Ordering
    ensures { result ≡ ordering_then first (bytes_cmp a.now b.now) }
{
    match first {
        Ordering::Less => Ordering::Less,
        Ordering::Equal => a.as_slice().cmp(b.as_slice()),
        Ordering::Greater => Ordering::Greater,
    }
}

impl PartialEq for HeadKey {
    ghost eq = { bytes_eq };

    ghost laws = { Cmp.partial_equiv_from_equiv keys_equiv };

    fn eq(&self, other: &HeadKey) -> bool {
        self.cmp(other).is_eq()
    }
}

impl Eq for HeadKey {
    ghost laws = { keys_equiv };
}

impl PartialOrd for HeadKey {
    ghost partial_cmp = { λ a b. Some (bytes_cmp a b) };

    ghost laws = { partial_order_from_agreeing_total bytes_cmp nat_list_cmp_total (λ a b. refl) keys_alike };

    fn partial_cmp(&self, other: &HeadKey) -> Option<Ordering> {
        Some(self.cmp(other))
    }
}

impl Ord for HeadKey {
    ghost cmp = { bytes_cmp };

    ghost total = { nat_list_cmp_total };

    ghost matches_partial_cmp = { Prim.search (comparing, rules) };

    ghost matches_eq = { keys_alike };

    fn cmp(&self, other: &HeadKey) -> Ordering {
        let heads = self.head.as_slice().cmp(other.head.as_slice());
        then_keys(heads, &self.key, &other.key)
    }
}
