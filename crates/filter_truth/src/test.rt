//! What a filter asserts of an attribute, with keys for names, values and pieces.

ghost use Rattle.std.specs.Prelude.{◌≡◌};
ghost use Rattle.attr_keys.specs.Table.{kind_of};
ghost use Rattle.filter_truth.specs.Truth.{holds};
ghost use Rattle.filter_truth.specs.Prepared.{passes};

use crate::pieces::has_pieces;
use attr_keys::{AttrKey, compare_keys};
use repl_data::{Bytes, BytesList, same_bytes};

/// How the key of a value is to stand to the one that is asserted.
#[derive(Clone, Copy, Debug, Drop, Eq, PartialEq)]
pub enum Comparison {
    Equal,
    /// At it or above.
    AtLeast,
    /// At it or below.
    AtMost,
}

/// What the key of a value has to be. The keys in it are those of what is asserted.
#[derive(Clone, Debug, Drop)]
pub enum Test {
    /// Whatever it is.
    Any,
    Compares {
        how: Comparison,
        key: Bytes,
    },
    /// It has these pieces, of which those that are not given are empty.
    Pieces {
        first: Bytes,
        middle: BytesList,
        last: Bytes,
    },
}

/// That some value of the attribute passes the test.
#[derive(Clone, Debug, Drop)]
pub struct Assertion {
    pub attr: AttrKey,
    pub test: Test,
}

fn holds(how: Comparison, attr: &AttrKey, key: &[u8], shown: &[u8]) -> bool
    ensures { result ≡ holds how (kind_of attr.now.name) key.now shown.now }
{
    match how {
        Comparison::Equal => same_bytes(key, shown),
        Comparison::AtLeast => compare_keys(attr, key, shown).is_le(),
        Comparison::AtMost => compare_keys(attr, shown, key).is_le(),
    }
}

/// Whether the key of a value of the attribute passes the test. Takes no memory.
pub(crate) fn passes(attr: &AttrKey, test: &Test, shown: &[u8]) -> bool
    ensures { result ≡ passes attr.now.name test.now shown.now }
{
    match test {
        Test::Any => true,
        Test::Compares { how, key } => holds(*how, attr, key.as_slice(), shown),
        Test::Pieces {
            first,
            middle,
            last,
        } => has_pieces(first.as_slice(), middle.as_slice(), last.as_slice(), shown),
    }
}
