//! Small tests: equal bytes and ids, and two truth values joined.

ghost use Rattle.std.specs.Prelude.{◌≡◌, ◌||◌, ◌&&◌};
ghost use Rattle.repl_data.specs.Order.{bytes_eq, uid_eq};

use crate::csn::Uid;

/// The bytes are the same.
pub fn same_bytes(a: &[u8], b: &[u8]) -> bool
    ensures { result ≡ bytes_eq a.now b.now }
{
    a.cmp(b).is_eq()
}

/// The ids are the same.
pub fn same_id(a: Uid, b: Uid) -> bool
    ensures { result ≡ uid_eq a b }
{
    a.csn.compare(b.csn).is_eq()
}

/// One of the two, or both. Unlike `a || b` it looks at both, so that what follows is one case.
pub fn or(a: bool, b: bool) -> bool
    ensures { result ≡ (a || b) }
{
    a || b
}

/// Both. Unlike `a && b` it looks at both, so that what follows is one case.
pub fn and(a: bool, b: bool) -> bool
    ensures { result ≡ (a && b) }
{
    a && b
}
