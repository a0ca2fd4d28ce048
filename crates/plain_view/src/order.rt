//! The latest and the greatest of what is stamped.

ghost use Rattle.std.specs.Prelude.{◌≡◌};
ghost use Rattle.repl_data.specs.Order.{later, latest_or, csn_max, greatest};

use crate::stamp::Stamp;
use repl_data::Items;

/// What stands beside the later stamp, with the stamp.
fn later<T: Drop>(a: (Stamp, T), b: (Stamp, T)) -> (Stamp, T)
    ensures { result ≡ later a b }
{
    if a.0.is_below(b.0) { b } else { a }
}

/// What stands beside the greatest stamp, with the stamp, and `none` where there is nothing.
pub(crate) fn latest_or<T: Drop>(none: (Stamp, T), given: Items<(Stamp, T)>) -> (Stamp, T)
    ensures { result ≡ latest_or none given }
{
    let mut rest = given.into_vec();
    let mut best = none;
    while let Some(one) = rest.pop() {
        best = later(one, best);
    }
    best
}

fn greater(a: Stamp, b: Stamp) -> Stamp
    ensures { result ≡ csn_max a b }
{
    if a.is_below(b) { b } else { a }
}

/// The greatest stamp, and zero where there is none.
pub(crate) fn greatest(stamps: Items<Stamp>) -> Stamp
    ensures { result ≡ greatest stamps }
{
    let mut rest = stamps.into_vec();
    let mut best = Stamp::zero();
    while let Some(one) = rest.pop() {
        best = greater(one, best);
    }
    best
}
