//! Parts of names and relative names compare by their keys, however they are spelled.
ghost use Rattle.std.specs.Prelude.{◌≡◌, Some, refl};
ghost use Rattle.std.specs.Cmp.{partial_order_from_agreeing_total, on_equiv, on_total};
ghost use Rattle.std.specs.Cmp;
ghost use Rattle.std.specs.Cmp.Rules.{comparing};
ghost use Rattle.std.proofs.Common.{rules};
ghost use Rattle.std.specs.Ordering.{eq_by_cmp};
ghost use Rattle.std.specs.Cmp.Lexicographic.{slice_cmp};
ghost use Rattle.repl_data.specs.Order.{part_cmp, rdn_key, rdn_key_cmp, same_rdn, part_key, same_part};
ghost use Rattle.repl_data.specs.Ranks.{part_total, rdn_total, part_equiv, rdn_equiv, part_alike, rdn_alike};

use crate::change::{Ava, Rdn};
use std::cmp::Ordering;

impl PartialEq for Ava {
    ghost eq = { same_part };

    ghost laws = { Cmp.partial_equiv_from_equiv part_equiv };

    fn eq(&self, other: &Ava) -> bool {
        self.cmp(other).is_eq()
    }
}

impl Eq for Ava {
    ghost laws = { part_equiv };
}

impl PartialOrd for Ava {
    ghost partial_cmp = { λ a b. Some (part_cmp (part_key a) (part_key b)) };

    ghost laws = { partial_order_from_agreeing_total (λ a b. part_cmp (part_key a) (part_key b)) part_total (λ a b. refl) part_alike };

    fn partial_cmp(&self, other: &Ava) -> Option<Ordering> {
        Some(self.cmp(other))
    }
}

impl Ord for Ava {
    ghost cmp = { λ a b. part_cmp (part_key a) (part_key b) };

    ghost total = { part_total };

    ghost matches_partial_cmp = { Prim.search (comparing, rules) };

    ghost matches_eq = { part_alike };

    fn cmp(&self, other: &Ava) -> Ordering {
        let names = self.attr.name.as_slice().cmp(other.attr.name.as_slice());
        names.then(self.val.key.as_slice().cmp(other.val.key.as_slice()))
    }
}

impl PartialEq for Rdn {
    ghost eq = { same_rdn };

    ghost laws = { Cmp.partial_equiv_from_equiv rdn_equiv };

    fn eq(&self, other: &Rdn) -> bool {
        self.cmp(other).is_eq()
    }
}

impl Eq for Rdn {
    ghost laws = { rdn_equiv };
}

impl PartialOrd for Rdn {
    ghost partial_cmp = { λ a b. Some (rdn_key_cmp (rdn_key a) (rdn_key b)) };

    ghost laws = { partial_order_from_agreeing_total (λ a b. rdn_key_cmp (rdn_key a) (rdn_key b)) rdn_total (λ a b. refl) rdn_alike };

    fn partial_cmp(&self, other: &Rdn) -> Option<Ordering> {
        Some(self.cmp(other))
    }
}

impl Ord for Rdn {
    ghost cmp = { λ a b. rdn_key_cmp (rdn_key a) (rdn_key b) };

    ghost total = { rdn_total };

    ghost matches_partial_cmp = { Prim.search (comparing, rules) };

    ghost matches_eq = { rdn_alike };

    fn cmp(&self, other: &Rdn) -> Ordering {
        compare_parts(self.avas.as_slice(), other.avas.as_slice())
    }
}

fn compare_parts(a: &[Ava], b: &[Ava]) -> Ordering
    ensures { result ≡ slice_cmp (λ (x : Ava) (y : Ava). part_cmp (part_key x) (part_key y)) a.now b.now }
{
    a.cmp(b)
}
