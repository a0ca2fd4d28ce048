//! What holds of every set of changes, for who asks.

ghost use Rattle.std.specs.Prelude.{◌≡◌, ◌||◌, ℕ, Bool, true, false, List, [], ◌∷◌, ◌++◌, IsTrue, Some, map, filter, reverse};
ghost use Rattle.std.specs.declared.cmp.Ordering.TheVariants.{Less};
ghost use Rattle.std.specs.Str.{is_utf8};
ghost use Rattle.std.specs.List.{AllByRecursion, list_all, list_any};
ghost use Rattle.repl_data.specs.declared.csn.Uid.{Uid};
ghost use Rattle.repl_data.specs.declared.change.Change.{Change};
ghost use Rattle.repl_data.specs.declared.change.Suffix.{Suffix};
ghost use Rattle.repl_data.specs.Order.{uid_cmp, uid_eq, suffix_id, rdn_key, rdn_key_cmp};
ghost use Rattle.repl_data.specs.Text.{IsInRange};
ghost use Rattle.repl_data.specs.Stamps.{of_entry};
ghost use Rattle.repl_data.specs.Closed.{IsClosed, IsArrival, IsIn, SameChanges, all_differ, is_sound, is_known};
ghost use Rattle.repl_data.specs.Facts.{EntryFacts, all_facts, own_facts};
ghost use Rattle.repl_data.specs.Presence.{is_live, is_child, present_of, HasParentBelow, ObeysRule, is_present_in, StandsIn};
ghost use Rattle.repl_data.specs.Names.{has_id, shown_rdn};
ghost use Rattle.repl_data.specs.Order.{put_by};
ghost use Rattle.repl_data.specs.Key.{text_key};
ghost use Rattle.repl_data.specs.View.{PresentEntry, view_of, present_at, path_of, path_key, IsListedBefore, is_known_in, glue_class, tombstone_class, glue_conflict, naming_conflict, id_val};

/// The view of a set of changes does not depend on the list that spells it.
pub fn view_laws()
    // Closed sets with the same changes have equal views, whatever the order.
    ensures order { (suffix : Suffix) (xs ys : List Change) → IsClosed xs → IsClosed ys → SameChanges xs ys → view_of suffix xs ≡ view_of suffix ys }

    // A change that comes again changes nothing in the view.
    ensures again { (suffix : Suffix) (xs : List Change) (c : Change) → IsClosed xs → IsIn c xs → view_of suffix (xs ++ c ∷ []) ≡ view_of suffix xs }

    // Nor does it say more of its entry, whose own changes may come alone.
    ensures again_own { (suffix : Suffix) (u : Uid) (own : List Change) (c : Change) → IsTrue (all_differ (map (λ (d : Change). d.csn) own)) → IsTrue (list_all is_sound own) → IsIn c own → own_facts suffix u (own ++ c ∷ []) ≡ own_facts suffix u own }

    // An order of arrival is a closed set.
    ensures arrival { (xs : List Change) → IsArrival xs → IsClosed xs }

    // The next change of an order of arrival changes what is known of one entry: its target.
    ensures next { (suffix : Suffix) (xs : List Change) (c : Change) → IsArrival (xs ++ c ∷ []) → all_facts suffix (xs ++ c ∷ []) ≡ put_by (λ (e : EntryFacts). e.id) uid_cmp (own_facts suffix c.target (of_entry xs c.target ++ c ∷ [])) (all_facts suffix xs) }

    // An Add is the first change of its entry.
    ensures added { (xs : List Change) (c : Change) → IsArrival (xs ++ c ∷ []) → c.target.csn ≡ c.csn → of_entry xs c.target ≡ [] }

    // An entry stands in the view, present or as a tombstone, exactly if the changes add it, or if it is the
    // suffix entry.
    ensures known { (suffix : Suffix) (xs : List Change) (u : Uid) → is_known_in (view_of suffix xs) u ≡ is_known xs u }
{}

/// Presence is well founded, and the one solution of its rule.
pub fn presence_laws()
    // Each entry but the suffix entry has its parent below it.
    ensures below { (suffix : Suffix) (xs : List Change) → IsClosed xs → AllByRecursion HasParentBelow (all_facts suffix xs) }

    // An entry is present exactly if it is live or has a present child.
    ensures rule { (suffix : Suffix) (xs : List Change) → IsClosed xs → AllByRecursion (λ e. is_present_in (all_facts suffix xs) e ≡ (is_live e || list_any (is_child e.id) (present_of (all_facts suffix xs)))) (all_facts suffix xs) }

    // No other choice among the entries obeys this rule.
    ensures only { (suffix : Suffix) (xs : List Change) (p : EntryFacts → Bool) → IsClosed xs → AllByRecursion (ObeysRule p (all_facts suffix xs)) (all_facts suffix xs) → filter p (all_facts suffix xs) ≡ present_of (all_facts suffix xs) }
{}

/// In a closed set no two present entries with one parent show the same relative name.
pub fn name_laws()
    ensures differ { (suffix : Suffix) (xs : List Change) (p : Uid) (e f : EntryFacts) → IsClosed xs → AllByRecursion (λ (c : Change). IsInRange c.csn) xs → StandsIn e (present_of (all_facts suffix xs)) → StandsIn f (present_of (all_facts suffix xs)) → is_child p e ≡ true → is_child p f ≡ true → rdn_key (shown_rdn (present_of (all_facts suffix xs)) e) ≡ rdn_key (shown_rdn (present_of (all_facts suffix xs)) f) → e.id ≡ f.id }

    // The same of any list of entries in which no name has a part `nsuniqueid` of its own, and one CSN names
    // one entry.
    ensures of_entries { (present : List EntryFacts) (p : Uid) (e f : EntryFacts) → StandsIn e present → StandsIn f present → is_child p e ≡ true → is_child p f ≡ true → has_id e.rdn ≡ false → has_id f.rdn ≡ false → IsInRange e.id.csn → IsInRange f.id.csn → (e.named ≡ f.named → e.id ≡ f.id) → rdn_key (shown_rdn present e) ≡ rdn_key (shown_rdn present f) → e.id ≡ f.id }
{}

/// The path of a present entry in the view of a closed set, and the order of a listing that follows from it.
pub fn path_laws()
    // The path of the suffix entry is empty.
    ensures suffix { (suffix : Suffix) (xs : List Change) → path_of (view_of suffix xs) suffix_id ≡ [] }

    // The path of any other is the RDN that it shows and then the path of its parent.
    ensures step { (suffix : Suffix) (xs : List Change) (u : Uid) (e : PresentEntry) → IsClosed xs → present_at (view_of suffix xs) u ≡ Some e → uid_eq u suffix_id ≡ false → path_of (view_of suffix xs) u ≡ e.shown ∷ path_of (view_of suffix xs) e.parent }

    // So from the suffix down the keys of the parent's path come first, and then its own.
    ensures key { (suffix : Suffix) (xs : List Change) (e : PresentEntry) → IsClosed xs → present_at (view_of suffix xs) e.id ≡ Some e → uid_eq e.id suffix_id ≡ false → (path_key (view_of suffix xs) e).0 ≡ reverse (map rdn_key (path_of (view_of suffix xs) e.parent)) ++ rdn_key e.shown ∷ [] }

    // A parent is listed before its child.
    ensures parent_first { (suffix : Suffix) (xs : List Change) (p e : PresentEntry) → IsClosed xs → present_at (view_of suffix xs) e.id ≡ Some e → uid_eq e.id suffix_id ≡ false → p.id ≡ e.parent → IsListedBefore (view_of suffix xs) p e }

    // Siblings are listed in order of the RDNs that they show.
    ensures siblings { (suffix : Suffix) (xs : List Change) (e f : PresentEntry) → IsClosed xs → present_at (view_of suffix xs) e.id ≡ Some e → uid_eq e.id suffix_id ≡ false → present_at (view_of suffix xs) f.id ≡ Some f → uid_eq f.id suffix_id ≡ false → e.parent ≡ f.parent → rdn_key_cmp (rdn_key e.shown) (rdn_key f.shown) ≡ Less → IsListedBefore (view_of suffix xs) e f }
{}

/// Each value that a view derives has the key of its text, as any other value: a search for the shown text finds it.
pub fn derived_laws()
    ensures glue { glue_class.key ≡ text_key glue_class.spelled }
    ensures tombstone { tombstone_class.key ≡ text_key tombstone_class.spelled }
    ensures glue_conflict { glue_conflict.key ≡ text_key glue_conflict.spelled }
    ensures naming_conflict { (dn : List ℕ) → is_utf8 (naming_conflict dn).spelled ≡ true → (naming_conflict dn).key ≡ text_key (naming_conflict dn).spelled }

    // A name that is lost may have bytes that are no text. They are their own key.
    ensures naming_bytes { (dn : List ℕ) → is_utf8 (naming_conflict dn).spelled ≡ false → (naming_conflict dn).key ≡ (naming_conflict dn).spelled }
    ensures id { (u : Uid) → (id_val u).key ≡ text_key (id_val u).spelled }
{}
