//! The walk.

ghost use Rattle.std.specs.Prelude.{◌≡◌, ◌<◌, [], ◌∷◌, ◌++◌, IfOk, OnOk, OnErr, MatchOption, drop, reverse, vec_len};
ghost use Rattle.view_walk.specs.Tree.{IsNamedTree};
ghost use Rattle.view_walk.specs.Walk.{left, ArePresent};

use repl_data::{NoMemory, Uid, UidList, View};
use std::alloc::Global;
use std::marker::Model;

/// A walk over the entries within a base, which is the first of them: parents first, and siblings in order of the
/// names that they show (RFC 4511, section 4.5.1.2: `wholeSubtree`).
///
/// Contracts see the ids of the entries that it still has to visit with all within them, the next one first.
#[derive(Debug, Drop)]
pub struct Walk {
    /// The next one last.
    stack: Vec<Uid>,
}

impl Model for Walk {
    ghost use Rattle.std.specs.Prelude.{List, reverse};
    ghost use Rattle.repl_data.specs.declared.csn.Uid.{Uid};

    ghost Value = { List Uid };

    ghost view = { λ w. reverse w.stack.items };
}

/// Puts the children in place of the last id, the first of them last. Takes room first, so that nothing is lost
/// where there is none.
fn open_last(stack: &mut Vec<Uid>, children: UidList) -> Result<(), NoMemory>
    requires { 0 < vec_len stack.old }
    ensures ok { OnOk result (reverse stack.new.items ≡ children ++ drop 1 (reverse stack.old.items)) }
    ensures err { OnErr result (stack.new.items ≡ stack.old.items) }
{
    let last = stack.len() - 1;
    let mut above = children.into_vec();
    above.reverse();
    stack.append(&mut above)?;
    stack.remove(last);
    Ok(())
}

impl Walk {
    /// A walk over the entry of this id and all within it.
    pub fn of(alloc: Global, base: Uid) -> Result<Walk, NoMemory>
        ensures { IfOk result (λ walk. walk ≡ base ∷ []) }
    {
        let mut stack = Vec::new(alloc);
        stack.push(base)?;
        Ok(Walk { stack })
    }

    /// The id of the next entry, and `None` after the last. It costs what the view's `children` of that entry cost,
    /// and memory for their ids.
    pub fn next<V: View>(&mut self, alloc: Global, view: &V) -> Result<Option<Uid>, NoMemory>
        requires tree { IsNamedTree (V.view view.now) }
        requires present { ArePresent (V.view view.now) self.old }

        // It is the first of what was left, and the walk has the others left.
        ensures next { IfOk result (λ next. MatchOption next (left (V.view view.now) self.old ≡ []) (λ id. left (V.view view.now) self.old ≡ id ∷ left (V.view view.now) self.new)) }

        // What is still to be visited is present.
        ensures present { ArePresent (V.view view.now) self.new }

        // Where memory runs out the walk stays where it was.
        ensures fault { OnErr result (self.new ≡ self.old) }
    {
        let Some(last) = self.stack.len().checked_sub(1) else {
            return Ok(None);
        };
        let id = self.stack[last];
        let children = view.children(alloc, id)?;
        open_last(&mut self.stack, children)?;
        Ok(Some(id))
    }
}
