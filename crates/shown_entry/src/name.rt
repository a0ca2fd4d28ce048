//! A relative name with the entry's id joined to it.

ghost use Rattle.std.specs.Prelude.{◌≡◌, [], IfOk};
ghost use Rattle.repl_data.specs.Names.{id_ava, with_id};
ghost use Rattle.repl_data.specs.View.{tombstone_rdn};

use crate::order::put;
use crate::shown::id_val;
use repl_data::{Ava, AvaList, Items, NoMemory, Rdn, Uid, attr_named};
use std::alloc::Global;

fn id_ava(alloc: Global, id: Uid) -> Result<Ava, NoMemory>
    ensures { IfOk result (λ a. a ≡ id_ava id) }
{
    Ok(Ava {
        attr: attr_named(alloc, b"nsuniqueid".as_slice())?,
        val: id_val(alloc, id)?,
    })
}

fn copied(rdn: &Rdn) -> Result<AvaList, NoMemory>
    ensures { IfOk result (λ avas. avas ≡ rdn.now.avas) }
{
    let avas = rdn.avas.clone()?;
    Ok(avas)
}

/// The relative name that an entry shows that lost its name: the name with the entry's id as one part more.
pub fn with_id(alloc: Global, id: Uid, rdn: &Rdn) -> Result<Rdn, NoMemory>
    ensures { IfOk result (λ joined. joined ≡ with_id id rdn.now) }
{
    let mut avas = copied(rdn)?;
    put(id_ava(alloc, id)?, &mut avas)?;
    Ok(Rdn { avas })
}

/// The relative name that a tombstone shows: its id alone.
pub fn tombstone_rdn(alloc: Global, id: Uid) -> Result<Rdn, NoMemory>
    ensures { IfOk result (λ rdn. rdn ≡ tombstone_rdn id) }
{
    let none = Rdn {
        avas: Items::new(alloc),
    };
    with_id(alloc, id, &none)
}
