//! Entries that stand in no set of changes: the root entry, and the entry of the vector.

ghost use Rattle.std.specs.Prelude.{◌≡◌, ◌++◌, ◌∷◌, [], map, codes, IfOk, OnOk};
ghost use Rattle.repl_data.specs.View.{operational, tombstone_class};
ghost use Rattle.attr_keys.specs.Table.{kind_of};
ghost use Rattle.search_core.specs.Made.{directory_val, shown_attr, root_entry, vector_rdn, vector_vals, vector_attrs, vector_entry};

use attr_keys::{KeyFault, Kind, value_key};
use repl_data::{
    AttrKey, Ava, AvaList, Bytes, Csn, NoMemory, Rdn, Shown, ShownEntry, ShownList, Uid, Val,
    ValList, VectorText, attr_named, text_val,
};
use shown_entry::{dn_text, in_order};
use std::alloc::Global;

/// The id that the entry of the vector shows.
pub(crate) const VECTOR_ID: &'static [u8; 35] = b"ffffffff-ffffffff-ffffffff-ffffffff";

/// The greatest id, which belongs to no entry.
const VECTOR_UID: Uid = Uid {
    csn: Csn {
        time: 4_294_967_295,
        seq: 65_535,
        rid: 65_535,
        sub: 65_535,
    },
};

fn text(alloc: Global, bytes: &[u8]) -> Result<Bytes, NoMemory>
    ensures { IfOk result (λ t. t ≡ bytes.now) }
{
    Bytes::from_slice(alloc, bytes)
}

/// An attribute whose values are directory strings.
fn directory_attr(alloc: Global) -> Result<AttrKey, NoMemory>
    ensures { IfOk result (λ t. kind_of t.name ≡ Kind.Dir) }
{
    attr_named(alloc, b"nsds50ruv".as_slice())
}

/// A value with the key of its text. Bytes that are no text are their own key.
fn directory_val(alloc: Global, bytes: &[u8]) -> Result<Val, NoMemory>
    ensures { IfOk result (λ v. v ≡ directory_val bytes.now) }
{
    let attr = directory_attr(alloc)?;
    let spelled = text(alloc, bytes)?;
    match value_key(alloc, &attr, bytes) {
        Ok(key) => Ok(Val { key, spelled }),
        Err(KeyFault::BadValue { .. }) => {
            let key = text(alloc, bytes)?;
            Ok(Val { key, spelled })
        }
        Err(_) => Err(NoMemory),
    }
}

fn one_val(alloc: Global, val: Val) -> Result<ValList, NoMemory>
    ensures { IfOk result (λ vals. vals ≡ val ∷ []) }
{
    let mut vals = ValList::new(alloc);
    vals.push(val)?;
    Ok(vals)
}

fn two_vals(alloc: Global, first: Val, second: Val) -> Result<ValList, NoMemory>
    ensures { IfOk result (λ vals. vals ≡ first ∷ second ∷ []) }
{
    let mut vals = one_val(alloc, first)?;
    vals.push(second)?;
    Ok(vals)
}

fn shown_attr(alloc: Global, name: &[u8], vals: ValList) -> Result<Shown, NoMemory>
    ensures { IfOk result (λ s. s ≡ shown_attr name.now vals) }
{
    let attr = attr_named(alloc, name)?;
    Ok(Shown {
        attr,
        vals,
        operational: false,
    })
}

fn root_attrs(alloc: Global, suffix: &[u8]) -> Result<ShownList, NoMemory>
    ensures { IfOk result (λ attrs. attrs ≡ (root_entry suffix.now).attrs) }
{
    let contexts = one_val(alloc, directory_val(alloc, suffix)?)?;
    let classes = one_val(alloc, text_val(alloc, b"top".as_slice())?)?;
    let versions = one_val(alloc, text_val(alloc, b"3".as_slice())?)?;
    let mut attrs = ShownList::new(alloc);
    attrs.push(shown_attr(alloc, b"namingcontexts".as_slice(), contexts)?)?;
    attrs.push(shown_attr(alloc, b"objectclass".as_slice(), classes)?)?;
    attrs.push(shown_attr(alloc, b"supportedldapversion".as_slice(), versions)?)?;
    Ok(attrs)
}

/// The entry with the empty name, which tells of the server (RFC 4512, section 5.1).
pub(crate) fn root_entry(alloc: Global, suffix: &[u8]) -> Result<ShownEntry, NoMemory>
    ensures { IfOk result (λ e. e ≡ root_entry suffix.now) }
{
    let attrs = root_attrs(alloc, suffix)?;
    Ok(ShownEntry {
        id: Uid::SUFFIX,
        dn: Bytes::new(alloc),
        attrs,
    })
}

fn vals_of(alloc: Global, texts: &[Bytes]) -> Result<ValList, NoMemory>
    ensures { IfOk result (λ vals. vals ≡ map directory_val texts.now) }
{
    let mut vals = ValList::new(alloc);
    for one in texts {
        vals.push(directory_val(alloc, one.as_slice())?)?;
    }
    Ok(vals)
}

/// The texts of the vector as values, in order of key.
fn vector_vals(alloc: Global, vector: &VectorText) -> Result<ValList, NoMemory>
    ensures { IfOk result (λ vals. vals ≡ vector_vals vector.now) }
{
    let vals = vals_of(alloc, vector.as_slice())?;
    in_order(alloc, vals)
}

/// Appends an operational attribute, unless it has no value.
fn push_operational(
    alloc: Global,
    name: &[u8],
    vals: ValList,
    attrs: &mut ShownList,
) -> Result<(), NoMemory>
    ensures { OnOk result (attrs.new ≡ attrs.old ++ operational name.now vals) }
{
    if !vals.is_empty() {
        let attr = attr_named(alloc, name)?;
        attrs.push(Shown {
            attr,
            vals,
            operational: true,
        })?;
    }
    Ok(())
}

fn tombstone_class(alloc: Global) -> Result<Val, NoMemory>
    ensures { IfOk result (λ v. v ≡ tombstone_class) }
{
    let key = text(alloc, b"nstombstone".as_slice())?;
    let spelled = text(alloc, b"nsTombstone".as_slice())?;
    Ok(Val { key, spelled })
}

fn vector_attrs(alloc: Global, vector: &VectorText) -> Result<ShownList, NoMemory>
    ensures { IfOk result (λ attrs. attrs ≡ vector_attrs vector.now) }
{
    let mut attrs = ShownList::new(alloc);
    let vals = vector_vals(alloc, vector)?;
    push_operational(alloc, b"nsds50ruv".as_slice(), vals, &mut attrs)?;
    let id = one_val(alloc, text_val(alloc, VECTOR_ID.as_slice())?)?;
    push_operational(alloc, b"nsuniqueid".as_slice(), id, &mut attrs)?;
    let top = text_val(alloc, b"top".as_slice())?;
    let classes = two_vals(alloc, tombstone_class(alloc)?, top)?;
    attrs.push(shown_attr(alloc, b"objectclass".as_slice(), classes)?)?;
    Ok(attrs)
}

fn vector_rdn(alloc: Global) -> Result<Rdn, NoMemory>
    ensures { IfOk result (λ rdn. rdn ≡ vector_rdn) }
{
    let attr = attr_named(alloc, b"nsuniqueid".as_slice())?;
    let val = text_val(alloc, VECTOR_ID.as_slice())?;
    let mut avas = AvaList::new(alloc);
    avas.push(Ava { attr, val })?;
    Ok(Rdn { avas })
}

/// The entry that shows the update vector, directly below the suffix.
pub(crate) fn vector_entry(
    alloc: Global,
    suffix: &[u8],
    vector: &VectorText,
) -> Result<ShownEntry, NoMemory>
    ensures { IfOk result (λ e. e ≡ vector_entry suffix.now vector.now) }
{
    let rdn = vector_rdn(alloc)?;
    let dn = dn_text(alloc, suffix, &[rdn])?;
    let attrs = vector_attrs(alloc, vector)?;
    Ok(ShownEntry {
        id: VECTOR_UID,
        dn,
        attrs,
    })
}
