//! The table of 40 types: their names, and the kind of their values.

ghost use Rattle.std.specs.Prelude.{◌≡◌, find};
ghost use Rattle.std.specs.Option.{option_copied, option_map};
ghost use Rattle.attr_keys.specs.Table.{is_named, type_of, first_name, kind_of};
ghost use Rattle.attr_keys.specs.Table.{seen};

use crate::kind::Kind;
use crate::name::base_len;
use repl_data::AttrKey;

/// An attribute type that is known.
#[derive(Clone, Copy, Debug)]
pub(crate) struct TypeRow {
    /// Its first name, in lower case, which is in the keys.
    pub(crate) name: &'static [u8],
    /// Its other name, or the first one again.
    pub(crate) other: &'static [u8],
    /// The kind of its values.
    pub(crate) kind: Kind,
}

pub(crate) static TYPES: [TypeRow; 40] = [
    TypeRow {
        name: b"objectclass",
        other: b"objectclass",
        kind: Kind::Dir,
    },
    TypeRow {
        name: b"cn",
        other: b"commonname",
        kind: Kind::Dir,
    },
    TypeRow {
        name: b"sn",
        other: b"surname",
        kind: Kind::Dir,
    },
    TypeRow {
        name: b"givenname",
        other: b"givenname",
        kind: Kind::Dir,
    },
    TypeRow {
        name: b"initials",
        other: b"initials",
        kind: Kind::Dir,
    },
    TypeRow {
        name: b"title",
        other: b"title",
        kind: Kind::Dir,
    },
    TypeRow {
        name: b"description",
        other: b"description",
        kind: Kind::Dir,
    },
    TypeRow {
        name: b"o",
        other: b"organizationname",
        kind: Kind::Dir,
    },
    TypeRow {
        name: b"ou",
        other: b"organizationalunitname",
        kind: Kind::Dir,
    },
    TypeRow {
        name: b"l",
        other: b"localityname",
        kind: Kind::Dir,
    },
    TypeRow {
        name: b"st",
        other: b"stateorprovincename",
        kind: Kind::Dir,
    },
    TypeRow {
        name: b"street",
        other: b"streetaddress",
        kind: Kind::Dir,
    },
    TypeRow {
        name: b"c",
        other: b"countryname",
        kind: Kind::Dir,
    },
    TypeRow {
        name: b"postalcode",
        other: b"postalcode",
        kind: Kind::Dir,
    },
    TypeRow {
        name: b"postofficebox",
        other: b"postofficebox",
        kind: Kind::Dir,
    },
    TypeRow {
        name: b"uid",
        other: b"userid",
        kind: Kind::Dir,
    },
    TypeRow {
        name: b"displayname",
        other: b"displayname",
        kind: Kind::Dir,
    },
    TypeRow {
        name: b"employeenumber",
        other: b"employeenumber",
        kind: Kind::Dir,
    },
    TypeRow {
        name: b"employeetype",
        other: b"employeetype",
        kind: Kind::Dir,
    },
    TypeRow {
        name: b"departmentnumber",
        other: b"departmentnumber",
        kind: Kind::Dir,
    },
    TypeRow {
        name: b"businesscategory",
        other: b"businesscategory",
        kind: Kind::Dir,
    },
    TypeRow {
        name: b"preferredlanguage",
        other: b"preferredlanguage",
        kind: Kind::Dir,
    },
    TypeRow {
        name: b"member",
        other: b"member",
        kind: Kind::Dir,
    },
    TypeRow {
        name: b"uniquemember",
        other: b"uniquemember",
        kind: Kind::Dir,
    },
    TypeRow {
        name: b"owner",
        other: b"owner",
        kind: Kind::Dir,
    },
    TypeRow {
        name: b"manager",
        other: b"manager",
        kind: Kind::Dir,
    },
    TypeRow {
        name: b"seealso",
        other: b"seealso",
        kind: Kind::Dir,
    },
    TypeRow {
        name: b"labeleduri",
        other: b"labeleduri",
        kind: Kind::Exact,
    },
    TypeRow {
        name: b"homedirectory",
        other: b"homedirectory",
        kind: Kind::Exact,
    },
    TypeRow {
        name: b"loginshell",
        other: b"loginshell",
        kind: Kind::Exact,
    },
    TypeRow {
        name: b"dc",
        other: b"domaincomponent",
        kind: Kind::Ia5,
    },
    TypeRow {
        name: b"mail",
        other: b"rfc822mailbox",
        kind: Kind::Ia5,
    },
    TypeRow {
        name: b"memberuid",
        other: b"memberuid",
        kind: Kind::Ia5,
    },
    TypeRow {
        name: b"gecos",
        other: b"gecos",
        kind: Kind::Ia5,
    },
    TypeRow {
        name: b"uidnumber",
        other: b"uidnumber",
        kind: Kind::Int,
    },
    TypeRow {
        name: b"gidnumber",
        other: b"gidnumber",
        kind: Kind::Int,
    },
    TypeRow {
        name: b"telephonenumber",
        other: b"telephonenumber",
        kind: Kind::Tel,
    },
    TypeRow {
        name: b"mobile",
        other: b"mobile",
        kind: Kind::Tel,
    },
    TypeRow {
        name: b"userpassword",
        other: b"userpassword",
        kind: Kind::Oct,
    },
    TypeRow {
        name: b"jpegphoto",
        other: b"jpegphoto",
        kind: Kind::Oct,
    },
];

fn row_in<'a>(rows: &'a [TypeRow], base: &[u8]) -> Option<&'a TypeRow>
    ensures { option_copied result ≡ find (λ r. is_named base.now (seen r)) rows.now }
{
    rows.iter()
        .find(|row| row.name == base || row.other == base)
}

fn row_of(base: &[u8]) -> Option<&'static TypeRow>
    ensures { option_map seen (option_copied result) ≡ type_of base.now }
{
    row_in(&TYPES, base)
}

/// The first name of the type that has this name in lower case, or the name itself.
pub(crate) fn first_name<'a>(base: &'a [u8]) -> &'a [u8]
    ensures { result.now ≡ first_name base.now }
{
    match row_of(base) {
        Some(row) => row.name,
        None => base,
    }
}

/// The kind of an attribute's values, which its name without the options decides. A type that is not
/// known is `Kind::Dir`. In constant time but for the length of the name.
#[tactic(auto, unfolding(crate::specs::Table::kind_of))]
pub fn kind_of(attr: &AttrKey) -> Kind
    ensures { result ≡ kind_of attr.now.name }
{
    let name = attr.name.as_slice();
    match row_of(&name[..base_len(name)]) {
        Some(row) => row.kind,
        None => Kind::Dir,
    }
}
