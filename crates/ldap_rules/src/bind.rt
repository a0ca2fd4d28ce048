//! Whom a bind names.

ghost use Rattle.std.specs.Prelude.{◌≡◌, Ok, IfOk, ◌&&◌, pos, if◌then◌else◌};
ghost use Rattle.std.specs.Ordering.{int_eq};
ghost use Rattle.dn_text.specs.Reading.{dn_in};
ghost use Rattle.repl_data.specs.Order.{bytes_eq};
ghost use Rattle.repl_data.specs.Check.{is_empty};
ghost use Rattle.dn_text.specs.Names.{have_same_keys, is_named};
ghost use Rattle.ldap_rules.specs.Bind.{manager_name, manager_password, supplier_name, supplier_password, unbound, bound_as, bind_verdict};

use dn_text::{Dn, DnFault, read_dn, result_of, same_keys};
use ldap_types::{Auth, BindRequest, Code, Identity, LdapResult, NoMemory};
use repl_data::same_bytes;
use std::alloc::Global;

/// The name of the one who may write.
pub const MANAGER: &[u8] = b"cn=manager";

pub const MANAGER_PASSWORD: &[u8] = b"secret";

/// The name of another server.
pub const SUPPLIER: &[u8] = b"cn=supplier";

pub const SUPPLIER_PASSWORD: &[u8] = b"repl";

fn unbound(alloc: Global, code: Code) -> (Identity, LdapResult)
    ensures { result ≡ unbound code.number }
{
    (Identity::Anonymous, result_of(alloc, code))
}

fn bound_as(alloc: Global, identity: Identity) -> (Identity, LdapResult)
    ensures { result ≡ bound_as identity }
{
    (identity, result_of(alloc, Code::SUCCESS))
}

fn is_empty(bytes: &[u8]) -> bool
    ensures { result ≡ is_empty bytes.now }
{
    match bytes.first() {
        Some(_) => false,
        None => true,
    }
}

/// The name is the one that this text spells, by the keys of its relative names.
fn is_named(alloc: Global, configured: &[u8], dn: &Dn) -> Result<bool, NoMemory>
    ensures { IfOk result (λ named. named ≡ have_same_keys (dn_in configured.now) (Ok dn.now)) }
{
    match read_dn(alloc, configured) {
        Ok(own) => Ok(same_keys(&own, dn)),
        Err(DnFault::NoMemory) => Err(NoMemory),
        Err(DnFault::BadDn { .. }) => Ok(false),
    }
}

/// This name binds with this password.
fn is_account(
    alloc: Global,
    name: &[u8],
    password: &[u8],
    dn: &Dn,
    given: &[u8],
) -> Result<bool, NoMemory>
    ensures { IfOk result (λ is. is ≡ (have_same_keys (dn_in name.now) (Ok dn.now) && bytes_eq given.now password.now)) }
{
    let named = is_named(alloc, name, dn)?;
    Ok(named && same_bytes(given, password))
}

/// The end of a bind by a name that can be read, with a password.
fn judge_named(
    alloc: Global,
    text: &[u8],
    dn: &Dn,
    password: &[u8],
) -> Result<(Identity, LdapResult), NoMemory>
    requires { dn_in text.now ≡ Ok dn.now }
    ensures { IfOk result (λ answer. answer ≡ (
        if is_named manager_name text.now && bytes_eq password.now manager_password then bound_as Identity.Manager
        else if is_named supplier_name text.now && bytes_eq password.now supplier_password then bound_as Identity.Supplier
        else unbound 49)) }
{
    if is_account(alloc, MANAGER, MANAGER_PASSWORD, dn, password)? {
        return Ok(bound_as(alloc, Identity::Manager));
    }
    if is_account(alloc, SUPPLIER, SUPPLIER_PASSWORD, dn, password)? {
        return Ok(bound_as(alloc, Identity::Supplier));
    }
    Ok(unbound(alloc, Code::INVALID_CREDENTIALS))
}

/// The end of a bind by a name and a password.
fn judge_simple(
    alloc: Global,
    name: &[u8],
    password: &[u8],
) -> Result<(Identity, LdapResult), NoMemory>
    ensures { IfOk result (λ answer. answer ≡ bind_verdict (record { version = pos 3; name = name.now; auth = Auth.Simple password.now })) }
{
    if is_empty(name) {
        return Ok(if is_empty(password) {
            bound_as(alloc, Identity::Anonymous)
        } else {
            unbound(alloc, Code::INVALID_CREDENTIALS)
        });
    }
    if is_empty(password) {
        return Ok(unbound(alloc, Code::UNWILLING_TO_PERFORM));
    }
    match read_dn(alloc, name) {
        Ok(dn) => judge_named(alloc, name, &dn, password),
        Err(DnFault::NoMemory) => Err(NoMemory),
        Err(DnFault::BadDn { .. }) => Ok(unbound(alloc, Code::INVALID_DN_SYNTAX)),
    }
}

/// Whom a bind names, and its answer (RFC 4511, section 4.2). Who is not named is anonymous.
///
/// The first that fits: a version other than 3 is `protocolError`; a bind by SASL is
/// `authMethodNotSupported`; no name and no password is anonymous and `success`; no name with a password is
/// `invalidCredentials`; a name without a password is `unwillingToPerform` (RFC 4513, section 5.1.2); a name
/// that can't be read is `invalidDNSyntax`; one of the two names, by the keys of its relative names, with its
/// password byte for byte is `success`; all else is `invalidCredentials`. In time linear in the request.
pub fn judge_bind(alloc: Global, request: &BindRequest) -> Result<(Identity, LdapResult), NoMemory>
    ensures { IfOk result (λ answer. answer ≡ bind_verdict request.now) }
{
    if request.version != 3 {
        return Ok(unbound(alloc, Code::PROTOCOL_ERROR));
    }
    match &request.auth {
        Auth::Simple(password) => {
            judge_simple(alloc, request.name.as_slice(), password.as_slice())
        }
        Auth::Sasl => Ok(unbound(alloc, Code::AUTH_METHOD_NOT_SUPPORTED)),
    }
}
