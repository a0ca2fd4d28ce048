//! A whole message: its id, its operation, its controls.

ghost use Rattle.std.specs.Prelude.{◌≡◌, ◌≤◌, ◌⊎◌, ◌++◌, List, ℕ, Ok, Err, length, take, IfOk};
ghost use Rattle.ber_core.specs.Cursor.{Gives, pair, window, with_window};
ghost use Rattle.ldap_requests.specs.Grammar.{message_id, control_inside, control, request_inside, request_at};
ghost use Rattle.ber_core.specs.Window.{outermost, open_as, many, optional};
ghost use Rattle.ldap_requests.specs.Laws.{StaysRead, StaysAtFault, NoneIsPrefix, EverySpellingIsRead, OneRequest, NoSpellingIsPrefix, HasNoRequest, BeginsNoRequest};
ghost use Rattle.ldap_requests.specs.Spelling.{Spells};

use crate::operation::operation;
use crate::parts::{optional_boolean, skip};
use ber_core::{BerWhy, Cursor, NotLdapWhy, ReadFault, optional_text, text};
use ldap_types::{Control, ControlList, MESSAGE_LIMIT, Request};
use std::alloc::Global;

/// The id of a message that is the content, from 1 to 2147483647 (RFC 4511, section 4.1.1.1).
#[tactic(auto, unfolding(crate::specs::Grammar::message_id))]
pub fn message_id(w: Cursor) -> Result<u32, ReadFault>
    ensures { Gives (λ n. n) result (message_id (window w.entry)) }
{
    let value = w.int()?;
    if value < 1 || value > 2_147_483_647 {
        return Err(ReadFault::NotLdap {
            place: w.start,
            why: NotLdapWhy::Id,
        });
    }
    Ok(value as u32)
}

#[tactic(auto, unfolding(crate::specs::Grammar::control_inside))]
fn control_inside(alloc: Global, w: Cursor) -> Result<Control, ReadFault>
    ensures { Gives (λ c. c) result (control_inside (window w.entry)) }
{
    let (oid, rest) = text(alloc, w)?;
    let (critical, rest) = optional_boolean(rest)?;
    let (value, rest) = optional_text(alloc, 0x04, rest)?;
    skip(rest)?;
    Ok(Control {
        oid,
        critical: critical.unwrap_or(false),
        value,
    })
}

#[tactic(auto, unfolding(ber_core::specs::Window::element))]
fn control(alloc: Global, w: Cursor) -> Result<(Control, Cursor), ReadFault>
    ensures { Gives with_window result (control (window w.entry)) }
{
    let (inside, rest) = w.open_as(0x30)?;
    Ok((control_inside(alloc, inside)?, rest))
}

fn controls(alloc: Global, w: Cursor) -> Result<ControlList, ReadFault>
    ensures { Gives (λ xs. xs) result (many control (window w.entry)) }
{
    let mut all = ControlList::new(alloc);
    let mut here = w;
    for _ in 0..w.left {
        if here.left == 0 {
            return Ok(all);
        }
        let (one, rest) = control(alloc, here)?;
        all.push(one)?;
        here = rest;
    }
    Ok(all)
}

#[tactic(auto, unfolding(ber_core::specs::Window::optional, ber_core::specs::Window::element))]
fn optional_controls(alloc: Global, w: Cursor) -> Result<(Option<ControlList>, Cursor), ReadFault>
    ensures { Gives with_window result (optional 0xa0 (many control) (window w.entry)) }
{
    if w.left == 0 {
        return Ok((None, w));
    }
    if w.tag()? != 0xa0 {
        return Ok((None, w));
    }
    let (inside, rest) = w.open_as(0xa0)?;
    Ok((Some(controls(alloc, inside)?), rest))
}

#[tactic(auto, unfolding(crate::specs::Grammar::request_inside, ber_core::specs::Window::element))]
fn request_inside(alloc: Global, w: Cursor) -> Result<Request, ReadFault>
    ensures { Gives (λ r. r) result (request_inside (window w.entry)) }
{
    let (inside, rest) = w.open_as(0x02)?;
    let id = message_id(inside)?;
    let (op, rest) = operation(alloc, rest)?;
    let (controls, rest) = optional_controls(alloc, rest)?;
    skip(rest)?;
    let controls = match controls {
        Some(controls) => controls,
        None => ControlList::new(alloc),
    };
    Ok(Request { id, op, controls })
}

fn open_message(w: Cursor) -> Result<(Cursor, Cursor), ReadFault>
    ensures { Gives pair result (outermost (open_as 0x30 (window w.entry))) }
{
    match w.open_as(0x30) {
        Ok(found) => Ok(found),
        Err(
            ReadFault::NotLdap {
                place,
                why: NotLdapWhy::Ber(BerWhy::TooLarge),
            },
        ) => Err(ReadFault::NotLdap {
            place,
            why: NotLdapWhy::TooLarge,
        }),
        Err(e) => Err(e),
    }
}

#[tactic(auto, unfolding(crate::specs::Grammar::request_at))]
fn find_request(alloc: Global, input: &[u8]) -> Result<(Request, usize), ReadFault>
    ensures { Gives (λ r. r) result (request_at 2097152 input.now) }
{
    let (inside, rest) = open_message(Cursor {
        start: 0,
        at: 0,
        left: MESSAGE_LIMIT,
        bytes: input,
    })?;
    let request = request_inside(alloc, inside)?;
    Ok((request, rest.at))
}

/// The request at the front of the input, and how many bytes it has.
///
/// A message is one element, and so is each of its parts (RFC 4511, section 4). Lengths are definite,
/// also where fewer bytes could say them, and integers have up to eight bytes, also where fewer could
/// spell them (RFC 4511, section 5.1). An element after the last known one of a message, an operation
/// or a control is skipped; one elsewhere is at fault. A bind by SASL and an extensible filter are read
/// whole, and nothing of them is kept.
///
/// `More` comes where the bytes are not at fault and hold no whole message yet. A fault is told as soon
/// as it is certain, and stays the same whatever bytes follow: a message of more than `MESSAGE_LIMIT`
/// bytes as soon as its length says so, a part that passes the end of the one around it as soon as its
/// length does, a filter of more than `FILTER_DEPTH` levels at the tag of the first that is too deep.
///
/// One pass over the bytes: in time and memory in proportion to the message. Calls nest no deeper than
/// the filter.
pub fn read_request(alloc: Global, input: &[u8]) -> Result<(Request, usize), ReadFault>
    // What is read is a request that the bytes of that size spell, at the front of the input.
    ensures found { IfOk result (λ r. Spells (take r.1 input.now) r.0) }
    ensures within { IfOk result (λ r. (r.1 ≤ length input.now) × (r.1 ≤ 2097152)) }

    // Every spelling of a request is read as that request, whatever follows it, unless memory runs out.
    ensures only { (bytes rest : List ℕ) (r : Request) → Spells bytes r → length bytes ≤ 2097152
        → input.now ≡ bytes ++ rest
        → (result ≡ Ok (r, length bytes)) ⊎ (result ≡ Err ReadFault.NoMemory) }

    // More: none stands at the front yet. NotLdap: none does, however the bytes go on.
    ensures more { result ≡ Err ReadFault.More → HasNoRequest 2097152 input.now }
    ensures bad { (place : ℕ) (why : NotLdapWhy) → result ≡ Err (ReadFault.NotLdap place why)
        → BeginsNoRequest 2097152 input.now }

    // Which answer it is, by reading element by element from the front: a request with its size, More,
    // or the first fault, with its place and reason.
    ensures exact { Gives (λ r. r) result (request_at 2097152 input.now) }
{
    find_request(alloc, input)
}

/// No later byte changes what was read: a request stays the request, of the same size, and a fault the
/// fault, with its place and reason. So bytes are read as one request at most, and none is a proper
/// prefix of another.
///
/// Every spelling of a request (RFC 4511, section 4) is read, so bytes spell one request at most, and
/// no spelling is a proper prefix of another.
pub fn request_laws()
    ensures request_stays { StaysRead }
    ensures fault_stays { StaysAtFault }
    ensures no_prefix { NoneIsPrefix }

    ensures spelling_read { EverySpellingIsRead }
    ensures one_request { OneRequest }
    ensures no_spelling_is_prefix { NoSpellingIsPrefix }
{}
