//! Reading a reply, and the laws of both ways.

ghost use Rattle.std.specs.Prelude.{◌≡◌, ◌≤◌, ◌++◌, List, ℕ, length, take, IfOk, Ok};
ghost use Rattle.ldap_types.specs.declared.reply.Reply.{Reply};
ghost use Rattle.ber_core.specs.Cursor.{Gives, pair, window, with_window};
ghost use Rattle.ber_core.specs.Window.{outermost, many};
ghost use Rattle.ldap_replies.specs.Form.{reply_bytes, IsInRange};
ghost use Rattle.ldap_replies.specs.Grammar.{open_exact, message_id, result_code, ldap_result, result_inside, attribute_inside, attribute, entry_inside, extended_inside, is_reply_tag, op_inside, operation, reply_inside, reply_at};
ghost use Rattle.ldap_replies.specs.Laws.{IsReadBack, FrontWantsMore, NoneIsPrefix, StaysAtFault};

use crate::piece::{exact_int, open_exact, optional_text, text, texts};
use ber_core::{BerWhy, Cursor, NotLdapWhy, ReadFault, ended};
use ldap_types::{Code, LdapResult, MESSAGE_LIMIT, RawAttr, RawAttrList, Reply, ReplyOp};
use std::alloc::Global;

#[tactic(auto, unfolding(crate::specs::Grammar::message_id))]
fn message_id(w: Cursor) -> Result<u32, ReadFault>
    ensures { Gives (λ n. n) result (message_id (window w.entry)) }
{
    let value = exact_int(w)?;
    if value < 0 || value > 2_147_483_647 {
        return Err(ReadFault::NotLdap {
            place: w.start,
            why: NotLdapWhy::Id,
        });
    }
    Ok(value as u32)
}

#[tactic(auto, unfolding(crate::specs::Grammar::result_code))]
fn result_code(w: Cursor) -> Result<u32, ReadFault>
    ensures { Gives (λ n. n) result (result_code (window w.entry)) }
{
    let value = exact_int(w)?;
    if value < 0 || value > 4_294_967_295 {
        return Err(ReadFault::NotLdap {
            place: w.start,
            why: NotLdapWhy::Shape,
        });
    }
    Ok(value as u32)
}

#[tactic(auto, unfolding(crate::specs::Grammar::ldap_result, crate::specs::Grammar::exact))]
fn ldap_result(alloc: Global, w: Cursor) -> Result<(LdapResult, Cursor), ReadFault>
    ensures { Gives with_window result (ldap_result (window w.entry)) }
{
    let (inside, rest) = open_exact(w, 0x0a)?;
    let number = result_code(inside)?;
    let (matched, rest) = text(alloc, rest)?;
    let (text, rest) = text(alloc, rest)?;
    let code = Code { number };
    Ok((
        LdapResult {
            code,
            matched,
            text,
        },
        rest,
    ))
}

#[tactic(auto, unfolding(crate::specs::Grammar::result_inside))]
fn result_inside(alloc: Global, w: Cursor) -> Result<LdapResult, ReadFault>
    ensures { Gives (λ r. r) result (result_inside (window w.entry)) }
{
    let (found, rest) = ldap_result(alloc, w)?;
    ended(rest)?;
    Ok(found)
}

#[tactic(auto, unfolding(crate::specs::Grammar::attribute_inside, crate::specs::Grammar::exact))]
fn attribute_inside(alloc: Global, w: Cursor) -> Result<RawAttr, ReadFault>
    ensures { Gives (λ a. a) result (attribute_inside (window w.entry)) }
{
    let (name, rest) = text(alloc, w)?;
    let (inside, rest) = open_exact(rest, 0x31)?;
    let vals = texts(alloc, inside)?;
    ended(rest)?;
    Ok(RawAttr { name, vals })
}

#[tactic(auto, unfolding(crate::specs::Grammar::exact))]
fn attribute(alloc: Global, w: Cursor) -> Result<(RawAttr, Cursor), ReadFault>
    ensures { Gives with_window result (attribute (window w.entry)) }
{
    let (inside, rest) = open_exact(w, 0x30)?;
    Ok((attribute_inside(alloc, inside)?, rest))
}

fn attributes(alloc: Global, w: Cursor) -> Result<RawAttrList, ReadFault>
    ensures { Gives (λ xs. xs) result (many attribute (window w.entry)) }
{
    let mut all = RawAttrList::new(alloc);
    let mut here = w;
    for _ in 0..w.left {
        if here.left == 0 {
            return Ok(all);
        }
        let (one, rest) = attribute(alloc, here)?;
        all.push(one)?;
        here = rest;
    }
    Ok(all)
}

#[tactic(auto, unfolding(crate::specs::Grammar::entry_inside, crate::specs::Grammar::exact))]
fn entry_inside(alloc: Global, w: Cursor) -> Result<ReplyOp, ReadFault>
    ensures { Gives (λ o. o) result (entry_inside (window w.entry)) }
{
    let (name, rest) = text(alloc, w)?;
    let (inside, rest) = open_exact(rest, 0x30)?;
    let attrs = attributes(alloc, inside)?;
    ended(rest)?;
    Ok(ReplyOp::Entry { name, attrs })
}

#[tactic(auto, unfolding(crate::specs::Grammar::extended_inside))]
fn extended_inside(alloc: Global, w: Cursor) -> Result<ReplyOp, ReadFault>
    ensures { Gives (λ o. o) result (extended_inside (window w.entry)) }
{
    let (result, rest) = ldap_result(alloc, w)?;
    let (oid, rest) = optional_text(alloc, 0x8a, rest)?;
    let (value, rest) = optional_text(alloc, 0x8b, rest)?;
    ended(rest)?;
    Ok(ReplyOp::Extended { result, oid, value })
}

fn is_reply_tag(tag: u8) -> bool
    ensures { result ≡ is_reply_tag tag }
{
    matches!(
        tag,
        0x61 | 0x64 | 0x65 | 0x67 | 0x69 | 0x6b | 0x6d | 0x6f | 0x78
    )
}

#[tactic(auto, unfolding(crate::specs::Grammar::op_inside))]
fn op_inside(alloc: Global, tag: u8, w: Cursor) -> Result<ReplyOp, ReadFault>
    ensures { Gives (λ o. o) result (op_inside tag (window w.entry)) }
{
    match tag {
        0x61 => Ok(ReplyOp::Bind(result_inside(alloc, w)?)),
        0x64 => entry_inside(alloc, w),
        0x65 => Ok(ReplyOp::Done(result_inside(alloc, w)?)),
        0x67 => Ok(ReplyOp::Modify(result_inside(alloc, w)?)),
        0x69 => Ok(ReplyOp::Add(result_inside(alloc, w)?)),
        0x6b => Ok(ReplyOp::Delete(result_inside(alloc, w)?)),
        0x6d => Ok(ReplyOp::Rename(result_inside(alloc, w)?)),
        0x6f => Ok(ReplyOp::Compare(result_inside(alloc, w)?)),
        _ => extended_inside(alloc, w),
    }
}

#[tactic(auto, unfolding(crate::specs::Grammar::operation))]
fn operation(alloc: Global, w: Cursor) -> Result<(ReplyOp, Cursor), ReadFault>
    ensures { Gives with_window result (operation (window w.entry)) }
{
    let tag = w.tag()?;
    if !is_reply_tag(tag) {
        return Err(ReadFault::NotLdap {
            place: w.at,
            why: NotLdapWhy::Op,
        });
    }
    let (inside, rest) = open_exact(w, tag)?;
    Ok((op_inside(alloc, tag, inside)?, rest))
}

#[tactic(auto, unfolding(crate::specs::Grammar::reply_inside, crate::specs::Grammar::exact))]
fn reply_inside(alloc: Global, w: Cursor) -> Result<Reply, ReadFault>
    ensures { Gives (λ r. r) result (reply_inside (window w.entry)) }
{
    let (inside, rest) = open_exact(w, 0x02)?;
    let id = message_id(inside)?;
    let (op, rest) = operation(alloc, rest)?;
    ended(rest)?;
    Ok(Reply { id, op })
}

fn open_message(w: Cursor) -> Result<(Cursor, Cursor), ReadFault>
    ensures { Gives pair result (outermost (open_exact 0x30 (window w.entry))) }
{
    match open_exact(w, 0x30) {
        Ok(found) => Ok(found),
        Err(
            ReadFault::NotLdap {
                place,
                why: NotLdapWhy::Ber(BerWhy::TooLarge),
            },
        ) => Err(ReadFault::NotLdap {
            place,
            why: NotLdapWhy::TooLarge,
        }),
        Err(e) => Err(e),
    }
}

#[tactic(auto, unfolding(crate::specs::Grammar::reply_at))]
fn find_reply(alloc: Global, input: &[u8]) -> Result<(Reply, usize), ReadFault>
    ensures { Gives (λ p. p) result (reply_at 2097152 input.now) }
{
    let (inside, rest) = open_message(Cursor {
        start: 0,
        at: 0,
        left: MESSAGE_LIMIT,
        bytes: input,
    })?;
    let reply = reply_inside(alloc, inside)?;
    Ok((reply, rest.at))
}

/// The reply at the front of the input, and how many bytes it has.
///
/// A reply is taken in the form of `write_reply` alone, which is its one spelling (RFC 4511, sections
/// 4 and 5.1): a length or an integer of more bytes than needed is `Shape` at the first byte of its
/// element, once all bytes of that length or that integer are there, and so is any element after the
/// last known one, controls and referrals included. The id is from 0 to 2147483647; 0 belongs to what
/// nobody asked for, as the notice of disconnection (RFC 4511, section 4.4).
///
/// `More` comes while the bytes are not at fault and no whole reply stands at their front. A place
/// counts from the first byte of the input, and names the first byte of the element at fault; for
/// `Ber` it is the byte at fault. A tag that is that of no reply is `Op`, an id out of range is `Id`,
/// a message of more than 2,097,152 bytes is `TooLarge` at place 0.
///
/// In one pass over the bytes; takes memory in proportion to the message.
pub fn read_reply(alloc: Global, input: &[u8]) -> Result<(Reply, usize), ReadFault>
    // What is read was written so, in that many bytes.
    ensures found { IfOk result (λ p. take p.1 input.now ≡ reply_bytes p.0) }
    ensures within { IfOk result (λ p. (p.1 ≤ length input.now) × IsInRange p.0) }

    // What was written is read, whatever follows it.
    ensures only { (r : Reply) (rest : List ℕ) → IsInRange r → input.now ≡ reply_bytes r ++ rest
        → Gives (λ p. p) result (Ok (r, length (reply_bytes r))) }

    // Which answer it is, More and faults too, unless memory ran out.
    ensures exact { Gives (λ p. p) result (reply_at 2097152 input.now) }
{
    find_reply(alloc, input)
}

/// What replies and their bytes are to one another.
pub fn reply_laws()
    // What is written is read back, whatever bytes follow.
    ensures again { IsReadBack }

    // A proper front of a reply's bytes wants more.
    ensures front { FrontWantsMore }

    // Bytes are those of one reply at most, and no proper front of another's.
    ensures no_prefix { NoneIsPrefix }

    // Bytes that are at fault stay at fault, with the same place and reason.
    ensures fault_stays { StaysAtFault }
{}
