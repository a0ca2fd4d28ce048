//! The lines of the output, and how each is printed.

ghost use Rattle.std.specs.Prelude.{◌≡◌, ◌++◌, ◌∷◌, [], codes, map, Ok, Err, IfOk, OnOk};
ghost use Rattle.std.specs.Fmt.{decimal};
ghost use Rattle.repl_data.specs.Text.{csn_text};
ghost use Rattle.script_text.specs.Output.{refused_words, not_holder_word, own_unknown_word, answer_words, output_words, output_line, reply_line, csn_words, vector_line};

use crate::parts::{
    put_csn, put_number, put_text, put_uid, then_csn, then_number, then_text, with_one, with_two,
};
use crate::print::{hexadecimal_word, print_words};
use repl_data::{Bytes, BytesList, Csn, NoMemory};
use std::alloc::Global;
use vector_core::{AcquireFault, Applied, ApplyFault};

/// How many entries, changes and pending CSNs a node has.
#[derive(Clone, Copy, Drop)]
pub struct Counts {
    /// The entries that are present, the suffix entry and glue among them.
    pub present: u64,
    pub glue: u64,
    /// The entries that lost their name to another one.
    pub conflict: u64,
    pub tombstone: u64,
    /// The changes that were taken.
    pub taken: u64,
    /// The CSNs that were drawn and are not settled.
    pub pending: u64,
}

/// A line of the output that has words of a fixed number. (`print_reply`, `print_vector` and
/// `print_entry` print the others.) N, A and B are nodes, C is a connection, K a ticket, U an update.
#[derive(Clone, Copy, Drop)]
pub enum OutputLine {
    /// `closed C`: the connection ended.
    Closed {
        c: u16,
    },
    /// `start K CSN`: the ticket was begun.
    Started {
        k: u32,
        csn: Csn,
    },
    /// `start K full`: the node has no place for one more pending CSN.
    StartFull {
        k: u32,
    },
    /// `start K exhausted CSN`: no CSN is above this one, the last that the node drew or saw.
    StartExhausted {
        k: u32,
        csn: Csn,
    },
    /// `commit K CSN`: the change was taken under this CSN.
    Committed {
        k: u32,
        csn: Csn,
    },
    /// `commit K refused CODE`: with this result code of LDAP.
    CommitRefused {
        k: u32,
        code: u32,
    },
    /// `commit K stale LIFE NODELIFE`: the ticket is of another life than the node.
    CommitStale {
        k: u32,
        life: u64,
        node_life: u64,
    },
    /// `commit K exhausted CSN`
    CommitExhausted {
        k: u32,
        csn: Csn,
    },
    /// `commit K keeper`: the change could not be kept.
    CommitKeeper {
        k: u32,
    },
    /// `settle K`
    Settled {
        k: u32,
    },
    /// `abort K`
    Aborted {
        k: u32,
    },
    /// `acquire A B ok`
    Acquired {
        a: u16,
        b: u16,
    },
    /// `acquire A B` and why not.
    AcquireRefused {
        a: u16,
        b: u16,
        fault: AcquireFault,
    },
    /// `release A B`
    Released {
        a: u16,
        b: u16,
    },
    /// `offer A B U CSN PREV`
    Offered {
        a: u16,
        b: u16,
        u: u64,
        csn: Csn,
        prev: Csn,
    },
    /// `offer A B done`: there is nothing beyond the cursor.
    OfferDone {
        a: u16,
        b: u16,
    },
    /// `deliver B U ANSWER`
    Delivered {
        b: u16,
        u: u64,
        answer: Result<Applied, ApplyFault>,
    },
    /// `pump A B done S`: so many updates were answered Ok.
    Pumped {
        a: u16,
        b: u16,
        sent: u64,
    },
    /// `pump A B` and why the session did not begin.
    PumpRefused {
        a: u16,
        b: u16,
        fault: AcquireFault,
    },
    /// `pump A B stopped ANSWER S`
    PumpStopped {
        a: u16,
        b: u16,
        fault: ApplyFault,
        sent: u64,
    },
    /// `restart N`
    Restarted {
        n: u16,
    },
    /// `dump N COUNT`: the lines of so many entries follow.
    Dumped {
        n: u16,
        count: u64,
    },
    /// `audit N present P glue G conflict C tombstone T taken X pending Y`
    Audited {
        n: u16,
        counts: Counts,
    },
}

// ---- tickets

/// `start K CSN` or `commit K CSN`
fn with_csn(alloc: Global, name: &[u8], k: u32, csn: Csn) -> Result<BytesList, NoMemory>
    ensures { IfOk result (λ words. words ≡ name.now ∷ decimal k ∷ csn_text csn ∷ []) }
{
    let words = with_one(alloc, name, u64::from(k))?;
    then_csn(alloc, words, csn)
}

/// `start K full` or `commit K keeper`
fn with_text(alloc: Global, name: &[u8], k: u32, text: &[u8]) -> Result<BytesList, NoMemory>
    ensures { IfOk result (λ words. words ≡ name.now ∷ decimal k ∷ text.now ∷ []) }
{
    let words = with_one(alloc, name, u64::from(k))?;
    then_text(alloc, words, text)
}

/// `start K exhausted CSN` or `commit K exhausted CSN`
fn exhausted(alloc: Global, name: &[u8], k: u32, csn: Csn) -> Result<BytesList, NoMemory>
    ensures { IfOk result (λ words. words ≡ name.now ∷ decimal k ∷ codes "exhausted" ∷ csn_text csn ∷ []) }
{
    let words = with_text(alloc, name, k, b"exhausted")?;
    then_csn(alloc, words, csn)
}

fn commit_refused(alloc: Global, k: u32, code: u32) -> Result<BytesList, NoMemory>
    ensures { IfOk result (λ words. words ≡ output_words (OutputLine.CommitRefused k code)) }
{
    let words = with_text(alloc, b"commit", k, b"refused")?;
    then_number(alloc, words, u64::from(code))
}

fn commit_stale(alloc: Global, k: u32, life: u64, node_life: u64) -> Result<BytesList, NoMemory>
    ensures { IfOk result (λ words. words ≡ output_words (OutputLine.CommitStale k life node_life)) }
{
    let mut words = with_text(alloc, b"commit", k, b"stale")?;
    put_number(alloc, &mut words, life)?;
    then_number(alloc, words, node_life)
}

// ---- sessions

/// A name and two nodes.
fn with_pair(alloc: Global, name: &[u8], a: u16, b: u16) -> Result<BytesList, NoMemory>
    ensures { IfOk result (λ words. words ≡ name.now ∷ decimal a ∷ decimal b ∷ []) }
{
    with_two(alloc, name, u64::from(a), u64::from(b))
}

/// `acquire A B ok` or `offer A B done`
fn pair_text(alloc: Global, name: &[u8], a: u16, b: u16, text: &[u8]) -> Result<BytesList, NoMemory>
    ensures { IfOk result (λ words. words ≡ name.now ∷ decimal a ∷ decimal b ∷ text.now ∷ []) }
{
    let words = with_pair(alloc, name, a, b)?;
    then_text(alloc, words, text)
}

fn put_refused(alloc: Global, words: &mut BytesList, fault: AcquireFault) -> Result<(), NoMemory>
    ensures { OnOk result (words.new ≡ words.old ++ refused_words fault) }
{
    match fault {
        AcquireFault::SameId => put_text(alloc, words, b"same"),
        AcquireFault::Busy { rid } => {
            put_text(alloc, words, b"busy")?;
            put_number(alloc, words, u64::from(rid))
        }
        AcquireFault::Skew { csn, now } => {
            put_text(alloc, words, b"skew")?;
            put_csn(alloc, words, csn)?;
            put_number(alloc, words, u64::from(now))
        }
        AcquireFault::WrongSuffix | AcquireFault::NoMemory => Ok(()),
    }
}

/// `acquire A B` or `pump A B`, and why the session did not begin.
fn pair_refused(
    alloc: Global,
    name: &[u8],
    a: u16,
    b: u16,
    fault: AcquireFault,
) -> Result<BytesList, NoMemory>
    ensures { IfOk result (λ words. words ≡ name.now ∷ decimal a ∷ decimal b ∷ refused_words fault) }
{
    let mut words = with_pair(alloc, name, a, b)?;
    put_refused(alloc, &mut words, fault)?;
    Ok(words)
}

fn offered(
    alloc: Global,
    a: u16,
    b: u16,
    u: u64,
    csn: Csn,
    prev: Csn,
) -> Result<BytesList, NoMemory>
    ensures { IfOk result (λ words. words ≡ output_words (OutputLine.Offered a b u csn prev)) }
{
    let mut words = with_pair(alloc, b"offer", a, b)?;
    put_number(alloc, &mut words, u)?;
    put_csn(alloc, &mut words, csn)?;
    then_csn(alloc, words, prev)
}

fn put_applied(alloc: Global, words: &mut BytesList, applied: Applied) -> Result<(), NoMemory>
    ensures { OnOk result (words.new ≡ words.old ++ answer_words (Ok applied)) }
{
    match applied {
        Applied::Taken => put_text(alloc, words, b"ok"),
        Applied::Duplicate => put_text(alloc, words, b"duplicate"),
    }
}

#[tactic(auto, unfolding(crate::specs::Output::not_holder_word))]
fn put_not_holder(alloc: Global, words: &mut BytesList) -> Result<(), NoMemory>
    ensures { OnOk result (words.new ≡ words.old ++ not_holder_word ∷ []) }
{
    put_text(alloc, words, b"not-holder")
}

#[tactic(auto, unfolding(crate::specs::Output::own_unknown_word))]
fn put_own_unknown(alloc: Global, words: &mut BytesList) -> Result<(), NoMemory>
    ensures { OnOk result (words.new ≡ words.old ++ own_unknown_word ∷ []) }
{
    put_text(alloc, words, b"own-unknown")
}

fn put_gap(alloc: Global, words: &mut BytesList, have: Csn, prev: Csn) -> Result<(), NoMemory>
    ensures { OnOk result (words.new ≡ words.old ++ codes "gap" ∷ csn_text have ∷ csn_text prev ∷ []) }
{
    put_text(alloc, words, b"gap")?;
    put_csn(alloc, words, have)?;
    put_csn(alloc, words, prev)
}

fn put_fault(alloc: Global, words: &mut BytesList, fault: ApplyFault) -> Result<(), NoMemory>
    ensures { OnOk result (words.new ≡ words.old ++ answer_words (Err fault)) }
{
    match fault {
        ApplyFault::NotHolder => put_not_holder(alloc, words),
        ApplyFault::OwnUnknown { csn } => {
            put_own_unknown(alloc, words)?;
            put_csn(alloc, words, csn)
        }
        ApplyFault::Skew { csn, now } => {
            put_text(alloc, words, b"skew")?;
            put_csn(alloc, words, csn)?;
            put_number(alloc, words, u64::from(now))
        }
        ApplyFault::Gap { have, prev } => put_gap(alloc, words, have, prev),
        ApplyFault::Missing { id } => {
            put_text(alloc, words, b"missing")?;
            put_uid(alloc, words, id)
        }
        ApplyFault::KeeperFault => put_text(alloc, words, b"keeper"),
        ApplyFault::Malformed(_) | ApplyFault::NoMemory => Ok(()),
    }
}

fn delivered(
    alloc: Global,
    b: u16,
    u: u64,
    answer: Result<Applied, ApplyFault>,
) -> Result<BytesList, NoMemory>
    ensures { IfOk result (λ words. words ≡ output_words (OutputLine.Delivered b u answer)) }
{
    let mut words = with_two(alloc, b"deliver", u64::from(b), u)?;
    match answer {
        Ok(applied) => put_applied(alloc, &mut words, applied)?,
        Err(fault) => put_fault(alloc, &mut words, fault)?,
    }
    Ok(words)
}

fn pumped(alloc: Global, a: u16, b: u16, sent: u64) -> Result<BytesList, NoMemory>
    ensures { IfOk result (λ words. words ≡ output_words (OutputLine.Pumped a b sent)) }
{
    let words = pair_text(alloc, b"pump", a, b, b"done")?;
    then_number(alloc, words, sent)
}

fn pump_stopped(
    alloc: Global,
    a: u16,
    b: u16,
    fault: ApplyFault,
    sent: u64,
) -> Result<BytesList, NoMemory>
    ensures { IfOk result (λ words. words ≡ output_words (OutputLine.PumpStopped a b fault sent)) }
{
    let mut words = pair_text(alloc, b"pump", a, b, b"stopped")?;
    put_fault(alloc, &mut words, fault)?;
    then_number(alloc, words, sent)
}

// ---- what is asked of a node

fn put_count(alloc: Global, words: &mut BytesList, name: &[u8], count: u64) -> Result<(), NoMemory>
    ensures { OnOk result (words.new ≡ words.old ++ name.now ∷ decimal count ∷ []) }
{
    put_text(alloc, words, name)?;
    put_number(alloc, words, count)
}

fn put_csns(alloc: Global, words: &mut BytesList, csns: &[Csn]) -> Result<(), NoMemory>
    ensures { OnOk result (words.new ≡ words.old ++ map csn_text csns.now) }
{
    for csn in csns {
        put_csn(alloc, words, *csn)?;
    }
    Ok(())
}

fn put_vector(alloc: Global, words: &mut BytesList, csns: &[Csn]) -> Result<(), NoMemory>
    ensures { OnOk result (words.new ≡ words.old ++ csn_words csns.now) }
{
    if csns.is_empty() {
        put_text(alloc, words, b"empty")
    } else {
        put_csns(alloc, words, csns)
    }
}

fn audited(alloc: Global, n: u16, counts: Counts) -> Result<BytesList, NoMemory>
    ensures { IfOk result (λ words. words ≡ output_words (OutputLine.Audited n counts)) }
{
    let mut words = with_one(alloc, b"audit", u64::from(n))?;
    put_count(alloc, &mut words, b"present", counts.present)?;
    put_count(alloc, &mut words, b"glue", counts.glue)?;
    put_count(alloc, &mut words, b"conflict", counts.conflict)?;
    put_count(alloc, &mut words, b"tombstone", counts.tombstone)?;
    put_count(alloc, &mut words, b"taken", counts.taken)?;
    put_count(alloc, &mut words, b"pending", counts.pending)?;
    Ok(words)
}

// ---- lines

/// The words of a line.
fn words_of(alloc: Global, line: &OutputLine) -> Result<BytesList, NoMemory>
    ensures { IfOk result (λ words. words ≡ output_words line.now) }
{
    match line {
        OutputLine::Closed { c } => with_one(alloc, b"closed", u64::from(*c)),
        OutputLine::Started { k, csn } => with_csn(alloc, b"start", *k, *csn),
        OutputLine::StartFull { k } => with_text(alloc, b"start", *k, b"full"),
        OutputLine::StartExhausted { k, csn } => exhausted(alloc, b"start", *k, *csn),
        OutputLine::Committed { k, csn } => with_csn(alloc, b"commit", *k, *csn),
        OutputLine::CommitRefused { k, code } => commit_refused(alloc, *k, *code),
        OutputLine::CommitStale { k, life, node_life } => commit_stale(
            alloc, *k, *life, *node_life,
        ),
        OutputLine::CommitExhausted { k, csn } => exhausted(alloc, b"commit", *k, *csn),
        OutputLine::CommitKeeper { k } => with_text(alloc, b"commit", *k, b"keeper"),
        OutputLine::Settled { k } => with_one(alloc, b"settle", u64::from(*k)),
        OutputLine::Aborted { k } => with_one(alloc, b"abort", u64::from(*k)),
        OutputLine::Acquired { a, b } => pair_text(alloc, b"acquire", *a, *b, b"ok"),
        OutputLine::AcquireRefused { a, b, fault } => pair_refused(
            alloc, b"acquire", *a, *b, *fault,
        ),
        OutputLine::Released { a, b } => with_pair(alloc, b"release", *a, *b),
        OutputLine::Offered { a, b, u, csn, prev } => offered(alloc, *a, *b, *u, *csn, *prev),
        OutputLine::OfferDone { a, b } => pair_text(alloc, b"offer", *a, *b, b"done"),
        OutputLine::Delivered { b, u, answer } => delivered(alloc, *b, *u, *answer),
        OutputLine::Pumped { a, b, sent } => pumped(alloc, *a, *b, *sent),
        OutputLine::PumpRefused { a, b, fault } => pair_refused(alloc, b"pump", *a, *b, *fault),
        OutputLine::PumpStopped { a, b, fault, sent } => pump_stopped(alloc, *a, *b, *fault, *sent),
        OutputLine::Restarted { n } => with_one(alloc, b"restart", u64::from(*n)),
        OutputLine::Dumped { n, count } => with_two(alloc, b"dump", u64::from(*n), *count),
        OutputLine::Audited { n, counts } => audited(alloc, *n, *counts),
    }
}

/// Appends the line.
pub fn print_line(alloc: Global, out: &mut Bytes, line: &OutputLine) -> Result<(), NoMemory>
    ensures { OnOk result (out.new ≡ out.old ++ output_line line.now) }
{
    let words = words_of(alloc, line)?;
    print_words(alloc, out, words.as_slice())
}

/// Appends `out C HEX`: the bytes of a reply on connection C.
pub fn print_reply(alloc: Global, out: &mut Bytes, c: u16, reply: &[u8]) -> Result<(), NoMemory>
    ensures { OnOk result (out.new ≡ out.old ++ reply_line c reply.now) }
{
    let mut words = with_one(alloc, b"out", u64::from(c))?;
    words.push(hexadecimal_word(alloc, reply)?)?;
    print_words(alloc, out, words.as_slice())
}

/// Appends `vector N CSN CSN ..`, in the order given, or `vector N empty` where there is no CSN.
pub fn print_vector(alloc: Global, out: &mut Bytes, n: u16, csns: &[Csn]) -> Result<(), NoMemory>
    ensures { OnOk result (out.new ≡ out.old ++ vector_line n csns.now) }
{
    let mut words = with_one(alloc, b"vector", u64::from(n))?;
    put_vector(alloc, &mut words, csns)?;
    print_words(alloc, out, words.as_slice())
}
