//! CSNs and ids, their bytes and texts.

ghost use Rattle.std.specs.Prelude.{◌≡◌, ℕ, List, ◌↔◌, length, IsSome, IfSome};
ghost use Rattle.std.specs.List.{AllPass};
ghost use Rattle.std.specs.Result.{result_ok};
ghost use Rattle.std.specs.Ordering.{nat_cmp};
ghost use Rattle.hex.specs.Hex.{IsBytes, is_hex_digit, decode_of, decode_sized};
ghost use Rattle.repl_data.specs.declared.csn.Csn.{Csn};
ghost use Rattle.repl_data.specs.declared.csn.Uid.{Uid};
ghost use Rattle.repl_data.specs.Order.{csn_cmp, stamp, number_of};
ghost use Rattle.repl_data.specs.Text.{IsInRange, csn_bytes, csn_of, csn_text, read_csn, uid_text};

use crate::items::Items;
use std::cmp::Ordering;

/// A change sequence number: when a change was made, and by whom.
///
/// CSNs compare by time, sequence number, replica id and subsequence number, in that sequence. The
/// zero CSN stands for none, and is below all others.
#[derive(Clone, Copy, Debug, Drop, Eq, Ord, PartialEq, PartialOrd)]
pub struct Csn {
    /// In seconds since 1970.
    pub time: u32,
    /// Tells the changes of one second apart.
    pub seq: u16,
    /// The id of the replica that drew it, from 1 to 65534.
    pub rid: u16,
    /// 0 in the CSN of a change. The acts of one change have the numbers from 0 on.
    pub sub: u16,
}

/// The id of an entry: the CSN of its Add, and zero for the suffix entry.
#[derive(Clone, Copy, Debug, Drop, Eq, Ord, PartialEq, PartialOrd)]
pub struct Uid {
    pub csn: Csn,
}

pub type CsnList = Items<Csn>;

pub type UidList = Items<Uid>;

impl Csn {
    /// The zero CSN.
    pub const ZERO: Csn = Csn {
        time: 0,
        seq: 0,
        rid: 0,
        sub: 0,
    };

    /// By time, sequence number, replica id and subsequence number, in that sequence.
    pub fn compare(self, other: Csn) -> Ordering
        ensures { result ≡ csn_cmp self other }
    {
        self.cmp(&other)
    }

    /// The stamp of the act number `k` of a change with this CSN.
    pub fn part(self, k: u16) -> Csn
        ensures { result ≡ stamp self k }
    {
        Csn { sub: k, ..self }
    }

    /// The ten bytes of time, sequence number, replica id and subsequence number, each big-endian.
    pub fn bytes(self) -> [u8; 10]
        ensures { result ≡ csn_bytes self }
    {
        let [a, b, c, d] = self.time.to_be_bytes();
        let [e, f] = self.seq.to_be_bytes();
        let [g, h] = self.rid.to_be_bytes();
        let [i, j] = self.sub.to_be_bytes();
        [a, b, c, d, e, f, g, h, i, j]
    }

    /// The CSN that has these ten bytes.
    pub fn from_bytes(bytes: [u8; 10]) -> Csn
        ensures { result ≡ csn_of bytes }
    {
        let [a, b, c, d, e, f, g, h, i, j] = bytes;
        Csn {
            time: u32::from_be_bytes([a, b, c, d]),
            seq: u16::from_be_bytes([e, f]),
            rid: u16::from_be_bytes([g, h]),
            sub: u16::from_be_bytes([i, j]),
        }
    }

    /// The 20 hexadecimal digits of the bytes, in lower case.
    pub fn text(self) -> [u8; 20]
        ensures { result ≡ csn_text self }
    {
        let mut text = [0; 20];
        hex::encode_to_slice(self.bytes(), &mut text).unwrap();
        text
    }

    /// The CSN that 20 hexadecimal digits of either case spell; `None` for any other text.
    pub fn read(text: &[u8]) -> Option<Csn>
        ensures value { result ≡ read_csn text.now }

        // What is read has the bytes that the digits spell.
        ensures found { IfSome result (λ c. decode_of text.now ≡ Ok (csn_bytes c)) }

        // Exactly 20 digits are read.
        ensures exact { IsSome result ↔ ((length text.now ≡ 20) × AllPass is_hex_digit text.now) }

        // The text of a CSN is read back.
        ensures again { (c : Csn) → IsInRange c → text.now ≡ csn_text c → result ≡ Some c }
    {
        of_digits(text)
    }
}

fn of_digits(text: &[u8]) -> Option<Csn>
    ensures { result ≡ read_csn text.now }
{
    let mut bytes = [0; 10];
    match hex::decode_to_slice(text, &mut bytes) {
        Ok(()) => Some(Csn::from_bytes(bytes)),
        Err(_) => None,
    }
}

impl Uid {
    /// The id of the suffix entry.
    pub const SUFFIX: Uid = Uid { csn: Csn::ZERO };

    /// The 20 digits of the CSN and 12 zeros, in four groups of eight joined by `-`.
    pub fn text(self) -> [u8; 35]
        ensures { result ≡ uid_text self }
    {
        let [a, b, c, d, e, f, g, h, i, j, k, l, m, n, o, p, q, r, s, t] = self.csn.text();
        [
            a, b, c, d, e, f, g, h, b'-', i, j, k, l, m, n, o, p, b'-', q, r, s, t, b'0', b'0',
            b'0', b'0', b'-', b'0', b'0', b'0', b'0', b'0', b'0', b'0', b'0',
        ]
    }

    /// The id that the text is printed from; `None` for any other text, upper-case digits included.
    pub fn read(text: &[u8]) -> Option<Uid>
        ensures found { IfSome result (λ u. text.now ≡ uid_text u) }

        // The text of an id is read back.
        ensures again { (u : Uid) → IsInRange u.csn → text.now ≡ uid_text u → result ≡ Some u }
    {
        let uid = Uid {
            csn: at_places(text)?,
        };
        if text == uid.text().as_slice() {
            Some(uid)
        } else {
            None
        }
    }
}

fn four(digits: &[u8]) -> Option<[u8; 4]>
    ensures { result ≡ result_ok (decode_sized digits.now 4) }
{
    let mut bytes = [0; 4];
    match hex::decode_to_slice(digits, &mut bytes) {
        Ok(()) => Some(bytes),
        Err(_) => None,
    }
}

fn two(digits: &[u8]) -> Option<[u8; 2]>
    ensures { result ≡ result_ok (decode_sized digits.now 2) }
{
    let mut bytes = [0; 2];
    match hex::decode_to_slice(digits, &mut bytes) {
        Ok(()) => Some(bytes),
        Err(_) => None,
    }
}

/// The CSN whose digits stand at the places that a printed id has them at.
fn at_places(text: &[u8]) -> Option<Csn>
    ensures { (u : Uid) → IsInRange u.csn → text.now ≡ uid_text u → result ≡ Some u.csn }
{
    if text.len() != 35 {
        return None;
    }
    let Some(time) = four(&text[..8]) else {
        return None;
    };
    let Some(middle) = four(&text[9..17]) else {
        return None;
    };
    let Some(sub) = two(&text[18..22]) else {
        return None;
    };
    let [a, b, c, d] = time;
    let [e, f, g, h] = middle;
    let [i, j] = sub;
    Some(Csn::from_bytes([a, b, c, d, e, f, g, h, i, j]))
}

/// What CSNs, ids and their bytes and texts are to one another.
pub fn csn_laws()
    // CSNs compare as numbers of 80 bits.
    ensures number { (a b : Csn) → IsInRange a → IsInRange b → csn_cmp a b ≡ nat_cmp (number_of a) (number_of b) }

    // Ten bytes are those of one CSN.
    ensures of_bytes { (c : Csn) → IsInRange c → csn_of (csn_bytes c) ≡ c }
    ensures bytes_of { (bytes : List ℕ) → length bytes ≡ 10 → IsBytes bytes → csn_bytes (csn_of bytes) ≡ bytes }

    // Different ids have different texts.
    ensures ids_differ { (u v : Uid) → IsInRange u.csn → IsInRange v.csn → uid_text u ≡ uid_text v → u ≡ v }
{}
