//! The ten bytes of a CSN as a key.

ghost use Rattle.std.specs.Prelude.{◌≡◌, length, ◌==◌, Option, Some, None, if◌then◌else◌};
ghost use Rattle.repl_data.specs.Text.{csn_bytes, csn_of};

use repl_data::Csn;

/// The ten bytes of a CSN in a key and in a row: time, sequence number, replica id and subsequence
/// number, each big-endian. So keys are in the order of their CSNs.
pub fn csn_key(csn: Csn) -> [u8; 10]
    ensures { result ≡ csn_bytes csn }
{
    csn.bytes()
}

/// The CSN that has these ten bytes, and `None` where there are not ten.
pub fn csn_of_key(bytes: &[u8]) -> Option<Csn>
    ensures { result ≡ (if length bytes.now == 10 then Some (csn_of bytes.now) else None) }
{
    match bytes {
        [a, b, c, d, e, f, g, h, i, j] => Some(Csn::from_bytes([
            *a, *b, *c, *d, *e, *f, *g, *h, *i, *j,
        ])),
        _ => None,
    }
}
