//! Moving bytes between buffers.

ghost use Rattle.std.specs.Prelude.{◌≡◌, ◌≤◌, ◌++◌, drop, length, take};

/// Copies the first `count` bytes into the front of the buffer.
pub(crate) fn copy_front(bytes: &[u8], count: usize, buf: &mut [u8])
    requires left { count ≤ length bytes.now }
    requires fits { count ≤ length buf.old }
    ensures { buf.new ≡ take count bytes.now ++ drop count buf.old }
{
    buf[..count].copy_from_slice(&bytes[..count]);
}
