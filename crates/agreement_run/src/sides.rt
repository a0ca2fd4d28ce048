//! A read and a write of a stream, each of which leaves the other side as it was.

ghost use Rattle.std.specs.Prelude.{◌≡◌, ◌≤◌, OnErr, OnOk};
ghost use Rattle.std.specs.Io.{ReadsAtMost};
ghost use Rattle.std.specs.Io.KnownBytes.{Appends, ReadConsumes};
ghost use Rattle.io_edge.specs.Causes.{HasCause};
ghost use Rattle.io_edge.specs.Edge.{AppendsFront};

use io_edge::{Failed, Stream};

pub(crate) fn read_side<T: Stream>(stream: &mut T, buf: &mut [u8]) -> Result<usize, Failed>
    ensures bound { ReadsAtMost result buf.new }
    ensures bytes { ReadConsumes (T.left stream.old) (T.left stream.new) result buf.new }
    ensures cause { HasCause (T.Source.faults stream.old) (T.Source.faults stream.new) result }
    ensures contents { T.contents stream.new ≡ T.contents stream.old }
    ensures faults { T.Sink.faults stream.new ≡ T.Sink.faults stream.old }
{
    stream.read(buf)
}

pub(crate) fn write_side<T: Stream>(stream: &mut T, bytes: &[u8]) -> Result<(), Failed>
    ensures ok { OnOk result (Appends (T.contents stream.old) (T.contents stream.new) bytes.now) }
    ensures err { OnErr result (AppendsFront (T.contents stream.old) (T.contents stream.new) bytes.now) }
    ensures cause { HasCause (T.Sink.faults stream.old) (T.Sink.faults stream.new) result }
    ensures left { T.left stream.new ≡ T.left stream.old }
    ensures faults { T.Source.faults stream.new ≡ T.Source.faults stream.old }
{
    stream.write(bytes)
}
