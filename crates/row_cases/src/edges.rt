//! Where bytes come from and go to, with calls that fail.

ghost use Rattle.std.specs.Prelude.{◌≤◌, IfOk};

use case_lines::{CaseFault, Fields, tell_text};
use io_edge::{
    CalmSink, CalmSource, Clock, Failed, MemSink, MemSource, NoMemory, SetClock, Sink, Source,
    StdSink, StdSource,
};
use std::alloc::{AllocError, Global};
use std::fmt::Write as _;
use std::io;
use std::io::{ErrorKind, Read, Write};

pub fn answer(alloc: Global, fields: &mut Fields<'_>, told: &mut String) -> Result<(), CaseFault> {
    match fields.word()? {
        "mem_source" => mem_source(alloc, fields, told),
        "mem_sink" => mem_sink(alloc, fields, told),
        "std_source" => std_source(alloc, fields, told),
        "std_sink" => std_sink(alloc, fields, told),
        "carry_mem" => carry_mem(alloc, fields, told),
        "carry_calm" => carry_calm(alloc, fields, told),
        "carry_counted" => carry_counted(alloc, fields, told),
        "carry_std" => carry_std(alloc, fields, told),
        "texts" => texts(told),
        "clock" => clock(fields, told),
        _ => Err(CaseFault::Subject),
    }
}

/// The numbers of the next word, with commas between them; none for `-`.
fn next_numbers(alloc: Global, fields: &mut Fields<'_>) -> Result<Vec<u64>, CaseFault> {
    let mut numbers = Vec::new(alloc);
    let word = fields.word()?;
    if word == "-" {
        return Ok(numbers);
    }
    for part in word.split(',') {
        numbers.push(part.parse::<u64>().ok().ok_or(CaseFault::Argument)?)?;
    }
    Ok(numbers)
}

/// Reads into the front of a buffer, and tells the answer and the buffer.
fn tell_read<S: Source>(
    source: &mut S,
    buf: &mut [u8; 4],
    fields: &mut Fields<'_>,
    told: &mut String,
) -> Result<(), CaseFault> {
    let most = (fields.number()? as usize).min(4);
    let answer = source.read(&mut buf[..most]);
    write!(told, "{answer:?} ")?;
    tell_text(told, buf.as_slice())
}

/// Reads pieces of at most so many bytes, where some calls fail, into a buffer of dots, and tells
/// of each read the answer, the buffer, what is left and the faults.
fn mem_source(alloc: Global, fields: &mut Fields<'_>, told: &mut String) -> Result<(), CaseFault> {
    let bytes = fields.bytes(alloc)?;
    let failing = next_numbers(alloc, fields)?;
    let most = fields.number()? as usize;
    let mut source = if most == 0 {
        MemSource::new(bytes.as_slice(), failing.as_slice())
    } else {
        MemSource::in_pieces(bytes.as_slice(), failing.as_slice(), most)
    };
    let mut buf = [b'.'; 4];
    for _ in 0..u16::MAX {
        if fields.is_empty() {
            break;
        }
        tell_read(&mut source, &mut buf, fields, told)?;
        told.push_str(" ")?;
        tell_text(told, source.left())?;
        let faults = source.faults();
        write!(told, " {faults}; ")?;
    }
    Ok(())
}

/// Writes pieces, where some calls fail and keep so many bytes, and tells of each write the answer,
/// what was written and the faults.
fn mem_sink(alloc: Global, fields: &mut Fields<'_>, told: &mut String) -> Result<(), CaseFault> {
    let failing = next_numbers(alloc, fields)?;
    let kept = fields.number()? as usize;
    let mut sink = MemSink::keeping(alloc, failing.as_slice(), kept);
    for _ in 0..u16::MAX {
        if fields.is_empty() {
            break;
        }
        let answer = sink.write(fields.bytes(alloc)?.as_slice());
        write!(told, "{answer:?} ")?;
        tell_text(told, sink.written())?;
        let faults = sink.faults();
        write!(told, " {faults}; ")?;
    }
    Ok(())
}

/// What one call of a reader or a writer does.
#[derive(Clone, Copy)]
enum Act {
    Takes(usize),
    Interrupted,
    Breaks,
}

/// The acts of all words that follow.
fn next_acts(alloc: Global, fields: &mut Fields<'_>) -> Result<Vec<Act>, CaseFault> {
    let mut acts = Vec::new(alloc);
    for _ in 0..u16::MAX {
        if fields.is_empty() {
            break;
        }
        acts.push(next_act(fields)?)?;
    }
    Ok(acts)
}

fn next_act(fields: &mut Fields<'_>) -> Result<Act, CaseFault> {
    match fields.word()? {
        "interrupted" => Ok(Act::Interrupted),
        "breaks" => Ok(Act::Breaks),
        word => {
            let most = word.parse::<u32>().ok().ok_or(CaseFault::Argument)?;
            Ok(Act::Takes(most as usize))
        }
    }
}

/// A reader that hands over as many `x` as each act says, and a writer that takes as many bytes.
/// Flushes may break, too.
#[derive(Drop)]
struct Acting<'a> {
    acts: &'a [Act],
    breaks_at_flush: bool,
    taken: Vec<u8>,
}

impl Acting<'_> {
    /// How many bytes the next call moves, of at most so many. None behind the last act.
    fn next_count(&mut self, most: usize) -> io::Result<usize>
        ensures { IfOk result (λ count. count ≤ most) }
    {
        let Some((act, acts)) = self.acts.split_first() else {
            return Ok(0);
        };
        self.acts = acts;
        match act {
            Act::Takes(count) => Ok(most.min(*count)),
            Act::Interrupted => Err(ErrorKind::Interrupted.into()),
            Act::Breaks => Err(ErrorKind::BrokenPipe.into()),
        }
    }
}

impl Read for Acting<'_> {
    fn read(&mut self, buf: &mut [u8]) -> io::Result<usize> {
        let count = self.next_count(buf.len())?;
        buf[..count].fill(b'x');
        Ok(count)
    }
}

impl Write for Acting<'_> {
    fn write(&mut self, buf: &[u8]) -> io::Result<usize> {
        let count = self.next_count(buf.len())?;
        self.taken.extend_from_slice(&buf[..count])?;
        Ok(count)
    }

    fn flush(&mut self) -> io::Result<()> {
        if self.breaks_at_flush {
            return Err(ErrorKind::BrokenPipe.into());
        }
        Ok(())
    }
}

/// Reads three times from a reader that acts so, and tells of each read the answer, the buffer and
/// the faults.
fn std_source(alloc: Global, fields: &mut Fields<'_>, told: &mut String) -> Result<(), CaseFault> {
    let acts = next_acts(alloc, fields)?;
    let mut source = StdSource::new(Acting {
        acts: acts.as_slice(),
        breaks_at_flush: false,
        taken: Vec::new(alloc),
    });
    for _ in 0..3 {
        let mut buf = [b'.'; 4];
        let answer = source.read(&mut buf);
        write!(told, "{answer:?} ")?;
        tell_text(told, buf.as_slice())?;
        let faults = source.faults();
        write!(told, " {faults}; ")?;
    }
    Ok(())
}

/// Writes two pieces to a writer that acts so, and tells both answers, the faults and what was taken.
fn std_sink(alloc: Global, fields: &mut Fields<'_>, told: &mut String) -> Result<(), CaseFault> {
    let breaks_at_flush = fields.word()? == "breaks_at_flush";
    let acts = next_acts(alloc, fields)?;
    let mut acting = Acting {
        acts: acts.as_slice(),
        breaks_at_flush,
        taken: Vec::new(alloc),
    };
    let mut sink = StdSink::new(&mut acting);
    let first = sink.write(b"abcde");
    let second = sink.write(b"fg");
    let faults = sink.faults();
    write!(told, "{first:?} {second:?} {faults} ")?;
    let Acting { taken, .. } = acting;
    tell_text(told, taken.as_slice())
}

/// Carries bytes over in buffers of four, until the source ends or a call fails.
fn carry<S: Source, K: Sink>(source: &mut S, sink: &mut K) -> Result<(), Failed> {
    let mut buf = [0u8; 4];
    for _ in 0..100 {
        let count = source.read(&mut buf)?;
        if count == 0 {
            break;
        }
        sink.write(&buf[..count])?;
    }
    Ok(())
}

fn carry_mem(alloc: Global, fields: &mut Fields<'_>, told: &mut String) -> Result<(), CaseFault> {
    let bytes = fields.bytes(alloc)?;
    let mut source = MemSource::in_pieces(bytes.as_slice(), &[], 3);
    let mut sink = MemSink::new(alloc, &[]);
    let answer = carry(&mut source, &mut sink);
    write!(told, "{answer:?} ")?;
    tell_text(told, sink.written())
}

fn carry_calm(alloc: Global, fields: &mut Fields<'_>, told: &mut String) -> Result<(), CaseFault> {
    let bytes = fields.bytes(alloc)?;
    let failing = next_numbers(alloc, fields)?;
    let mut source = CalmSource::new(bytes.as_slice());
    let mut sink = MemSink::new(alloc, failing.as_slice());
    let answer = carry(&mut source, &mut sink);
    write!(told, "{answer:?} ")?;
    tell_text(told, sink.written())?;
    told.push_str(" left ")?;
    tell_text(told, source.left())
}

fn carry_counted(
    alloc: Global,
    fields: &mut Fields<'_>,
    told: &mut String,
) -> Result<(), CaseFault> {
    let bytes = fields.bytes(alloc)?;
    let mut source = CalmSource::new(bytes.as_slice());
    let mut sink = CalmSink::new();
    let answer = carry(&mut source, &mut sink);
    let count = sink.count();
    write!(told, "{answer:?} {count}")?;
    Ok(())
}

fn carry_std(alloc: Global, fields: &mut Fields<'_>, told: &mut String) -> Result<(), CaseFault> {
    let bytes = fields.bytes(alloc)?;
    let mut taken = Vec::new(alloc);
    let mut source = StdSource::new(bytes.as_slice());
    let answer = carry(&mut source, &mut StdSink::new(&mut taken));
    write!(told, "{answer:?} ")?;
    tell_text(told, taken.as_slice())
}

fn refused() -> Result<(), NoMemory> {
    Err(AllocError)?;
    Ok(())
}

/// Tells the texts of the two errors, and what a failed allocation becomes.
fn texts(told: &mut String) -> Result<(), CaseFault> {
    let refused = refused();
    write!(told, "{Failed}, {NoMemory}, {refused:?}")?;
    Ok(())
}

/// Tells the time of a clock, and then the time to which it is set.
fn clock(fields: &mut Fields<'_>, told: &mut String) -> Result<(), CaseFault> {
    let mut clock = SetClock::new(number32(fields)?);
    let first = clock.now();
    clock.set(number32(fields)?);
    let second = clock.now();
    write!(told, "{first} {second}")?;
    Ok(())
}

fn number32(fields: &mut Fields<'_>) -> Result<u32, CaseFault> {
    fields
        .word()?
        .parse::<u32>()
        .ok()
        .ok_or(CaseFault::Argument)
}
