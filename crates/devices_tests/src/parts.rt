//! Readers that fail and writers that take a part, under the adapters.
use crate::units::print_two;
use solo_devices::{Gave, Sink, Source, Took};
use solo_edge::{ReaderSource, Untold, WriterSink, deck_over};
use std::fs::{self, File};
use std::io::{self, ErrorKind, Read, Write};
use std::process::Abort;
use std::test::Fail;

/// A writer that takes three bytes a call at most.
#[derive(Drop)]
struct ThreeAtOnce(File);

impl Write for ThreeAtOnce {
    fn write(&mut self, buf: &[u8]) -> io::Result<usize> {
        self.0.write(&buf[..buf.len().min(3)])
    }

    fn flush(&mut self) -> io::Result<()> {
        self.0.flush()
    }
}

/// A writer that takes nothing.
#[derive(Drop)]
struct Nothing;

impl Write for Nothing {
    fn write(&mut self, _buf: &[u8]) -> io::Result<usize> {
        Ok(0)
    }

    fn flush(&mut self) -> io::Result<()> {
        Ok(())
    }
}

/// A reader whose first call is interrupted and whose second one fails.
#[derive(Drop)]
struct FailsOnce {
    calls: u8,
    file: File,
}

impl Read for FailsOnce {
    fn read(&mut self, buf: &mut [u8]) -> io::Result<usize> {
        self.calls = self.calls.saturating_add(1);
        match self.calls {
            1 => Err(io::Error::from(ErrorKind::Interrupted)),
            2 => Err(io::Error::from(ErrorKind::TimedOut)),
            _ => self.file.read(buf),
        }
    }
}

/// Where a writer takes three bytes a call, each line comes whole and in its order.
#[test]
fn a_writer_that_takes_a_part_gets_each_line_whole(rt: HostRuntime) -> Result<(), Fail> {
    let path = "solo_edge_parts";
    let mut sink = WriterSink::<_, Untold>::new(ThreeAtOnce(File::create(&rt, path)?));
    assert!(rt; sink.give(b"#LIST\n") == Gave::Bytes(3));
    let (sink, fault) = print_two(sink);
    assert!(rt; fault.is_none() && sink.faults() == 0);
    assert!(rt; fs::read(&rt, path)?.as_slice() == b"#LIJOB A\nHELLO\n".as_slice());
    fs::remove_file(&rt, path)?;
    Ok(())
}

#[test]
fn a_writer_that_takes_nothing_is_told_and_counted(rt: HostRuntime) {
    let mut sink = WriterSink::<_, Untold>::new(Nothing);
    assert!(rt; sink.give(b"A\n") == Gave::Bytes(0));
    assert!(rt; sink.give(b"") == Gave::Bytes(0));
    assert!(rt; sink.faults() == 1);
    let (sink, fault) = print_two(sink);
    assert!(rt; fault.is_some() && sink.faults() == 2);
}

/// Of a deck of eight bytes the first take fails, is told and is counted; then all come, and their end.
fn take_behind_a_fault<R: Read + Drop>(rt: &impl Abort, reader: R) {
    let mut source = ReaderSource::<_, Untold>::new(reader);
    let mut piece = [0; 5];
    assert!(rt; source.take(&mut piece) == Took::Failed);
    assert!(rt; source.faults() == 1);
    assert!(rt; source.take(&mut piece) == Took::Bytes(5));
    assert!(rt; piece.as_slice() == b"#LIST".as_slice());
    assert!(rt; source.take(&mut piece) == Took::Bytes(3));
    assert!(rt; &piece[..3] == b" A\n".as_slice());
    assert!(rt; source.take(&mut piece) == Took::Bytes(0));
    assert!(rt; source.faults() == 1);
}

/// A reader that fails once over a new file, whose name is gone already.
fn failing(rt: &HostRuntime, path: &str) -> Result<FailsOnce, Fail> {
    fs::write(rt, path, b"#LIST A\n".as_slice())?;
    let file = File::open(rt, path)?;
    fs::remove_file(rt, path)?;
    Ok(FailsOnce { calls: 0, file })
}

#[test]
fn a_read_that_fails_once_is_no_end_and_loses_nothing(rt: HostRuntime) -> Result<(), Fail> {
    take_behind_a_fault(&rt, failing(&rt, "solo_edge_fails")?);
    take_behind_a_fault(
        &rt,
        deck_over(rt.alloc(), failing(&rt, "solo_edge_fails_ahead")?)?,
    );
    Ok(())
}
