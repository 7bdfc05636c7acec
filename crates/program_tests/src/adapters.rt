use gribi_program::{ReaderSource, SystemClock, WriterSink};
use rig_io::{Clock, Placed, Sink, Source, Took};
use std::io::{self, Cursor, Read, Write};
use std::sync::atomic::{AtomicBool, Ordering};
use std::test::Fail;
use std::time::{self, Duration};

/// A reader and writer that always fails.
#[derive(Drop)]
struct Broken;

impl Read for Broken {
    fn read(&mut self, _: &mut [u8]) -> io::Result<usize> {
        Err(io::Error::from(io::ErrorKind::Other))
    }
}

impl Write for Broken {
    fn write(&mut self, _: &[u8]) -> io::Result<usize> {
        Err(io::Error::from(io::ErrorKind::Other))
    }

    fn flush(&mut self) -> io::Result<()> {
        Ok(())
    }
}

/// A writer that takes all, and can't flush.
#[derive(Drop)]
struct Unflushed;

impl Write for Unflushed {
    fn write(&mut self, piece: &[u8]) -> io::Result<usize> {
        Ok(piece.len())
    }

    fn flush(&mut self) -> io::Result<()> {
        Err(io::Error::from(io::ErrorKind::Other))
    }
}

#[test]
fn readers_are_sources(rt: HostRuntime) -> Result<(), Fail> {
    let mut buffer = [0u8; 4];
    let mut three = ReaderSource::new(Cursor::new(b"abc".as_slice()));
    assert_eq!(rt; three.take(&mut buffer), Took::Got(3));
    assert_eq!(rt; buffer, *b"abc\0");
    assert_eq!(rt; three.take(&mut buffer), Took::End);
    assert_eq!(rt; ReaderSource::new(Broken).take(&mut buffer), Took::Failed);
    Ok(())
}

#[test]
fn writers_are_sinks(rt: HostRuntime) -> Result<(), Fail> {
    let mut room = [0u8; 3];
    let mut three = WriterSink::new(Cursor::new(room.as_mut_slice()));
    assert_eq!(rt; three.put(b"ab"), Placed::Put(2));
    assert_eq!(rt; three.put(b"cd"), Placed::Put(1));
    assert_eq!(rt; three.put(b"d"), Placed::Failed);
    assert_eq!(rt; WriterSink::new(Broken).put(b"a"), Placed::Failed);
    assert_eq!(rt; WriterSink::new(Unflushed).put(b"a"), Placed::Failed);
    Ok(())
}

/// A system's clock that stands at this time, and can't be read where it is told to fail.
#[derive(Clone, Copy)]
struct StandingClock<'a> {
    time: Duration,
    fails: &'a AtomicBool,
}

impl<'a> time::Clock for StandingClock<'a> {
    fn monotonic(&self) -> io::Result<Duration> {
        Ok(self.time)
    }

    fn since_1970(&self) -> io::Result<Duration> {
        if self.fails.load(Ordering::SeqCst) {
            Err(io::Error::from(io::ErrorKind::Other))
        } else {
            Ok(self.time)
        }
    }
}

#[test]
fn a_moment_stays_where_the_clock_fails(rt: HostRuntime) -> Result<(), Fail> {
    let fails = AtomicBool::new(false);
    let time = Duration::from_nanos(7);
    let mut clock = SystemClock::new(StandingClock {
        time,
        fails: &fails,
    });
    assert_eq!(rt; clock.now(), 7);
    fails.store(true, Ordering::SeqCst);
    assert_eq!(rt; clock.now(), 7);
    assert_eq!(rt; clock.twin().now(), 7);
    let time = Duration::from_secs(1 << 40);
    let fails = AtomicBool::new(false);
    let mut late = SystemClock::new(StandingClock {
        time,
        fails: &fails,
    });
    assert_eq!(rt; late.now(), 0);
    // 2020 is over.
    assert!(rt; SystemClock::new(&rt).now() > 1_577_836_800_000_000_000);
    Ok(())
}
