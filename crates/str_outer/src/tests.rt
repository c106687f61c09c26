use crate::{
    Clock, Failed, FixedClock, Gate, LIMIT, MemSink, MemSource, OpenGate, ReadError, RealClock,
    Source, StdSink, StdSource, Stopped, SureSink, SureSource, read_all, write_all,
};
use std::alloc::{AllocError, Global};
use std::cell::Cell;
use std::io::{Error, ErrorKind, Read};
use std::test::Fail;
use std::time::{Clock as Time, Duration};
use str_base::NodeId;

const TEXT: &[u8] = b"a text of forty bytes, in pieces of some";

// A read that fails is an error, also the one that would have met the end.
fn read_in_eights(alloc: Global, failing: u64) -> Result<Result<Vec<u8>, ReadError>, AllocError> {
    let bytes = TEXT.to_vec(alloc)?;
    let failing = vec![in alloc; failing]?;
    let mut source = MemSource::new(bytes, failing, 8);
    Ok(read_all(alloc, &mut source))
}

#[test]
fn reads_in_pieces(rt: HostRuntime) -> Result<(), Fail> {
    // Five reads give the text, and the sixth is at its end.
    for (failing, want) in [(0, true), (1, false), (4, false), (6, false), (7, true)] {
        match read_in_eights(rt.alloc(), failing)? {
            Ok(bytes) => {
                assert!(rt; want, "failing at {failing}");
                assert_eq!(rt; bytes.as_slice(), TEXT);
            }
            Err(error) => {
                assert!(rt; !want, "failing at {failing}");
                assert_eq!(rt; error, ReadError::Failed);
            }
        }
    }
    Ok(())
}

#[test]
fn writes_in_pieces(rt: HostRuntime) -> Result<(), Fail> {
    // Two writes of 16 bytes and one of 8.
    for (failing, held) in [(0, 40), (1, 0), (2, 16), (3, 32), (4, 40)] {
        let failing = vec![in rt.alloc(); failing]?;
        let mut sink = MemSink::new(rt.alloc(), failing, 16);
        let want = if held < TEXT.len() {
            Err(Stopped::Failed)
        } else {
            Ok(())
        };
        assert_eq!(rt; write_all(&mut sink, TEXT), want);
        assert!(rt; held <= TEXT.len());
        assert_eq!(rt; sink.bytes(), &TEXT[..held]);
    }
    Ok(())
}

#[test]
fn sure_ones_carry_everything(rt: HostRuntime) -> Result<(), Fail> {
    let mut source = SureSource::new(TEXT.to_vec(rt.alloc())?);
    let bytes = read_all(rt.alloc(), &mut source)?;
    let mut sink = SureSink::new(rt.alloc());
    write_all(&mut sink, bytes.as_slice())?;
    write_all(&mut sink, b"")?;
    assert_eq!(rt; sink.bytes(), TEXT);
    Ok(())
}

#[test]
fn reading_stops_at_the_limit(rt: HostRuntime) -> Result<(), Fail> {
    let mut source = SureSource::new(vec![in rt.alloc(); 7u8; LIMIT + 1]?);
    assert_eq!(rt; read_all(rt.alloc(), &mut source)?.len(), LIMIT);
    assert_eq!(rt; read_all(rt.alloc(), &mut source)?.len(), 1);
    Ok(())
}

// It gives one byte, and then fails.
#[derive(Drop)]
struct Broken {
    has_given: bool,
}

impl Read for Broken {
    fn read(&mut self, buf: &mut [u8]) -> std::io::Result<usize> {
        if self.has_given || buf.is_empty() {
            return Err(Error::from(ErrorKind::BrokenPipe));
        }
        self.has_given = true;
        buf[0] = 1;
        Ok(1)
    }
}

#[test]
fn standard_readers_are_sources(rt: HostRuntime) -> Result<(), Fail> {
    let mut source = StdSource::new(TEXT);
    assert_eq!(rt; read_all(rt.alloc(), &mut source)?.as_slice(), TEXT);
    let mut broken = StdSource::new(Broken { has_given: false });
    let mut buf = [0; 4];
    assert_eq!(rt; broken.read(&mut buf), Ok(1));
    assert_eq!(rt; broken.read(&mut buf), Err(Failed));
    Ok(())
}

#[test]
fn standard_writers_are_sinks(rt: HostRuntime) -> Result<(), Fail> {
    let mut written = Vec::new(rt.alloc());
    {
        let mut sink = StdSink::new(&mut written);
        write_all(&mut sink, TEXT)?;
    }
    assert_eq!(rt; written.as_slice(), TEXT);
    let mut room = [0u8; 16];
    {
        let mut full = StdSink::new(&mut room[..]);
        assert_eq!(rt; write_all(&mut full, TEXT), Err(Stopped::Failed));
    }
    assert_eq!(rt; &room[..], &TEXT[..16]);
    Ok(())
}

#[test]
fn fixed_clocks_stay_at_their_last_number(rt: HostRuntime) -> Result<(), Fail> {
    let mut clock = FixedClock::new(vec![in rt.alloc(); 5, 2, 9]?);
    for want in [5, 2, 9, 9, 9] {
        assert_eq!(rt; clock.now(), want);
    }
    Ok(())
}

// A system that tells its time once.
#[derive(Drop)]
struct Once {
    has_time: Cell<bool>,
}

impl Time for Once {
    fn monotonic(&self) -> std::io::Result<Duration> {
        self.since_1970()
    }

    fn since_1970(&self) -> std::io::Result<Duration> {
        if self.has_time.replace(false) {
            Ok(Duration::from_millis(1500))
        } else {
            Err(Error::from(ErrorKind::Unsupported))
        }
    }
}

#[test]
fn real_clocks_keep_their_last_number(rt: HostRuntime) -> Result<(), Fail> {
    for (has_time, want) in [(true, 1500), (false, 0)] {
        let mut clock = RealClock::new(Once {
            has_time: Cell::new(has_time),
        });
        assert_eq!(rt; clock.now(), want);
        assert_eq!(rt; clock.now(), want);
    }
    let mut system = RealClock::new(&rt);
    OpenGate.before(NodeId(1));
    assert!(rt; system.now() > 1_600_000_000_000);
    Ok(())
}
