use edge_io::{
    Clock, CollectFault, Collector, Emitter, Failed, Frozen, Gate, LAST_MOMENT, MemSink, MemSource,
    MillisClock, OpenGate, Sink, Source, StdSink, StdSource, WriteFault,
};
use std::alloc::Global;
use std::test::Fail;
use std::{io, time};

const TEXT: [u8; 11] = *b"eleven long";

// The text, from a source that fails these reads.
fn source_of(alloc: Global, text: &[u8], failing: &[u64]) -> Result<MemSource, Fail> {
    Ok(MemSource::new(text.to_vec(alloc)?, failing.to_vec(alloc)?))
}

// A text of three pieces and a little more, no two neighbours alike.
fn long_text(alloc: Global) -> Result<Vec<u8>, Fail> {
    let mut text = Vec::with_capacity(alloc, 50_000)?;
    for place in 0u32..50_000 {
        text.push((place % 251) as u8)?;
    }
    Ok(text)
}

#[test]
fn an_input_is_collected_whole_up_to_the_limit(rt: HostRuntime) -> Result<(), Fail> {
    let alloc = rt.alloc();
    // the text, the limit, and the answer
    let table: [(&[u8], usize, Result<&[u8], CollectFault>); 5] = [
        (b"", 0, Ok(b"")),
        (b"a", 0, Err(CollectFault::TooLong)),
        (&TEXT, 11, Ok(&TEXT)),
        (&TEXT, 10, Err(CollectFault::TooLong)),
        (&TEXT, 100, Ok(&TEXT)),
    ];
    for (text, limit, expected) in table {
        let mut source = source_of(alloc, text, &[])?;
        match (Collector::all(alloc, &mut source, limit), expected) {
            (Ok(taken), Ok(expected)) => assert_eq!(rt; taken.as_slice(), expected),
            (Err(fault), Err(expected)) => assert_eq!(rt; fault, expected),
            _ => panic!(rt; "another answer at the limit {limit}"),
        }
    }
    Ok(())
}

#[test]
fn a_long_input_is_collected_in_pieces(rt: HostRuntime) -> Result<(), Fail> {
    let alloc = rt.alloc();
    let text = long_text(alloc)?;
    let mut source = source_of(alloc, &text, &[])?;
    let taken = Collector::all(alloc, &mut source, 1 << 24)?;
    assert_eq!(rt; taken.as_slice(), text.as_slice());
    Ok(())
}

#[test]
fn a_read_that_fails_in_mid_stream_is_told(rt: HostRuntime) -> Result<(), Fail> {
    let alloc = rt.alloc();
    let text = long_text(alloc)?;
    // two reads of the long text give bytes, and the last tells its end
    for failing in [0u64, 1, 2, 3, 4] {
        let mut source = source_of(alloc, &text, &[failing])?;
        let answer = Collector::all(alloc, &mut source, 1 << 24);
        assert!(rt; matches!(answer, Err(CollectFault::ReadFault)));
        assert_eq!(rt; source.faults(), 1);
    }
    Ok(())
}

#[test]
fn a_text_is_emitted_as_far_as_the_sink_takes_it(rt: HostRuntime) -> Result<(), Fail> {
    let alloc = rt.alloc();
    // the room, the write that fails, the answer, and what was written
    let table: [(usize, u64, Result<(), WriteFault>, &[u8]); 4] = [
        (11, 9, Ok(()), &TEXT),
        (40, 9, Ok(()), &TEXT),
        (2, 9, Err(WriteFault), b"el"),
        (11, 0, Err(WriteFault), b""),
    ];
    for (room, failing, expected, written) in table {
        let mut sink = MemSink::with_room(alloc, room, [failing].to_vec(alloc)?)?;
        assert_eq!(rt; Emitter::all(&mut sink, &TEXT), expected);
        assert_eq!(rt; sink.written(), written);
    }
    Ok(())
}

// A reader and a writer of two bytes a call. From the third call on it fails its reads, and its writes take nothing.
// Where it is stuck it takes what it is given and can't flush it.
#[derive(Drop)]
struct Fickle {
    calls: u64,
    taken: Vec<u8>,
    stuck: bool,
}

impl Fickle {
    fn new(alloc: Global, stuck: bool) -> Fickle {
        Fickle {
            calls: 0,
            taken: Vec::new(alloc),
            stuck,
        }
    }
}

impl io::Read for Fickle {
    fn read(&mut self, buf: &mut [u8]) -> io::Result<usize> {
        self.calls = self.calls.saturating_add(1);
        if self.calls > 2 {
            return Err(io::Error::from(io::ErrorKind::Other));
        }
        let count = buf.len().min(2);
        let (front, _) = buf.split_at_mut(count);
        front.fill(b'x');
        Ok(count)
    }
}

impl io::Write for Fickle {
    fn write(&mut self, buf: &[u8]) -> io::Result<usize> {
        self.calls = self.calls.saturating_add(1);
        if self.calls > 2 {
            return Ok(0);
        }
        let count = buf.len().min(2);
        let (front, _) = buf.split_at(count);
        self.taken.extend_from_slice(front)?;
        Ok(count)
    }

    fn flush(&mut self) -> io::Result<()> {
        if self.stuck {
            return Err(io::Error::from(io::ErrorKind::Other));
        }
        Ok(())
    }
}

#[test]
fn a_standard_source_passes_bytes_and_errors_on(rt: HostRuntime) -> Result<(), Fail> {
    let alloc = rt.alloc();
    let mut into = [0u8; 3];
    let mut source = StdSource::new(Fickle::new(alloc, false));
    assert_eq!(rt; source.read_some(&mut into), Ok(2));
    assert_eq!(rt; into, *b"xx\0");
    assert_eq!(rt; source.read_some(&mut into), Ok(2));
    assert_eq!(rt; source.read_some(&mut into), Err(Failed));
    // the reader of the program, from which nothing is asked here
    let _standard = StdSource::new(rt.reader());
    Ok(())
}

#[test]
fn a_standard_sink_passes_bytes_on_and_refuses_a_write_of_nothing(
    rt: HostRuntime,
) -> Result<(), Fail> {
    let alloc = rt.alloc();
    let mut writer = Fickle::new(alloc, false);
    let mut sink = StdSink::new(&mut writer);
    assert_eq!(rt; Emitter::all(&mut sink, &TEXT), Err(WriteFault));
    assert_eq!(rt; writer.taken.as_slice(), b"elev".as_slice());
    let mut standard = StdSink::new(io::writer(&rt));
    Emitter::all(&mut standard, b"")?;
    Ok(())
}

#[test]
fn a_piece_that_cannot_be_flushed_is_a_fault(rt: HostRuntime) -> Result<(), Fail> {
    let mut writer = Fickle::new(rt.alloc(), true);
    let mut sink = StdSink::new(&mut writer);
    assert_eq!(rt; sink.write_some(&TEXT), Err(Failed));
    assert_eq!(rt; writer.taken.as_slice(), b"el".as_slice());
    Ok(())
}

// Takes what several threads may look at.
fn shared<T: Sync>(value: &T) -> &T {
    value
}

// A clock that stands so many seconds after the system's start, or can't be read.
#[derive(Drop)]
struct Standing {
    seconds: Option<u64>,
}

impl time::Clock for Standing {
    fn monotonic(&self) -> io::Result<time::Duration> {
        match self.seconds {
            Some(seconds) => Ok(time::Duration::from_secs(seconds)),
            None => Err(io::Error::from(io::ErrorKind::Other)),
        }
    }

    fn since_1970(&self) -> io::Result<time::Duration> {
        self.monotonic()
    }
}

#[test]
fn clocks_tell_their_moments(rt: HostRuntime) -> Result<(), Fail> {
    assert_eq!(rt; Frozen::new(7).now(), 7);
    assert_eq!(rt; Frozen::new(LAST_MOMENT).now(), 8_796_093_022_206);
    shared(&OpenGate).pass(0, 0);
    Ok(())
}

#[test]
fn a_clock_over_the_system_begins_at_0(rt: HostRuntime) -> Result<(), Fail> {
    // a day after the system's start, and where the system's clock can't be read
    for seconds in [Some(86_400u64), None] {
        assert_eq!(rt; MillisClock::new(&Standing { seconds }).now(), 0);
    }
    let clock = MillisClock::new(&rt);
    let first = shared(&clock).now();
    time::Clock::sleep(&rt, time::Duration::from_millis(20));
    let second = clock.now();
    assert!(rt; first < 10_000 && first + 20 <= second && second < first + 10_000);
    Ok(())
}
