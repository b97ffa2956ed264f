use super::*;
use std::io;
use std::io::{ErrorKind, Read, Write};
use std::test::Fail;

#[test]
fn a_source_is_read_to_its_end_or_to_past_the_limit(rt: HostRuntime) -> Result<(), Fail> {
    for (bytes, step, limit, refused) in [
        (&b""[..], 1usize, 0usize, None),
        (&b"abc"[..], 1, 3, None),
        (&b"abc"[..], 2, 2, Some(InFault::TooLong)),
        (&b"abc"[..], 7, 0, Some(InFault::TooLong)),
        (&[7u8; 200_000][..], 70_000, 200_000, None),
        (&[7u8; 200_000][..], 70_000, 199_999, Some(InFault::TooLong)),
    ] {
        assert!(rt; 0 < step);
        let no_fails = Vec::new(rt.alloc());
        let mut source = MemSource::new(bytes.to_vec(rt.alloc())?, step, no_fails);
        match read_all(rt.alloc(), &mut source, limit) {
            Ok(read) => {
                assert_eq!(rt; refused, None);
                assert!(rt; read.as_slice() == bytes, "limit {limit}");
            }
            Err(fault) => assert_eq!(rt; refused, Some(fault), "limit {limit}"),
        }
    }
    Ok(())
}

#[test]
fn a_read_that_fails_ends_the_call_and_loses_no_byte(rt: HostRuntime) -> Result<(), Fail> {
    let bytes = b"abc".to_vec(rt.alloc())?;
    let mut source = MemSource::new(bytes, 1, vec![in rt.alloc(); 1u64]?);
    assert_eq!(rt;
        read_all(rt.alloc(), &mut source, 9).err(),
        Some(InFault::Read)
    );
    assert_eq!(rt;
        read_all(rt.alloc(), &mut source, 9)?.as_slice(),
        b"bc".as_slice()
    );
    Ok(())
}

#[test]
fn a_sink_takes_all_or_a_front(rt: HostRuntime) -> Result<(), Fail> {
    let text = [7u8; 150];
    for (room, step, fails, held) in [
        (150usize, 1usize, 150u64, 150usize),
        (150, 1, 149, 149),
        (150, 1, 0, 0),
        (100, 7, 150, 100),
    ] {
        assert!(rt; 0 < step);
        let mut sink = MemSink::new(rt.alloc(), room, step, vec![in rt.alloc(); fails]?)?;
        let written = write_all(&mut sink, &text);
        assert_eq!(rt; written.is_ok(), held == 150);
        assert!(rt; held <= 150);
        assert!(rt; sink.held() == &text[..held], "room {room}");
    }
    Ok(())
}

// A reader of so many bytes `x`, one a call, and a writer that takes one byte a call. Call number 1
// fails, and the writer's call number 2 takes nothing.
#[derive(Drop)]
struct Flaky {
    calls: u64,
    left: usize,
}

impl Flaky {
    fn call(&mut self) -> io::Result<u64> {
        let number = self.calls;
        self.calls = number.saturating_add(1);
        if number == 1 {
            return Err(ErrorKind::BrokenPipe.into());
        }
        Ok(number)
    }
}

impl Read for Flaky {
    fn read(&mut self, buf: &mut [u8]) -> io::Result<usize> {
        self.call()?;
        if self.left == 0 || buf.is_empty() {
            return Ok(0);
        }
        self.left -= 1;
        buf[0] = b'x';
        Ok(1)
    }
}

impl Write for Flaky {
    fn write(&mut self, piece: &[u8]) -> io::Result<usize> {
        if self.call()? == 2 {
            return Ok(0);
        }
        Ok(piece.len().min(1))
    }

    fn flush(&mut self) -> io::Result<()> {
        Ok(())
    }
}

#[test]
fn readers_of_std_are_sources(rt: HostRuntime) -> Result<(), Fail> {
    let mut source = StdSource::new(&b"abc"[..]);
    assert_eq!(rt;
        read_all(rt.alloc(), &mut source, 3)?.as_slice(),
        b"abc".as_slice()
    );

    let mut flaky = StdSource::new(Flaky { calls: 0, left: 3 });
    assert_eq!(rt;
        read_all(rt.alloc(), &mut flaky, 9).err(),
        Some(InFault::Read)
    );
    assert_eq!(rt;
        read_all(rt.alloc(), &mut flaky, 9)?.as_slice(),
        b"xx".as_slice()
    );
    Ok(())
}

#[test]
fn writers_of_std_are_sinks(rt: HostRuntime) -> Result<(), Fail> {
    let mut bytes = Vec::new(rt.alloc());
    write_all(&mut StdSink::new(&mut bytes), b"abc")?;
    assert_eq!(rt; bytes.as_slice(), b"abc".as_slice());

    let mut flaky = StdSink::new(Flaky { calls: 0, left: 0 });
    assert_eq!(rt; write_all(&mut flaky, b"abc"), Err(Failed));
    assert_eq!(rt; write_all(&mut flaky, b"abc"), Err(Failed));
    assert_eq!(rt; write_all(&mut flaky, b""), Ok(()));
    assert_eq!(rt; write_all(&mut flaky, b"abc"), Ok(()));
    Ok(())
}
