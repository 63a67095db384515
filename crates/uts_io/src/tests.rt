use crate::{
    CalmSource, MemSink, MemSource, Read, ReadAll, Sink, SinkFault, Source, StdSink, StdSource,
    Wrote, read_all, write_all,
};
use std::io;
use std::test::Fail;

/// A reader that always fails.
#[derive(Drop)]
struct BrokenReader;

impl io::Read for BrokenReader {
    fn read(&mut self, _: &mut [u8]) -> io::Result<usize> {
        Err(io::ErrorKind::Other.into())
    }
}

#[test]
fn all_is_read_up_to_the_limit(rt: HostRuntime) -> Result<(), Fail> {
    let alloc = rt.alloc();
    for limit in [5, 6] {
        let mut source = CalmSource::new(Vec::from_slice(alloc, b"abcde")?);
        let bytes = read_all(alloc, &mut source, limit)?;
        assert_eq!(rt; bytes.as_slice(), b"abcde".as_slice(), "at {limit}");
    }
    let mut source = CalmSource::new(Vec::from_slice(alloc, b"abcde")?);
    assert_eq!(rt;
        read_all(alloc, &mut source, 4).err(),
        Some(ReadAll::TooLong)
    );
    assert_eq!(rt;
        read_all(alloc, &mut source, 0)?.len(),
        0,
        "all five bytes are gone"
    );
    Ok(())
}

#[test]
fn more_than_a_chunk_is_read(rt: HostRuntime) -> Result<(), Fail> {
    let alloc = rt.alloc();
    let mut bytes = Vec::new(alloc);
    for _ in 0..2500u32 {
        bytes.extend_from_slice(b"abcd")?;
    }
    let mut source = MemSource::new(bytes.clone()?, Vec::new(alloc));
    assert_eq!(rt; read_all(alloc, &mut source, 10_000)?, bytes);
    Ok(())
}

#[test]
fn source_fails_at_its_second_call(rt: HostRuntime) -> Result<(), Fail> {
    let alloc = rt.alloc();
    let mut source = MemSource::new(
        Vec::from_slice(alloc, b"abcde")?,
        Vec::from_slice(alloc, &[1])?,
    );
    let mut buf = [b'-'; 3];
    assert_eq!(rt; source.read(&mut buf), Read::Got(3));
    assert_eq!(rt; buf, *b"abc");
    assert_eq!(rt; source.read(&mut buf), Read::Failed);
    assert_eq!(rt; source.read(&mut buf), Read::Got(2));
    assert_eq!(rt; buf, *b"dec");
    assert_eq!(rt; source.read(&mut buf), Read::End);

    let mut source = MemSource::new(
        Vec::from_slice(alloc, b"abcde")?,
        Vec::from_slice(alloc, &[1])?,
    );
    assert_eq!(rt;
        read_all(alloc, &mut source, 9).err(),
        Some(ReadAll::Failed)
    );
    assert_eq!(rt;
        read_all(alloc, &mut source, 9)?.len(),
        0,
        "what was read is gone"
    );
    Ok(())
}

#[test]
fn sink_takes_what_it_has_room_for(rt: HostRuntime) -> Result<(), Fail> {
    let alloc = rt.alloc();
    let mut sink = MemSink::new(alloc, 4, Vec::new(alloc))?;
    assert_eq!(rt; write_all(&mut sink, b"abc"), Ok(()));
    assert_eq!(rt; write_all(&mut sink, b""), Ok(()));
    assert_eq!(rt; sink.write(b"de"), Wrote::Took(1));
    assert_eq!(rt; sink.write(b"e"), Wrote::Failed);
    assert_eq!(rt; sink.bytes(), b"abcd".as_slice());

    let mut sink = MemSink::new(alloc, 2, Vec::new(alloc))?;
    assert_eq!(rt; write_all(&mut sink, b"abc"), Err(SinkFault));
    assert_eq!(rt; sink.bytes(), b"ab".as_slice());
    Ok(())
}

#[test]
fn sink_fails_in_mid_stream(rt: HostRuntime) -> Result<(), Fail> {
    let alloc = rt.alloc();
    let mut sink = MemSink::new(alloc, 64, Vec::from_slice(alloc, &[1])?)?;
    assert_eq!(rt; write_all(&mut sink, b"one "), Ok(()));
    assert_eq!(rt; write_all(&mut sink, b"two "), Err(SinkFault));
    assert_eq!(rt; write_all(&mut sink, b"three"), Ok(()));
    assert_eq!(rt; sink.bytes(), b"one three".as_slice());
    Ok(())
}

#[test]
fn readers_and_writers_of_std(rt: HostRuntime) -> Result<(), Fail> {
    let alloc = rt.alloc();
    let mut source = StdSource::new(b"abcde".as_slice());
    let bytes = read_all(alloc, &mut source, 5)?;
    assert_eq!(rt; bytes.as_slice(), b"abcde".as_slice());
    assert_eq!(rt;
        read_all(alloc, &mut StdSource::new(BrokenReader), 5).err(),
        Some(ReadAll::Failed)
    );

    let mut written = Vec::new(alloc);
    assert_eq!(rt;
        write_all(&mut StdSink::new(&mut written), b"abcde"),
        Ok(())
    );
    assert_eq!(rt; written.as_slice(), b"abcde".as_slice());
    let mut full = [0u8; 3];
    assert_eq!(rt;
        write_all(&mut StdSink::new(full.as_mut_slice()), b"abcde"),
        Err(SinkFault)
    );
    assert_eq!(rt; full, *b"abc", "a writer that takes nothing has failed");
    Ok(())
}
