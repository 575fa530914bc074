//! What no clause says: calls with ample memory, and each adapter once.

use elan_text::{
    Got, MemorySink, MemorySource, Name, Put, ReadRefusal, Sink, Source, StdSink, StdSource,
    SteadySink, SteadySource, WriteFault, read_all, write_all,
};
use std::test::Fail;

#[test]
fn a_source_is_read_to_its_end(rt: HostRuntime) -> Result<(), Fail> {
    let alloc = rt.alloc();
    let mut source = MemorySource::new(b"rewrite".to_vec(alloc)?, 3, Vec::new(alloc));
    let found = read_all(alloc, &mut source, 7)?;
    assert_eq!(rt;
        (found.as_slice(), source.faults()),
        (b"rewrite".as_slice(), 0)
    );
    Ok(())
}

#[test]
fn a_steady_source_is_read_to_its_end(rt: HostRuntime) -> Result<(), Fail> {
    let alloc = rt.alloc();
    for (bytes, most) in [(b"rewrite".as_slice(), 8), (b"", 0)] {
        let mut source = SteadySource::new(bytes.to_vec(alloc)?);
        let found = read_all(alloc, &mut source, most)?;
        assert_eq!(rt; found.as_slice(), bytes);
    }
    Ok(())
}

#[test]
fn one_byte_past_the_most_is_too_long(rt: HostRuntime) -> Result<(), Fail> {
    let alloc = rt.alloc();
    let mut source = MemorySource::new(b"rewrite".to_vec(alloc)?, 2, Vec::new(alloc));
    assert!(rt; matches!(read_all(alloc, &mut source, 6), Err(ReadRefusal::TooLong)));
    Ok(())
}

#[test]
fn a_source_fails_at_its_second_read_and_goes_on_after_it(rt: HostRuntime) -> Result<(), Fail> {
    let alloc = rt.alloc();
    let mut source = MemorySource::new(b"rewrite".to_vec(alloc)?, 3, [2].to_vec(alloc)?);
    assert!(rt; matches!(read_all(alloc, &mut source, 7), Err(ReadRefusal::ReadFault)));
    assert_eq!(rt; source.faults(), 1);
    assert_eq!(rt;
        read_all(alloc, &mut source, 7)?.as_slice(),
        b"rite".as_slice()
    );
    Ok(())
}

#[test]
fn a_sink_fails_at_its_second_write(rt: HostRuntime) -> Result<(), Fail> {
    let alloc = rt.alloc();
    let mut sink = MemorySink::new(alloc, 4, [2].to_vec(alloc)?);
    assert_eq!(rt; write_all(&mut sink, b"normal form"), Err(WriteFault));
    assert_eq!(rt; sink.written(), b"norm".as_slice());
    assert_eq!(rt; sink.faults(), 1);
    assert_eq!(rt; write_all(&mut sink, b"al"), Ok(()));
    assert_eq!(rt; sink.written(), b"normal".as_slice());
    Ok(())
}

#[test]
fn a_steady_sink_takes_all(rt: HostRuntime) {
    let mut sink = SteadySink::new();
    assert_eq!(rt; write_all(&mut sink, b"redex"), Ok(()));
    assert_eq!(rt; sink.faults(), 0);
}

#[test]
fn a_reader_of_std_is_a_source(rt: HostRuntime) -> Result<(), Fail> {
    let mut source = StdSource::new(b"term".as_slice());
    assert_eq!(rt;
        read_all(rt.alloc(), &mut source, 4)?.as_slice(),
        b"term".as_slice()
    );
    assert_eq!(rt; source.faults(), 0);
    Ok(())
}

#[test]
fn a_writer_of_std_is_a_sink(rt: HostRuntime) {
    let mut room = [0u8; 4];
    let mut sink = StdSink::new(room.as_mut_slice());
    assert_eq!(rt; sink.write(b"te"), Put::Bytes(2));
    assert_eq!(rt; write_all(&mut sink, b"rms"), Err(WriteFault));
    assert_eq!(rt; sink.faults(), 1);
}

#[test]
fn an_empty_buffer_takes_nothing(rt: HostRuntime) -> Result<(), Fail> {
    let mut source = SteadySource::new(b"x".to_vec(rt.alloc())?);
    assert_eq!(rt; source.read(&mut []), Got::Bytes(0));
    assert_eq!(rt; source.read(&mut [0]), Got::Bytes(1));
    assert_eq!(rt; source.read(&mut [0]), Got::End);
    Ok(())
}

#[test]
fn a_name_has_its_bytes(rt: HostRuntime) -> Result<(), Fail> {
    assert_eq!(rt;
        Name::new(rt.alloc(), b"list[int]")?.as_bytes(),
        b"list[int]".as_slice()
    );
    Ok(())
}
