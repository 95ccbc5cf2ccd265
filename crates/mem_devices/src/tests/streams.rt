// Sources and sinks, by hand-worked examples.
use crate::{MemSink, MemSource, SureSource};
use ports::{Failed, Memory, Sink, Source, write_all};

// One read through the trait, into two bytes.
fn read_two<S: Source>(source: &mut S) -> Result<(usize, [u8; 2]), Failed> {
    let mut into = [7; 2];
    let count = source.read(&mut into)?;
    Ok((count, into))
}

#[test]
fn sources_give_their_bytes(rt: HostRuntime) -> Result<(), Memory> {
    let mut source = MemSource::new(rt.alloc(), b"abc", 2, &[2])?;
    assert_eq!(rt; read_two(&mut source), Ok((2, *b"ab")));
    assert_eq!(rt; read_two(&mut source), Err(Failed));
    assert_eq!(rt; read_two(&mut source), Ok((1, [b'c', 7])));
    assert_eq!(rt; read_two(&mut source), Ok((0, [7, 7])));

    let mut one_by_one = MemSource::new(rt.alloc(), b"ab", 1, &[])?;
    assert_eq!(rt; read_two(&mut one_by_one), Ok((1, [b'a', 7])));

    let mut sure = SureSource::new(rt.alloc(), b"abc")?;
    assert_eq!(rt; read_two(&mut sure), Ok((2, *b"ab")));
    assert_eq!(rt; read_two(&mut sure), Ok((1, [b'c', 7])));
    Ok(())
}

#[test]
fn a_sink_keeps_what_is_written(rt: HostRuntime) -> Result<(), Memory> {
    let mut failing = MemSink::new(rt.alloc(), 5, &[2])?;
    assert_eq!(rt; write_all(&mut failing, b"0 0\n1 1\n2 2\n"), Err(Failed));
    assert_eq!(rt; failing.written(), b"0 0\n1".as_slice());

    let mut sink = MemSink::new(rt.alloc(), 5, &[])?;
    assert_eq!(rt; sink.write(b""), Ok(0));
    assert_eq!(rt; write_all(&mut sink, b"0 0\n1 1\n"), Ok(()));
    assert_eq!(rt; write_all(&mut sink, b"2 2\n"), Ok(()));
    assert_eq!(rt; sink.written(), b"0 0\n1 1\n2 2\n".as_slice());
    Ok(())
}
