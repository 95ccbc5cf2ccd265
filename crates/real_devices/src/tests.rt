// The real devices on files in the test's folder. No contract says what a file holds, so these tests look.
use crate::{CountMeter, FileDisk, OpenFault, StreamSink, StreamSource, make_folder, sync_folder};
use ports::{Beat, Disk, Failed, Sink, Source, write_all};
use std::fs::{self, File};
use std::io::{self, Write};
use std::test::Fail;

// A writer that takes at most two bytes a call, and no more than four in all.
#[derive(Drop)]
struct FullPipe {
    taken: usize,
}

impl Write for FullPipe {
    fn write(&mut self, piece: &[u8]) -> io::Result<usize> {
        let count = piece.len().min(2).min(4usize.saturating_sub(self.taken));
        self.taken = self.taken.saturating_add(count);
        Ok(count)
    }

    fn flush(&mut self) -> io::Result<()> {
        Ok(())
    }
}

#[test]
fn a_writer_is_a_sink(rt: HostRuntime) -> Result<(), Fail> {
    let mut sink = StreamSink::new(FullPipe { taken: 0 });
    assert_eq!(rt; sink.write(b""), Ok(0));
    assert_eq!(rt; write_all(&mut sink, b"abcd"), Ok(()));
    assert_eq!(rt; sink.write(b"e"), Err(Failed));
    Ok(())
}

#[test]
fn a_write_to_a_closed_pipe_fails(rt: HostRuntime) -> Result<(), Fail> {
    let (reader, writer) = io::pipe(&rt)?;
    drop(reader);
    let mut sink = StreamSink::new(writer);
    assert_eq!(rt; sink.write(b"a"), Err(Failed));
    Ok(())
}

#[test]
fn a_stream_of_a_file_gives_what_was_written(rt: HostRuntime) -> Result<(), Fail> {
    let mut sink = StreamSink::new(File::create(&rt, "streamed")?);
    assert_eq!(rt; write_all(&mut sink, b"abc"), Ok(()));
    let mut source = StreamSource::new(File::open(&rt, "streamed")?);
    let mut into = [0u8; 2];
    assert_eq!(rt; source.read(&mut into), Ok(2));
    assert_eq!(rt; into, *b"ab");
    assert_eq!(rt; source.read(&mut into), Ok(1));
    assert_eq!(rt; source.read(&mut into), Ok(0));
    Ok(())
}

#[test]
fn a_file_keeps_what_a_disk_wrote(rt: HostRuntime) -> Result<(), Fail> {
    make_folder(&rt, "kept")?;
    let mut disk = FileDisk::open(&rt, rt.alloc(), 0, "kept/graph_0")?;
    let mut meter = CountMeter::new(&rt)?;
    let beat = Beat::new();
    let mut into = [0u8; 3];
    assert_eq!(rt; disk.cut(&beat, 0), Ok(()));
    assert_eq!(rt; disk.write_at(&beat, 0, b"abcdef"), Ok(()));
    assert_eq!(rt; disk.write_at(&beat, 2, b"XY"), Ok(()));
    assert_eq!(rt; disk.cut(&beat, 5), Ok(()));
    assert_eq!(rt; disk.sync(&beat), Ok(()));
    sync_folder(&rt, "kept")?;
    assert_eq!(rt; disk.read_at(&mut meter, 2, &mut into), Ok(()));
    assert_eq!(rt; into, *b"XYe");
    assert_eq!(rt;
        FileDisk::open(&rt, rt.alloc(), 0, "kept/graph_0")?.size(),
        5
    );
    Ok(())
}

#[test]
fn a_meter_reads_files_in_turn(rt: HostRuntime) -> Result<(), Fail> {
    fs::write(&rt, "first", b"a".as_slice())?;
    fs::write(&rt, "second", b"b".as_slice())?;
    let first = FileDisk::open(&rt, rt.alloc(), 1, "first")?;
    let second = FileDisk::open(&rt, rt.alloc(), 2, "second")?;
    assert_eq!(rt; (first.size(), second.size()), (1, 1));
    let mut meter = CountMeter::new(&rt)?;
    let mut into = [0u8];
    assert_eq!(rt; first.read_at(&mut meter, 0, &mut into), Ok(()));
    assert_eq!(rt; into, *b"a");
    assert_eq!(rt; second.read_at(&mut meter, 0, &mut into), Ok(()));
    assert_eq!(rt; into, *b"b");
    fs::write(&rt, "second", b"".as_slice())?;
    assert_eq!(rt; second.read_at(&mut meter, 0, &mut into), Err(Failed));
    assert_eq!(rt; first.read_at(&mut meter, 0, &mut into), Ok(()));
    Ok(())
}

#[test]
fn a_folder_that_cannot_be_made(rt: HostRuntime) -> Result<(), Fail> {
    fs::write(&rt, "no_folder", b"".as_slice())?;
    assert_eq!(rt; make_folder(&rt, "no_folder/store"), Err(OpenFault::Failed));
    let fault = FileDisk::open(&rt, rt.alloc(), 0, "no_folder/store/graph_0").err();
    assert_eq!(rt; fault, Some(OpenFault::Failed));
    Ok(())
}
