//! The adapters over real files, which are streams too.

use mic_base::{
    FileError, Files, ReadAhead, Sink, SinkFailed, Source, SourceFailed, StdFiles, StdSink,
    StdSource,
};
use std::fs::File;
use std::io::{BufRead, BufWriter, Read};
use std::test::Fail;
use std::{fs, io};

/// What a reader gives that is asked for a block.
const BLOCK: [u8; 4] = *b"aaaa";

/// A reader as standard input is: it holds a block ahead only if it is filled. It counts how often it asks the system.
#[derive(Drop)]
struct Counting {
    blocks: u32,
    held: usize,
    asked: u32,
}

impl Read for Counting {
    fn read(&mut self, buf: &mut [u8]) -> io::Result<usize> {
        if self.held == 0 {
            self.asked = self.asked.saturating_add(1);
            return Ok(0);
        }
        let count = self.held.min(buf.len()).min(BLOCK.len());
        buf[..count].copy_from_slice(&BLOCK[..count]);
        self.held = self.held.saturating_sub(count);
        Ok(count)
    }
}

impl BufRead for Counting {
    fn fill_buf(&mut self) -> io::Result<&[u8]> {
        if self.held == 0 {
            self.asked = self.asked.saturating_add(1);
            if self.blocks > 0 {
                self.blocks -= 1;
                self.held = BLOCK.len();
            }
        }
        Ok(&BLOCK[..self.held.min(BLOCK.len())])
    }

    fn consume(&mut self, amount: usize) {
        self.held = self.held.saturating_sub(amount);
    }
}

#[test]
fn input_is_read_ahead_and_its_end_asked_for_once(rt: HostRuntime) -> Result<(), Fail> {
    let mut reader = Counting {
        blocks: 2,
        held: 0,
        asked: 0,
    };
    let mut source = StdSource::new(ReadAhead::new(&mut reader));
    for _ in 0..8 {
        assert_eq!(rt; source.get(), Ok(Some(b'a')));
    }
    assert_eq!(rt; source.get(), Ok(None));
    assert_eq!(rt; reader.asked, 3);
    Ok(())
}

#[test]
fn a_reader_is_a_source(rt: HostRuntime) -> Result<(), Fail> {
    let name = "mic_tests.reader";
    fs::write(&rt, name, b"ab".as_slice())?;
    let mut source = StdSource::new(File::open(&rt, name)?);
    for next in [Some(b'a'), Some(b'b'), None, None] {
        assert_eq!(rt; source.get(), Ok(next));
    }
    // This file is open for writing alone.
    let mut unreadable = StdSource::new(File::create(&rt, name)?);
    for _ in 0..2 {
        assert_eq!(rt; unreadable.get(), Err(SourceFailed));
    }
    fs::remove_file(&rt, name)?;
    Ok(())
}

#[test]
fn a_writer_is_a_sink(rt: HostRuntime) -> Result<(), Fail> {
    let name = "mic_tests.writer";
    let mut sink = StdSink::new(File::create(&rt, name)?);
    for piece in [b"ab".as_slice(), b"", b"c"] {
        assert_eq!(rt; sink.put(piece), Ok(()));
        assert_eq!(rt; sink.flush(), Ok(()));
    }
    let written = fs::read(&rt, name)?;
    assert_eq!(rt; written.as_slice(), b"abc".as_slice());
    // This file is open for reading alone.
    let mut unwritable = StdSink::new(File::open(&rt, name)?);
    assert_eq!(rt; unwritable.put(b"d"), Err(SinkFailed));
    fs::remove_file(&rt, name)?;
    Ok(())
}

#[test]
fn a_flush_reaches_the_file(rt: HostRuntime) -> Result<(), Fail> {
    let name = "mic_tests.buffered";
    let mut sink = StdSink::new(BufWriter::new(rt.alloc(), File::create(&rt, name)?)?);
    for (piece, written) in [(b"ab".as_slice(), b"ab".as_slice()), (b"c", b"abc")] {
        assert_eq!(rt; sink.put(piece), Ok(()));
        assert_eq!(rt; sink.flush(), Ok(()));
        let read = fs::read(&rt, name)?;
        assert_eq!(rt; read.as_slice(), written);
    }
    fs::remove_file(&rt, name)?;
    Ok(())
}

#[test]
fn real_files_are_files(rt: HostRuntime) -> Result<(), Fail> {
    let alloc = rt.alloc();
    let name = "mic_tests.file";
    let mut files = StdFiles::new(&rt);
    for (length, failed) in [
        (0, None),
        (5, None),
        (1_048_576, None),
        (1_048_577, Some(FileError::TooLong)),
    ] {
        let bytes = vec![in alloc; 7; length]?;
        assert_eq!(rt; files.write_file(alloc, name, &bytes), Ok(()));
        match files.read_file(alloc, name) {
            Ok(read) => assert!(rt; failed.is_none() && read == bytes, "{length} bytes"),
            Err(error) => assert_eq!(rt; Some(error), failed, "{length} bytes"),
        }
    }
    fs::remove_file(&rt, name)?;
    assert_eq!(rt; files.read_file(alloc, name).err(), Some(FileError::Failed));
    Ok(())
}
