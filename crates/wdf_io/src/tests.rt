use super::*;
use std::alloc::Global;
use std::fs;
use std::io::{self, ErrorKind, Read, Write};
use std::process::Abort;
use std::test::*;

const TEXT: &[u8; 8] = b"abcdefgh";

fn takes(rt: &impl Abort, source: &mut impl Source, buf: &mut [u8], want: Result<usize, Failed>) {
    assert!(rt; take_exact(source, buf) == want);
}

// Eight bytes are read six at a time: the second buffer is short.
fn reads_text(rt: &impl Abort, source: &mut impl Source) {
    let mut buf = [0; 6];
    for bytes in [b"abcdef".as_slice(), b"gh".as_slice(), b"".as_slice()] {
        takes(rt, source, &mut buf, Ok(bytes.len()));
        assert!(rt; buf.starts_with(bytes));
    }
}

fn puts(rt: &impl Abort, sink: &mut impl Sink, piece: &[u8], want: Result<(), Failed>) {
    assert!(rt; put_all(sink, piece) == want);
}

fn holds(rt: &impl Abort, bytes: &[u8], want: &[u8]) {
    assert!(rt; bytes == want);
}

// What a load of a name within a limit answers, if not the bytes.
type Refusal<'a> = (&'a str, usize, Option<LoadError>);

fn refuses(rt: &impl Abort, alloc: Global, shelf: &mut impl Shelf, cases: &[Refusal<'_>]) {
    for (name, limit, want) in cases {
        assert_eq!(rt;
            shelf.load(alloc, name, *limit).err(),
            *want,
            "{name}, at most {limit}"
        );
    }
}

#[test]
fn a_source_is_read_to_its_end(rt: HostRuntime) -> Result<(), Fail> {
    let alloc = rt.alloc();
    reads_text(&rt, &mut SureSource::new(TEXT.to_vec(alloc)?));
    let pieces = &mut MemSource::new(TEXT.to_vec(alloc)?, Vec::new(alloc), 3);
    reads_text(&rt, pieces);
    reads_text(&rt, &mut StdSource::new(TEXT.as_slice()));
    Ok(())
}

#[test]
fn a_read_fails_at_its_number(rt: HostRuntime) -> Result<(), Fail> {
    let alloc = rt.alloc();
    let source = &mut MemSource::new(TEXT.to_vec(alloc)?, vec![in alloc; 1]?, 3);
    let mut buf = [0; 6];
    takes(&rt, source, &mut buf, Err(Failed));
    takes(&rt, source, &mut buf, Ok(5));
    holds(&rt, &buf[..5], b"defgh");
    Ok(())
}

#[test]
fn a_piece_is_written_in_parts(rt: HostRuntime) -> Result<(), Fail> {
    let alloc = rt.alloc();
    let mut sink = MemSink::new(alloc, Vec::new(alloc), 3, 8)?;
    puts(&rt, &mut sink, b"abcdef", Ok(()));
    puts(&rt, &mut sink, b"ghi", Err(Failed));
    holds(&rt, sink.bytes(), TEXT);

    let mut sink = MemSink::new(alloc, vec![in alloc; 1]?, 3, 8)?;
    puts(&rt, &mut sink, b"abcdef", Err(Failed));
    holds(&rt, sink.bytes(), b"abc");
    Ok(())
}

#[test]
fn a_writer_takes_the_whole_piece(rt: HostRuntime) {
    let mut bytes = Vec::new(rt.alloc());
    puts(&rt, &mut StdSink::new(&mut bytes), TEXT, Ok(()));
    holds(&rt, &bytes, TEXT);
}

// A reader that only fails, and a writer that takes all and then fails to flush it.
#[derive(Drop)]
struct Broken;

impl Read for Broken {
    fn read(&mut self, _: &mut [u8]) -> io::Result<usize> {
        Err(io::Error::from(ErrorKind::Other))
    }
}

impl Write for Broken {
    fn write(&mut self, piece: &[u8]) -> io::Result<usize> {
        Ok(piece.len())
    }

    fn flush(&mut self) -> io::Result<()> {
        Err(io::Error::from(ErrorKind::Other))
    }
}

#[test]
fn an_error_of_the_system_is_a_failure(rt: HostRuntime) {
    takes(&rt, &mut StdSource::new(Broken), &mut [0; 6], Err(Failed));
    puts(&rt, &mut StdSink::new(Broken), TEXT, Err(Failed));
}

fn named(alloc: Global, name: &str, bytes: &[u8]) -> Result<(String, Vec<u8>), NoMemory> {
    Ok((String::from_str(alloc, name)?, bytes.to_vec(alloc)?))
}

#[test]
fn a_file_is_loaded_by_its_name(rt: HostRuntime) -> Result<(), Fail> {
    let alloc = rt.alloc();
    let twice = vec![in alloc;
        named(alloc, "net", b"first")?,
        named(alloc, "net", b"second")?,
    ]?;
    let mut shelf = SureShelf::new(twice);
    holds(&rt, &shelf.load(alloc, "net", 5)?, b"first");
    let cases = [
        ("net", 4, Some(LoadError::TooLarge)),
        ("cert", 5, Some(LoadError::Missing)),
    ];
    refuses(&rt, alloc, &mut shelf, &cases);
    Ok(())
}

#[test]
fn a_load_fails_at_its_number(rt: HostRuntime) -> Result<(), Fail> {
    let alloc = rt.alloc();
    let files = vec![in alloc; named(alloc, "net", b"first")?]?;
    let mut shelf = MemShelf::new(files, vec![in alloc; 1]?);
    let cases = [
        ("net", 5, None),
        ("cert", 5, Some(LoadError::Failed)),
        ("cert", 5, Some(LoadError::Missing)),
    ];
    refuses(&rt, alloc, &mut shelf, &cases);
    Ok(())
}

#[test]
fn a_file_of_the_system_is_loaded(rt: HostRuntime) -> Result<(), Fail> {
    let alloc = rt.alloc();
    let path = "wdf_io_dir_shelf_test";
    fs::write(&rt, path, TEXT.as_slice())?;
    let mut shelf = DirShelf::new(&rt);
    let loaded = shelf.load(alloc, path, 8);
    let cases = [
        (path, 7, Some(LoadError::TooLarge)),
        ("/dev/zero", 8, Some(LoadError::TooLarge)),
        ("/", 8, Some(LoadError::Failed)),
        ("/no/such/file", 8, Some(LoadError::Missing)),
    ];
    refuses(&rt, alloc, &mut shelf, &cases);
    fs::remove_file(&rt, path)?;
    holds(&rt, &loaded?, TEXT);
    Ok(())
}
