//! Real files as shelf, source and sink, once each.

use ops_io::{Failed, LoadError, Shelf, Sink, Source, StdShelf, StdSink, StdSource};
use std::fs;
use std::test::Fail;

#[test]
fn real_shelf(rt: HostRuntime) -> Result<(), Fail> {
    fs::write(&rt, "ops_io_shelf.txt", "(make a)")?;
    let alloc = rt.alloc();
    let mut shelf = StdShelf::new(alloc, &rt);
    let mut text = b"; ".to_vec(alloc)?;
    assert_eq!(rt; shelf.load("ops_io_shelf.txt", 7, &mut text)?, false);
    assert_eq!(rt; shelf.load("ops_io_shelf.txt", 8, &mut text)?, true);
    assert_eq!(rt; text.as_slice(), b"; (make a)".as_slice());
    let missing = shelf.load("ops_io_none.txt", 8, &mut text);
    assert_eq!(rt; missing, Err(LoadError::Failed));
    fs::remove_file(&rt, "ops_io_shelf.txt")?;
    Ok(())
}

#[test]
fn real_source(rt: HostRuntime) -> Result<(), Fail> {
    fs::write(&rt, "ops_io_source.txt", "abc")?;
    let mut source = StdSource::new(fs::open(&rt, "ops_io_source.txt")?);
    let mut buf = [0; 2];
    assert_eq!(rt; source.read(&mut buf)?, 2);
    assert_eq!(rt; source.read(&mut buf)?, 1);
    assert_eq!(rt; source.read(&mut buf)?, 0);
    assert_eq!(rt; buf.as_slice(), b"cb".as_slice());
    fs::remove_file(&rt, "ops_io_source.txt")?;
    Ok(())
}

#[test]
fn real_sink(rt: HostRuntime) -> Result<(), Fail> {
    let mut sink = StdSink::new(fs::create(&rt, "ops_io_sink.txt")?, false);
    assert_eq!(rt; sink.write(b"abc"), Ok(3));
    assert_eq!(rt; sink.is_read_along(), false);
    assert_eq!(rt;
        fs::read(&rt, "ops_io_sink.txt")?.as_slice(),
        b"abc".as_slice()
    );

    // A file that is open for reading alone takes nothing.
    let mut refusing = StdSink::new(fs::open(&rt, "ops_io_sink.txt")?, true);
    assert_eq!(rt; refusing.write(b"abc"), Err(Failed));
    assert_eq!(rt; refusing.is_read_along(), true);
    fs::remove_file(&rt, "ops_io_sink.txt")?;
    Ok(())
}
