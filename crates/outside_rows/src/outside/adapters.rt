//! The real files and the real writer are each tested once.

use game_outside::{ReadEnd, read_all, write_all};
use std::fs;
use std::test::Fail;
use system_files::{FileShelf, OutSink};
use worked_rows::COIN_LOOP;

#[test]
fn a_file_is_read_whole(rt: HostRuntime) -> Result<(), Fail> {
    let alloc = rt.alloc();
    fs::write(&rt, "m.tra", COIN_LOOP)?;
    let mut shelf = FileShelf::new(&rt, alloc);
    let Ok(bytes) = read_all(alloc, &mut shelf, "m.tra", 1000) else {
        return Err(Fail::new("the file is not read"));
    };
    assert_eq!(rt; bytes.as_slice(), COIN_LOOP.as_bytes());
    let missing = read_all(alloc, &mut shelf, "missing.tra", 1000);
    assert!(rt; matches!(missing, Err(ReadEnd::ReadFault)));
    let long = read_all(alloc, &mut shelf, "m.tra", 10);
    assert!(rt; matches!(long, Err(ReadEnd::TooLong)));
    Ok(())
}

#[test]
fn a_writer_takes_the_whole_text(rt: HostRuntime) -> Result<(), Fail> {
    let mut text = Vec::new(rt.alloc());
    let mut out = OutSink::new(&mut text);
    let written = write_all(&mut out, COIN_LOOP.as_bytes());
    assert!(rt; written.is_ok());
    drop(out);
    assert_eq!(rt; text.as_slice(), COIN_LOOP.as_bytes());
    Ok(())
}
