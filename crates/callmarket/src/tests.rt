// The edges of what the program takes, and of what it reads.
use crate::listing::LONGEST;
use crate::output::output;
use crate::read_input;
use std::alloc::{AllocError, Global};
use std::io;
use std::io::{ErrorKind, Read};
use std::test::Fail;

const BID: [u8; 15] = [0x4F, 0x42, 0, 0, 0, 0, 101, 0, 0, 0, 1, 0, 0, 0, 0];

const WITHDRAWAL: [u8; 7] = [0x4F, 0x57, 0, 0, 0, 0, 1];

// A bid and then withdrawals, of `n` records in all.
fn batch(heap: Global, n: usize) -> Result<Vec<u8>, AllocError> {
    let mut bytes = Vec::new(heap);
    bytes.extend_from_slice(&BID)?;
    for _ in 1..n {
        bytes.extend_from_slice(&WITHDRAWAL)?;
    }
    Ok(bytes)
}

#[test]
fn an_empty_batch_is_read_to_its_end(rt: HostRuntime) -> Result<(), Fail> {
    let text = output(rt.alloc(), &[])?;
    assert_eq!(rt; text.as_str(), "CALL 100\n");
    Ok(())
}

#[test]
fn the_longest_batch_is_read_to_its_end(rt: HostRuntime) -> Result<(), Fail> {
    let bytes = batch(rt.alloc(), 4680)?;
    assert_eq!(rt; bytes.len(), LONGEST);
    let text = output(rt.alloc(), bytes.as_slice())?;
    assert_eq!(rt; text.lines().count(), 4681);
    assert_eq!(rt; text.lines().last(), Some("RECORD 32761 WITHDRAWAL 0 1"));
    Ok(())
}

#[test]
fn one_byte_more_is_too_long(rt: HostRuntime) -> Result<(), Fail> {
    let mut bytes = batch(rt.alloc(), 4680)?;
    bytes.push(0x4F)?;
    let text = output(rt.alloc(), bytes.as_slice())?;
    assert_eq!(rt; text.as_str(), "TOO LONG\n");
    Ok(())
}

#[test]
fn a_record_cut_short_ends_the_listing(rt: HostRuntime) -> Result<(), Fail> {
    let mut bytes = batch(rt.alloc(), 2)?;
    bytes.push(0x4F)?;
    let text = output(rt.alloc(), bytes.as_slice())?;
    assert_eq!(rt; text.lines().last(), Some("UNREADABLE 22 16"));
    Ok(())
}

#[test]
fn an_unknown_mark_ends_the_listing(rt: HostRuntime) -> Result<(), Fail> {
    let mut bytes = batch(rt.alloc(), 2)?;
    bytes.extend_from_slice(&[0x4F, 0x4F])?;
    bytes.extend_from_slice(&BID)?;
    let text = output(rt.alloc(), bytes.as_slice())?;
    assert_eq!(rt; text.lines().last(), Some("UNREADABLE 22 15"));
    Ok(())
}

#[test]
fn no_more_is_read_than_tells_a_batch_from_one_too_long(rt: HostRuntime) -> Result<(), Fail> {
    let bytes = batch(rt.alloc(), 9000)?;
    let read = read_input(rt.alloc(), bytes.as_slice())?;
    assert_eq!(rt; read.len(), LONGEST + 1);
    Ok(())
}

#[test]
fn a_batch_is_read_as_it_is(rt: HostRuntime) -> Result<(), Fail> {
    let bytes = batch(rt.alloc(), 4680)?;
    let read = read_input(rt.alloc(), bytes.as_slice())?;
    assert!(rt; read.as_slice() == bytes.as_slice());
    Ok(())
}

#[derive(Drop)]
struct Broken;

impl Read for Broken {
    fn read(&mut self, _buf: &mut [u8]) -> io::Result<usize> {
        Err(io::Error::from(ErrorKind::PermissionDenied))
    }
}

#[test]
fn a_read_error_is_an_error(rt: HostRuntime) {
    let kind = read_input(rt.alloc(), Broken)
        .err()
        .map(|error| error.kind());
    assert_eq!(rt; kind, Some(ErrorKind::PermissionDenied));
}
