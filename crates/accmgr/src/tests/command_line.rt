// The words of the command line.
use super::{first, words};
use row_keys::Octets;
use shell::dir_of;
use std::alloc::{AllocError, Global};
use std::test::Fail;

#[test]
fn refuses_words(rt: HostRuntime) -> Result<(), Fail> {
    assert_eq!(rt;
        first(rt.alloc(), &[b"--init", b"--init", b"d"], b"")?.status,
        2
    );
    assert_eq!(rt; first(rt.alloc(), &[b"--init"], b"")?.status, 2);
    assert_eq!(rt; first(rt.alloc(), &[], b"")?.status, 2);
    assert_eq!(rt; first(rt.alloc(), &[b"d", b"--init"], b"")?.status, 0);
    Ok(())
}

// The directory that the words name.
fn directory(alloc: Global, texts: &[&[u8]]) -> Result<Option<Octets>, AllocError> {
    dir_of(alloc, &words(alloc, texts)?)
}

fn names_d(alloc: Global, texts: &[&[u8]]) -> Result<bool, AllocError> {
    Ok(directory(alloc, texts)?.is_some_and(|dir| dir.as_bytes() == b"d".as_slice()))
}

#[test]
fn finds_the_directory(rt: HostRuntime) -> Result<(), Fail> {
    assert!(rt; names_d(rt.alloc(), &[b"d"])?);
    assert!(rt; names_d(rt.alloc(), &[b"--init", b"d"])?);
    assert!(rt; names_d(rt.alloc(), &[b"d", b"--init"])?);
    assert!(rt; directory(rt.alloc(), &[b"d", b"e"])?.is_none());
    Ok(())
}
