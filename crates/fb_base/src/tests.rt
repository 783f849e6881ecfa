//! The adapters over real files: nothing else shows what a real file holds.

use crate::{DirShelf, Shelf, Sink, StdSink};
use std::alloc::Global;
use std::process::{self, Abort};
use std::test::Fail;
use std::{env, fs};

fn fetches<H: Shelf>(
    rt: &impl Abort,
    alloc: Global,
    shelf: &mut H,
    table: &[(&str, u64, &str)],
) -> Result<(), Fail> {
    for (name, limit, want) in table {
        let answer = shelf.fetch(alloc, name, *limit);
        let shown = format!(in alloc; "{answer:?}")?;
        assert_eq!(rt; shown.as_str(), *want, "{name} at {limit}");
    }
    Ok(())
}

/// A path of this run's own.
fn own_path(rt: &HostRuntime, name: &str) -> Result<String, Fail> {
    let name = format!(in rt.alloc(); "fb-base-{name}-{}", process::id(rt.process()))?;
    let path = env::temp_dir(rt)?.join(rt.alloc(), name.as_str())?;
    Ok(format!(in rt.alloc(); "{}", path.display())?)
}

#[test]
fn directory_shelf(rt: HostRuntime) -> Result<(), Fail> {
    let path = own_path(&rt, "shelf")?;
    let mut shelf = DirShelf::new(&rt);
    fs::write(&rt, path.as_str(), b"xyz")?;
    let table = [
        (path.as_str(), 3, "Ok([120, 121, 122])"),
        (path.as_str(), 2, "Err(TooLong { limit: 2 })"),
        ("/tmp/fb-base/missing", 2, "Err(Failed)"),
        ("/tmp", 2, "Err(Failed)"),
    ];
    fetches(&rt, rt.alloc(), &mut shelf, &table)?;
    fs::write(&rt, path.as_str(), b"")?;
    fetches(&rt, rt.alloc(), &mut shelf, &[(path.as_str(), 0, "Ok([])")])?;
    let mut long = Vec::new(rt.alloc());
    for place in 0..200_000u32 {
        long.push((place % 251) as u8)?;
    }
    fs::write(&rt, path.as_str(), long.as_slice())?;
    let whole = shelf.fetch(rt.alloc(), path.as_str(), 200_000);
    fetches(
        &rt,
        rt.alloc(),
        &mut shelf,
        &[(path.as_str(), 199_999, "Err(TooLong { limit: 199999 })")],
    )?;
    fs::remove_file(&rt, path.as_str())?;
    match whole {
        Ok(bytes) => assert_eq!(rt; bytes.as_slice(), long.as_slice()),
        Err(e) => assert!(rt; false, "{e:?}"),
    }
    assert_eq!(rt; shelf.failures(), 2);
    Ok(())
}

#[test]
fn writer_sink(rt: HostRuntime) -> Result<(), Fail> {
    let path = own_path(&rt, "sink")?;
    let mut sink = StdSink::new(fs::create(&rt, path.as_str())?);
    for piece in [b"abc".as_slice(), b"", b"de"] {
        assert!(rt; sink.put(piece).is_ok());
    }
    assert_eq!(rt; sink.failures(), 0);
    let mut closed = StdSink::new(fs::open(&rt, path.as_str())?);
    for (piece, succeeds) in [(b"x".as_slice(), false), (b"", true), (b"yz", false)] {
        assert_eq!(rt; closed.put(piece).is_ok(), succeeds);
    }
    assert_eq!(rt; closed.failures(), 2);
    let written = fs::read(&rt, path.as_str())?;
    fs::remove_file(&rt, path.as_str())?;
    assert_eq!(rt; written.as_slice(), b"abcde".as_slice());
    Ok(())
}
