use or_geom::{Items, Name};
use or_host::{
    FileStore, MemFile, MemSink, MemStore, PutFail, ReadFail, Sink, Store, StreamSink, SureSink,
    SureStore, WriteFail,
};
use std::alloc::Global;
use std::fs;
use std::os::unix::fs::{PermissionsExt, symlink};
use std::test::Fail;

fn file(alloc: Global, name: &[u8], bytes: &[u8]) -> Result<MemFile, Fail> {
    Ok(MemFile {
        name: Name::from_bytes(alloc, name)?,
        bytes: Items::from_vec(bytes.to_vec(alloc)?),
    })
}

/// Whether a read gives these bytes.
fn gives(store: &mut impl Store, name: &str, limit: u64, bytes: &[u8]) -> bool {
    match store.read(name, limit) {
        Ok(Some(read)) => read.as_slice() == bytes,
        _ => false,
    }
}

/// On a folder of its own: a file that is written, read back, longer than the limit, and not there.
#[test]
fn a_real_file(rt: HostRuntime) -> Result<(), Fail> {
    let path = "or_host_test_file";
    let mut store = FileStore::new(rt);
    assert!(rt; store.write(path, b"abcdef") == Ok(()));
    assert!(rt; gives(&mut store, path, 6, b"abcdef"));
    assert!(rt; matches!(&store.read(path, 5), Err(ReadFail::TooLong)));
    fs::remove_file(&rt, path)?;
    assert!(rt; matches!(&store.read(path, 6), Ok(None)));
    Ok(())
}

/// A folder is a failed read and not a missing file.
#[test]
fn a_folder_is_no_file(rt: HostRuntime) {
    let mut store = FileStore::new(rt);
    assert!(rt; matches!(&store.read("/", 6), Err(ReadFail::Failed)));
    assert!(rt; store.write("/", b"abc") == Err(WriteFail::Failed));
}

/// Writes a file with this mode, outside of a store.
fn put_with_mode(rt: &HostRuntime, path: &str, bytes: &[u8], mode: u32) -> Result<(), Fail> {
    fs::write(rt, path, bytes)?;
    let mut permissions = fs::metadata(rt, path)?.permissions();
    permissions.set_mode(mode);
    fs::set_permissions(rt, path, permissions)?;
    Ok(())
}

fn mode_of(rt: &HostRuntime, path: &str) -> Result<u32, Fail> {
    Ok(fs::metadata(rt, path)?.permissions().mode() & 0o777)
}

/// A write through a link replaces the file that the link leads to and keeps its permissions, and what an ended write
/// left beside it is gone.
#[test]
fn a_real_file_is_replaced(rt: HostRuntime) -> Result<(), Fail> {
    put_with_mode(&rt, "or_host_old", b"old", 0o640)?;
    put_with_mode(&rt, "or_host_old.unfinished", b"a longer text", 0o600)?;
    symlink(&rt, "or_host_old", "or_host_link")?;
    let mut store = FileStore::new(rt);
    assert!(rt; store.write("or_host_link", b"new") == Ok(()));
    assert!(rt; fs::symlink_metadata(&rt, "or_host_link")?.is_symlink());
    assert!(rt; !fs::exists(&rt, "or_host_old.unfinished")?);
    assert_eq!(rt; mode_of(&rt, "or_host_old")?, 0o640);
    assert!(rt; gives(&mut store, "or_host_old", 9, b"new"));
    fs::remove_file(&rt, "or_host_link")?;
    fs::remove_file(&rt, "or_host_old")?;
    Ok(())
}

/// A new file has the mode of any new file, also where an ended write left one with another mode.
#[test]
fn a_new_file_gets_no_old_mode(rt: HostRuntime) -> Result<(), Fail> {
    put_with_mode(&rt, "or_host_new.unfinished", b"left", 0o600)?;
    fs::write(&rt, "or_host_other", b"other")?;
    let mut store = FileStore::new(rt);
    assert!(rt; store.write("or_host_new", b"new") == Ok(()));
    assert_eq!(rt;
        mode_of(&rt, "or_host_new")?,
        mode_of(&rt, "or_host_other")?
    );
    fs::remove_file(&rt, "or_host_new")?;
    fs::remove_file(&rt, "or_host_other")?;
    Ok(())
}

#[test]
fn the_real_output(rt: HostRuntime) {
    let mut sink = StreamSink::new(rt);
    assert!(rt; sink.put(b"a line\n") == Ok(()));
}

/// A store of one file, of which the second and the fourth call fail.
fn failing_store(alloc: Global) -> Result<MemStore, Fail> {
    let files = vec![in alloc; file(alloc, b"a", b"one")?]?;
    Ok(MemStore::with(alloc, files, vec![in alloc; 2, 4]?))
}

/// The first of the calls that fail is a read, the other a write that leaves the first half.
#[test]
fn calls_that_fail_as_told(rt: HostRuntime) -> Result<(), Fail> {
    let mut store = failing_store(rt.alloc())?;
    assert!(rt; gives(&mut store, "a", 3, b"one"));
    assert!(rt; matches!(&store.read("a", 3), Err(ReadFail::Failed)));
    assert!(rt; store.write("b", b"two") == Ok(()));
    assert!(rt; store.write("a", b"three") == Err(WriteFail::Failed));
    assert!(rt; matches!(&store.read("b", 2), Err(ReadFail::TooLong)));
    assert_eq!(rt; store.contents("a"), Some(b"th".as_slice()));
    assert_eq!(rt; store.contents("b"), Some(b"two".as_slice()));
    assert!(rt; store.contents("c").is_none());
    Ok(())
}

#[test]
fn puts_that_fail_as_told(rt: HostRuntime) -> Result<(), Fail> {
    let alloc = rt.alloc();
    let mut sink = MemSink::with(alloc, vec![in alloc; 2]?);
    assert!(rt; sink.put(b"abc") == Ok(()));
    assert!(rt; sink.put(b"defg") == Err(PutFail::Failed));
    assert!(rt; sink.put(b"h") == Ok(()));
    assert_eq!(rt; sink.written(), b"abcdeh".as_slice());
    Ok(())
}

fn sure_store(alloc: Global) -> Result<SureStore, Fail> {
    let files = vec![in alloc; file(alloc, b"a", b"one")?]?;
    Ok(SureStore::with(alloc, files))
}

#[test]
fn calls_that_never_fail(rt: HostRuntime) -> Result<(), Fail> {
    let mut store = sure_store(rt.alloc())?;
    assert!(rt; store.write("a", b"two") == Ok(()));
    assert!(rt; matches!(&store.read("b", 3), Ok(None)));
    assert_eq!(rt; store.contents("a"), Some(b"two".as_slice()));
    Ok(())
}

#[test]
fn puts_that_never_fail(rt: HostRuntime) {
    let mut sink = SureSink::new(rt.alloc());
    assert!(rt; sink.put(b"abc") == Ok(()));
    assert_eq!(rt; sink.written(), b"abc".as_slice());
}
