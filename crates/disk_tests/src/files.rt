//! A real file, written, synced here and elsewhere, opened again and read.
ghost use Rattle.std.specs.Prelude.{◌+◌};
ghost use Rattle.disk_model.specs.Meaning.{IsLong};

use blob_disk::{Disk, Flush, Peer};
use file_disk::{FileDisk, FileOpener};
use ports::Opener;
use std::fs;
use std::io::Eprint;
use std::process::Abort;
use std::test::Fail;

const NAME: &str = "disk_tests.bin";

// What is called goes through the bounds.
fn opened<R, O: Opener<FileDisk<R>>>(opener: &mut O, create: bool) -> Option<FileDisk<R>> {
    opener.open(NAME, create).ok()
}

fn size<D: Disk>(disk: &mut D) -> Option<u64> {
    disk.size().ok()
}

fn write<D: Disk>(rt: &impl Abort, disk: &mut D, at: u64, bytes: &[u8])
    requires { IsLong (D.meaning disk.old).reads at }
{
    assert_eq!(rt; disk.write_at(at, bytes), Ok(()));
    assert_eq!(rt; disk.sync(), Ok(()));
}

fn read<D: Disk>(disk: &mut D, at: u64) -> Option<[u8; 4]>
    requires { IsLong (D.meaning disk.old).reads (at + 4) }
{
    let mut buf = [0; 4];
    match disk.read_at(at, &mut buf) {
        Ok(()) => Some(buf),
        Err(_) => None,
    }
}

// A sync that is made elsewhere and brought back. The second is behind a write by then.
fn flush<D: Disk>(rt: &impl Abort, disk: &mut D)
    requires { IsLong (D.meaning disk.old).reads 2 }
{
    let mut fresh = disk.flush();
    fresh.run();
    assert_eq!(rt; disk.flushed(fresh), Ok(()));
    let mut stale = disk.flush();
    stale.run();
    assert_eq!(rt; disk.write_at(2, b"XYZ"), Ok(()));
    assert_eq!(rt; disk.flushed(stale), Ok(()));
}

// By a second handle.
fn look<D: Disk>(disk: &D, at: u64) -> Option<[u8; 4]> {
    let peer = disk.peer()?;
    let mut buf = [0; 4];
    peer.look(at, &mut buf).then_some(buf)
}

// A new file gets five bytes.
fn write_parts<R: Eprint + Copy>(rt: &impl Abort, mut disk: FileDisk<R>) {
    assert_eq!(rt; size(&mut disk), Some(0));
    write(rt, &mut disk, 0, b"abc");
    flush(rt, &mut disk);
    assert_eq!(rt; disk.faults(), 0);
    assert_eq!(rt; disk.moment(), 0);
}

// They are there. Past the end there is nothing to read, and that counts where the disk itself is asked.
fn read_parts<R: Eprint + Copy>(rt: &impl Abort, mut disk: FileDisk<R>) {
    assert_eq!(rt; size(&mut disk), Some(5));
    assert_eq!(rt; read(&mut disk, 1), Some(*b"bXYZ"));
    assert_eq!(rt; read(&mut disk, 3), None);
    assert_eq!(rt; look(&disk, 1), Some(*b"bXYZ"));
    assert_eq!(rt; look(&disk, 3), None);
    assert_eq!(rt; disk.faults(), 1);
}

#[test]
fn a_file_keeps_what_was_written(rt: HostRuntime) -> Result<(), Fail> {
    let _ = fs::remove_file(&rt, NAME);
    let mut opener = FileOpener::new(&rt);
    assert!(rt;
        opened::<&HostRuntime, _>(&mut opener, false).is_none(),
        "there is no such file"
    );
    write_parts(&rt, opened(&mut opener, true).ok_or("a new file")?);
    read_parts(&rt, opened(&mut opener, false).ok_or("the file")?);
    fs::remove_file(&rt, NAME)?;
    Ok(())
}
