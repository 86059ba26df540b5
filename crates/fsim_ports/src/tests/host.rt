//! Files of a host that is a fake: which of them is read, from where, and what a refusal tells.
use super::check_load;
use crate::{Files, HostFiles, LoadFault};
use std::alloc::{Allocator, Global};
use std::cell::Cell;
use std::fs::{Metadata, OpenFile, OpenOptions};
use std::io;
use std::io::{ErrorKind, Read, Seek, SeekFrom, Write};
use std::process::Abort;
use std::rc::Rc;
use std::rt::Files as FileSystem;
use std::test::Fail;

/// The files of the host. A pipe can't be sought, and of the torn one no byte behind the fourth can
/// be read.
#[derive(Clone, Copy, PartialEq, Eq)]
enum Kind {
    Program,
    Machine,
    Pipe,
    Torn,
}

/// An open file, which gives at most two bytes at a time.
#[derive(Clone, Copy)]
struct FakeFile {
    kind: Kind,
    place: usize,
}

impl FakeFile {
    fn content(&self) -> &'static [u8] {
        match self.kind {
            Kind::Machine => b"xyz",
            _ => b"abcde",
        }
    }
}

impl Read for FakeFile {
    fn read(&mut self, buf: &mut [u8]) -> io::Result<usize> {
        if self.kind == Kind::Torn && self.place >= 4 {
            return Err(io::Error::from(ErrorKind::Other));
        }
        let rest = self.content().get(self.place..).unwrap_or(&[]);
        let count = rest.len().min(buf.len()).min(2);
        buf[..count].copy_from_slice(&rest[..count]);
        self.place = self.place.saturating_add(count);
        Ok(count)
    }
}

impl Seek for FakeFile {
    fn seek(&mut self, to: SeekFrom) -> io::Result<u64> {
        match to {
            SeekFrom::Start(at) if self.kind != Kind::Pipe => {
                self.place = usize::try_from(at).unwrap_or(usize::MAX);
                Ok(at)
            }
            _ => Err(io::Error::from(ErrorKind::NotSeekable)),
        }
    }
}

impl Write for FakeFile {
    fn write(&mut self, _buf: &[u8]) -> io::Result<usize> {
        Err(unsupported())
    }

    fn flush(&mut self) -> io::Result<()> {
        Ok(())
    }
}

impl OpenFile for FakeFile {
    fn metadata(&self) -> io::Result<Metadata> {
        Err(unsupported())
    }

    fn set_len(&self, _size: u64) -> io::Result<()> {
        Err(unsupported())
    }

    fn sync_all(&self) -> io::Result<()> {
        Ok(())
    }

    fn sync_data(&self) -> io::Result<()> {
        Ok(())
    }
}

/// The answer to a call that no test makes.
fn unsupported() -> io::Error {
    io::Error::from(ErrorKind::Unsupported)
}

/// The files of the host by their names; one may not be read, and no other is there.
fn file_of(name: &str) -> io::Result<FakeFile> {
    let kind = match name {
        "prog" => Kind::Program,
        "prog.toml" => Kind::Machine,
        "pipe" => Kind::Pipe,
        "torn" => Kind::Torn,
        "secret" => return Err(io::Error::from(ErrorKind::PermissionDenied)),
        _ => return Err(io::Error::from(ErrorKind::NotFound)),
    };
    Ok(FakeFile { kind, place: 0 })
}

/// A host that counts how often it opens a file.
#[derive(Drop)]
struct FakeHost {
    opens: Rc<Cell<u32>>,
}

impl FileSystem for FakeHost {
    type File = FakeFile;

    type Dir = FakeFile;

    fn open_file(&self, _how: &OpenOptions, path: &str) -> io::Result<FakeFile> {
        self.opens.set(self.opens.get().saturating_add(1));
        file_of(path)
    }

    fn open_dir(&self, _path: &str) -> io::Result<FakeFile> {
        Err(unsupported())
    }

    fn metadata(&self, _path: &str) -> io::Result<Metadata> {
        Err(unsupported())
    }

    fn symlink_metadata(&self, _path: &str) -> io::Result<Metadata> {
        Err(unsupported())
    }

    fn copy(&self, _from: &str, _to: &str) -> io::Result<u64> {
        Err(unsupported())
    }

    fn rename(&self, _from: &str, _to: &str) -> io::Result<()> {
        Err(unsupported())
    }

    fn remove_file(&self, _path: &str) -> io::Result<()> {
        Err(unsupported())
    }

    fn create_dir(&self, _path: &str) -> io::Result<()> {
        Err(unsupported())
    }

    fn remove_dir(&self, _path: &str) -> io::Result<()> {
        Err(unsupported())
    }

    fn remove_dir_all<B: Allocator>(&self, _alloc: B, _path: &str) -> io::Result<()> {
        Err(unsupported())
    }
}

/// Names in the order in which they are loaded, what comes of it, and how often a file was opened
/// by then. A file that is read again from its front is sought, which a pipe can't be.
fn loads() -> [(&'static str, Result<&'static [u8], LoadFault>, u32); 10] {
    [
        ("prog", Ok(b"abcde"), 1),
        ("prog.toml", Ok(b"xyz"), 2),
        ("prog", Ok(b"abcde"), 3),
        ("prog", Ok(b"abcde"), 3),
        ("pipe", Ok(b"abcde"), 4),
        ("pipe", Err(LoadFault::Failed), 4),
        ("none", Err(LoadFault::Missing), 5),
        ("secret", Err(LoadFault::Failed), 6),
        ("torn", Err(LoadFault::Failed), 7),
        ("prog", Ok(b"abcde"), 8),
    ]
}

/// Loads them from the host's files, and compares.
fn check_opens<F: Files>(rt: &impl Abort, files: &mut F, opens: &Cell<u32>, alloc: Global) {
    for (name, wanted, count) in loads() {
        check_load(rt, files, name, 5, wanted, alloc);
        assert_eq!(rt; opens.get(), count, "{name}");
    }
}

#[test]
fn host_files_are_read_by_name_and_place(rt: HostRuntime) -> Result<(), Fail> {
    let opens = Rc::new(rt.alloc(), Cell::new(0))?;
    let host = FakeHost {
        opens: opens.clone()?,
    };
    let mut files = HostFiles::new(rt.alloc(), host);
    check_opens(&rt, &mut files, &opens, rt.alloc());
    Ok(())
}
