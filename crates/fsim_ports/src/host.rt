ghost use Rattle.std.specs.Prelude.{◌≡◌, ◌≢◌, ℕ, ◌+◌, ◌-◌, ◌^◌, ◌≤◌, min, None, Some, IsOk, IfOk};
ghost use Rattle.std.specs.Prelude.{OnOk, IfSome, string_bytes};
ghost use Rattle.std.specs.Io.{ReadsAtMost};
ghost use Rattle.std.specs.IoError.{error_kind};
ghost use Rattle.fsim_ports.specs.Count.{HasRisen};
ghost use Rattle.fsim_ports.specs.Host.{part_of_kind, progress_of};

use crate::outside::{Failed, Files, Part, Sink};
use std::alloc::Global;
use std::fs::File;
use std::io;
use std::io::{ErrorKind, Read, Seek, SeekFrom};
use std::marker::Model;
use std::rt::Files as FileSystem;

/// The files of the host, read by their paths. Nothing is told of them; a contract sees the count
/// of faults alone.
///
/// The last file that was read stays open, so that a file that is read in order is opened once and
/// needs no seek.
#[derive(Drop)]
pub struct HostFiles<R: FileSystem> {
    alloc: Global,
    host: R,
    last: Option<OpenFile<R::File>>,
    faults: u64,
}

impl<R: FileSystem> Model for HostFiles<R> {
    ghost Value = { ℕ };

    ghost view = { λ h. h.faults };
}

/// An open file, its name, and the place of the next byte to be read.
#[derive(Drop)]
struct OpenFile<F> {
    name: String,
    file: F,
    place: u64,
}

impl<F: Read + Seek> OpenFile<F> {
    /// Goes to the place `at`. A file that stands there already isn't sought, since a pipe can't be.
    fn go_to(&mut self, at: u64) -> io::Result<()>
        ensures there { self.old.place ≡ at → IsOk result × (self.new ≡ self.old) }
        ensures place { OnOk result (self.new.place ≡ at) }
        ensures moved { self.old.place ≢ at → IfSome (F.stream_position self.old.file)
            (λ _. OnOk result (F.stream_position self.new.file ≡ Some at)) }
    {
        if self.place != at {
            self.file.seek(SeekFrom::Start(at))?;
            self.place = at;
        }
        Ok(())
    }

    /// Reads bytes from the place `at` on, and answers how many; none at the end of the file.
    fn read(&mut self, at: u64, buf: &mut [u8]) -> io::Result<usize>
        ensures bound { ReadsAtMost result buf.new }
        ensures place { IfOk result (λ count. self.new.place ≡ min (at + count) (2 ^ 64 - 1)) }
    {
        self.go_to(at)?;
        let count = self.file.read(buf)?;
        self.place = self.place.saturating_add(count as u64);
        Ok(count)
    }
}

impl<R: FileSystem + Drop> HostFiles<R> {
    /// The files that the runtime reaches.
    pub fn new(alloc: Global, host: R) -> HostFiles<R>
        ensures none { result ≡ 0 }
    {
        HostFiles {
            alloc,
            host,
            last: None,
            faults: 0,
        }
    }

    /// The file of this name: the last one where it has the name, else it is opened.
    fn open(&mut self, name: &str) -> io::Result<OpenFile<R::File>>
        ensures same { self.new ≡ self.old }
        ensures named { IfOk result (λ file. string_bytes file.name ≡ name.now) }
    {
        if let Some(last) = self.last.take() {
            if last.name.as_str() == name {
                return Ok(last);
            }
        }
        Ok(OpenFile {
            name: String::from_str(self.alloc, name)?,
            file: File::open(&self.host, name)?,
            place: 0,
        })
    }

    /// Counts a fault, and gives the answer to a read.
    fn fault(&mut self, part: Part) -> Part
        ensures same { result ≡ part }
        ensures count { HasRisen self.old self.new }
        ensures kept { self.old ≤ self.new }
    {
        self.faults = self.faults.saturating_add(1);
        part
    }
}

impl<R: FileSystem + Drop> Files for HostFiles<R> {
    ghost told = { λ faults. None };

    ghost faults = { λ faults. faults };

    fn read(&mut self, name: &str, at: u64, buf: &mut [u8]) -> Part {
        let mut open = match self.open(name) {
            Ok(open) => open,
            Err(error) => return self.fault(part_of_error(&error)),
        };
        match open.read(at, buf) {
            Ok(count) => {
                self.last = Some(open);
                if count == 0 {
                    Part::End
                } else {
                    Part::Bytes(count)
                }
            }
            Err(_) => self.fault(Part::Failed),
        }
    }
}

/// What a refusal to open a file says of it.
fn part_of_error(error: &io::Error) -> Part
    ensures part { result ≡ part_of_kind (error_kind error.now) }
{
    match error.kind() {
        ErrorKind::NotFound => Part::Missing,
        _ => Part::Failed,
    }
}

/// The standard output of the host. Nothing is told of it; a contract sees the count of faults
/// alone.
#[derive(Drop)]
pub struct HostSink<R: Print> {
    host: R,
    faults: u64,
}

impl<R: Print> Model for HostSink<R> {
    ghost Value = { ℕ };

    ghost view = { λ h. h.faults };
}

impl<R: Print + Drop> HostSink<R> {
    /// The standard output that the runtime reaches.
    pub fn new(host: R) -> HostSink<R>
        ensures none { result ≡ 0 }
    {
        HostSink { host, faults: 0 }
    }
}

impl<R: Print + Drop> Sink for HostSink<R> {
    ghost written = { λ faults. None };

    ghost faults = { λ faults. faults };

    fn put(&mut self, bytes: &[u8]) -> Result<usize, Failed> {
        match progress(self.host.write_some(bytes), bytes.len()) {
            Some(count) => Ok(count),
            None => {
                self.faults = self.faults.saturating_add(1);
                Err(Failed)
            }
        }
    }
}

/// How many bytes of a piece of this size the host wrote. None where it failed, and where it wrote
/// none of a piece that has some.
fn progress(wrote: io::Result<usize>, size: usize) -> Option<usize>
    ensures count { result ≡ progress_of wrote size }
{
    match wrote {
        Ok(count) if count > 0 || size == 0 => Some(count),
        _ => None,
    }
}
