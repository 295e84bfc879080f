// A runtime for tests: real files, which may take only a first part of their bytes, and a standard output that is full at first.
use outside_io::{Lockable, Sharing};
use std::alloc::{Allocator, Global};
use std::cell::Cell;
use std::fmt::Display;
use std::fs::{Files, Metadata, OpenFile, OpenOptions};
use std::io::{Error, ErrorKind, Read, Result, Seek, SeekFrom, Write};
use std::os::unix::fs::FileExt;
use std::rt::Clock;
use std::time::Duration;

// The standard output's file is the file `screen`. Writing there is interrupted once, and then the output is full twice.
#[derive(Drop)]
pub(crate) struct Outside<'a> {
    rt: &'a HostRuntime,
    screen: &'a str,
    room: u64,
    calls: Cell<u32>,
    waits: Cell<u32>,
}

impl<'a> Outside<'a> {
    pub(crate) fn new(rt: &'a HostRuntime, screen: &'a str) -> Self {
        Outside {
            rt,
            screen,
            room: u64::MAX,
            calls: Cell::new(0),
            waits: Cell::new(0),
        }
    }

    // Its files take no byte past the first `room` bytes.
    pub(crate) fn with_room(rt: &'a HostRuntime, room: u64) -> Self {
        Outside {
            rt,
            screen: "/dev/null",
            room,
            calls: Cell::new(0),
            waits: Cell::new(0),
        }
    }

    // How often the host waited for a millisecond.
    pub(crate) fn waits(&self) -> u32 {
        self.waits.get()
    }
}

impl<'a> Print for Outside<'a> {
    fn print<D: Display + Drop>(&self, _value: D) -> Result<()> {
        Err(Error::from(ErrorKind::Unsupported))
    }

    fn println<D: Display + Drop>(&self, _value: D) -> Result<()> {
        Err(Error::from(ErrorKind::Unsupported))
    }

    fn write_all(&self, _bytes: &[u8]) -> Result<()> {
        Err(Error::from(ErrorKind::Unsupported))
    }

    fn write_some(&self, bytes: &[u8]) -> Result<usize> {
        let call = self.calls.get();
        self.calls.set(call.saturating_add(1));
        match call {
            0 => Err(Error::from(ErrorKind::Interrupted)),
            1 | 2 => Err(Error::from(ErrorKind::WouldBlock)),
            _ => Ok(bytes.len()),
        }
    }
}

impl<'a> Clock for Outside<'a> {
    fn monotonic(&self) -> Result<Duration> {
        self.rt.monotonic()
    }

    fn since_1970(&self) -> Result<Duration> {
        self.rt.since_1970()
    }

    fn sleep(&self, duration: Duration) {
        if duration == Duration::from_millis(1) {
            self.waits.set(self.waits.get().saturating_add(1));
        }
    }
}

impl<'a> Alloc for Outside<'a> {
    type A = Global;

    fn alloc(&self) -> Global {
        self.rt.alloc()
    }
}

impl<'a> Files for Outside<'a> {
    type File = RoomyFile;

    type Dir = <HostRuntime as Files>::Dir;

    fn open_file(&self, how: &OpenOptions, path: &str) -> Result<Self::File> {
        Ok(RoomyFile {
            file: self.rt.open_file(how, path)?,
            room: self.room,
        })
    }

    fn open_dir(&self, path: &str) -> Result<Self::Dir> {
        self.rt.open_dir(path)
    }

    fn metadata(&self, path: &str) -> Result<Metadata> {
        if path == "/dev/stdout" {
            self.rt.metadata(self.screen)
        } else {
            self.rt.metadata(path)
        }
    }

    fn symlink_metadata(&self, path: &str) -> Result<Metadata> {
        self.rt.symlink_metadata(path)
    }

    fn copy(&self, from: &str, to: &str) -> Result<u64> {
        self.rt.copy(from, to)
    }

    fn rename(&self, from: &str, to: &str) -> Result<()> {
        self.rt.rename(from, to)
    }

    fn remove_file(&self, path: &str) -> Result<()> {
        self.rt.remove_file(path)
    }

    fn create_dir(&self, path: &str) -> Result<()> {
        self.rt.create_dir(path)
    }

    fn remove_dir(&self, path: &str) -> Result<()> {
        self.rt.remove_dir(path)
    }

    fn remove_dir_all<B: Allocator>(&self, alloc: B, path: &str) -> Result<()> {
        self.rt.remove_dir_all(alloc, path)
    }
}

// A real file, which takes no byte past its room.
#[derive(Drop)]
pub(crate) struct RoomyFile {
    file: <HostRuntime as Files>::File,
    room: u64,
}

impl Read for RoomyFile {
    fn read(&mut self, buf: &mut [u8]) -> Result<usize> {
        self.file.read(buf)
    }
}

impl Write for RoomyFile {
    fn write(&mut self, piece: &[u8]) -> Result<usize> {
        let at = self.file.seek(SeekFrom::Current(0))?;
        let left = self.room.saturating_sub(at);
        let n = left.min(piece.len() as u64) as usize;
        self.file.write(&piece[..n])
    }

    fn flush(&mut self) -> Result<()> {
        self.file.flush()
    }
}

impl Seek for RoomyFile {
    fn seek(&mut self, to: SeekFrom) -> Result<u64> {
        self.file.seek(to)
    }
}

impl FileExt for RoomyFile {
    fn read_at(&self, buf: &mut [u8], from: u64) -> Result<usize> {
        self.file.read_at(buf, from)
    }

    fn write_at(&self, piece: &[u8], from: u64) -> Result<usize> {
        let left = self.room.saturating_sub(from);
        let n = left.min(piece.len() as u64) as usize;
        self.file.write_at(&piece[..n], from)
    }
}

impl Lockable for RoomyFile {
    fn hold(&self, sharing: Sharing) -> bool {
        self.file.hold(sharing)
    }
}

impl OpenFile for RoomyFile {
    fn metadata(&self) -> Result<Metadata> {
        self.file.metadata()
    }

    fn set_len(&self, size: u64) -> Result<()> {
        self.file.set_len(size)
    }

    fn sync_all(&self) -> Result<()> {
        self.file.sync_all()
    }

    fn sync_data(&self) -> Result<()> {
        self.file.sync_data()
    }
}
