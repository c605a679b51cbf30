// The outside itself: a few lines over std.
ghost use Rattle.std.specs.Prelude.{◌≡◌, ◌≤◌, ◌++◌, ℕ, List, None, OnOk, length};
ghost use Rattle.std.specs.Io.KnownBytes.{Consumes, IsAtEnd};
ghost use Rattle.vb_io.specs.Causes.{Rose};

use crate::{Failed, Folder, Gate, LoadErr, Sink, Source};
use std::fs;
use std::io::{ErrorKind, Read, Write};
use std::rt::Files;

/// A reader of std as a source. Each error of the reader is a fault.
#[derive(Drop)]
pub struct ReadSource<R: Read + Drop> {
    /// The reader.
    pub inner: R,
    /// How many reads have failed: 0 at the start.
    pub faults: u64,
}

impl<R: Read + Drop> Source for ReadSource<R> {
    ghost left = { λ s. R.remaining s.inner };

    ghost faults = { λ s. s.faults };

    fn take(&mut self, buf: &mut [u8]) -> Result<usize, Failed> {
        match self.inner.read(buf) {
            Ok(count) => Ok(count),
            Err(_) => {
                self.faults = self.faults.saturating_add(1);
                Err(Failed)
            }
        }
    }
}

/// A writer of std as a sink. Each error of the writer is a fault, and so is a write that takes
/// nothing.
#[derive(Drop)]
pub struct WriteSink<W: Write + Drop> {
    /// The writer.
    pub inner: W,
    /// How many writes have failed: 0 at the start.
    pub faults: u64,
}

impl<W: Write + Drop> Sink for WriteSink<W> {
    ghost written = { λ s. W.contents s.inner };

    ghost faults = { λ s. s.faults };

    fn put(&mut self, piece: &[u8]) -> Result<usize, Failed> {
        match self.inner.write(piece) {
            Ok(count) if count > 0 => Ok(count),
            _ => {
                self.faults = self.faults.saturating_add(1);
                Err(Failed)
            }
        }
    }
}

/// The files that names reach from the folder in which the program runs: a name is a path.
///
/// A path with no file is `Missing`. A file that cannot be opened or read for another reason, and
/// a name that cannot be a path, is `Failed`.
pub struct DirFolder<'a, R: Files> {
    /// The runtime that opens files.
    pub rt: &'a R,
    /// How many loads have failed: 0 at the start.
    pub faults: u64,
}

impl<R: Files> Drop for DirFolder<'_, R> {
    fn drop(self) {
        let DirFolder { rt: _, faults: _ } = self;
    }
}

impl<R: Files> DirFolder<'_, R> {
    // Counts a fault.
    fn fail(&mut self) -> LoadErr
        ensures cause { Rose self.old.faults self.new.faults × (self.old.faults ≤ self.new.faults) }
        ensures failed { result ≡ LoadErr.Failed }
    {
        self.faults = self.faults.saturating_add(1);
        LoadErr::Failed
    }
}

impl<R: Files> Folder for DirFolder<'_, R> {
    ghost holds = { λ _. None };

    ghost faults = { λ s. s.faults };

    fn load(&mut self, name: &str, max: u64, into: &mut Vec<u8>) -> Result<(), LoadErr> {
        let mut file = match fs::open(self.rt, name) {
            Ok(file) => file,
            Err(e) if e.kind() == ErrorKind::NotFound => return Err(LoadErr::Missing),
            Err(_) => return Err(self.fail()),
        };
        let start = into.len();
        match read_most(&mut file, max, into) {
            Ok(()) => Ok(()),
            Err(reason) => {
                into.truncate(start);
                match reason {
                    LoadErr::TooLong => Err(LoadErr::TooLong),
                    LoadErr::Memory => Err(LoadErr::Memory),
                    _ => Err(self.fail()),
                }
            }
        }
    }
}

// Appends all that a file has, up to a number of bytes.
fn read_most<F: Read>(file: &mut F, most: u64, into: &mut Vec<u8>) -> Result<(), LoadErr>
    ensures { (bytes : List ℕ) × (into.new.items ≡ into.old.items ++ bytes) × OnOk result ((length bytes ≤ most) × Consumes (F.remaining file.old) (F.remaining file.new) bytes × IsAtEnd (F.remaining file.new)) }
{
    let mut left = most;
    let mut buf = [0u8; 4096];
    for _ in 0..u64::MAX {
        let count = match file.read(&mut buf) {
            Ok(count) => count,
            Err(_) => return Err(LoadErr::Failed),
        };
        if count == 0 {
            return Ok(());
        }
        if count as u64 > left {
            return Err(LoadErr::TooLong);
        }
        left -= count as u64;
        if into.extend_from_slice(&buf[..count]).is_err() {
            return Err(LoadErr::Memory);
        }
    }
    Err(LoadErr::Failed)
}

/// The gate that is always open. Passing it does nothing.
#[derive(Clone, Copy)]
pub struct OpenGate;

impl Gate for OpenGate {
    fn pass(&self, worker: u32, segment: u64) {
        let _ = (worker, segment);
    }
}
