//! The world outside a program, as four traits: a source of bytes, a sink for bytes, a folder of
//! files and a gate. There is one implementation in memory, with chosen faults, and one over std.
//!
//! A source, a sink and a folder have a count of faults that never falls, and one answers `Failed`
//! only where its count rose. At 18,446,744,073,709,551,615, which no run reaches, the count
//! stays, and `Failed` may come.
//!
//! Proved: the objects in memory and the adapters meet the traits; faults only where the count rose.
//!
//! Only tested: that the adapters pass the bytes of real files and streams on.
//!
//! Assumed: what the system does with files and streams.
#![tactic(auto)]

ghost use Rattle.std.specs.Prelude.{◌≡◌, ◌<◌, ℕ, List, Option, length};
ghost use Rattle.std.specs.Io.{ReadsAtMost};
ghost use Rattle.std.specs.Io.KnownBytes.{ReadConsumes, WriteAppends};
ghost use Rattle.vb_io.specs.Causes.{HasCause, PutsSome};
ghost use Rattle.vb_io.specs.Files.{Files, Loads};

mod memory;
mod real;
mod writing;

pub use memory::{MemFolder, MemSink, MemSource};
pub use real::{DirFolder, OpenGate, ReadSource, WriteSink};
pub use writing::{write_all, write_both};

/// A source or a sink failed: nothing was taken or put, and its count of faults rose.
#[derive(Clone, Copy, Debug, PartialEq, Eq)]
pub struct Failed;

/// Why a file could not be loaded.
#[derive(Clone, Copy, Debug, PartialEq, Eq)]
pub enum LoadErr {
    /// The folder has no file of that name.
    Missing,
    /// The file has more bytes than the call allows.
    TooLong,
    /// The folder failed, and its count of faults rose.
    Failed,
    /// There is no memory for the file's bytes.
    Memory,
}

/// A stream of bytes that is read.
pub trait Source: Drop {
    /// The bytes that are left, where it tells them.
    ghost left: { Self → Option (List ℕ) };

    /// How often it has failed.
    ghost faults: { Self → ℕ };

    /// Takes the next bytes into the front of a buffer that is not empty, and answers how many.
    ///
    /// It answers 0 exactly at the end. At `Failed` the bytes that are left are as before.
    fn take(&mut self, buf: &mut [u8]) -> Result<usize, Failed>
        requires { 0 < length buf.old }
        ensures bound { ReadsAtMost result buf.new }
        ensures bytes { ReadConsumes (left self.old) (left self.new) result buf.new }
        ensures cause { HasCause (faults self.old) (faults self.new) result };
}

/// A stream of bytes that is written.
pub trait Sink: Drop {
    /// The bytes that were written, where it tells them.
    ghost written: { Self → Option (List ℕ) };

    /// How often it has failed.
    ghost faults: { Self → ℕ };

    /// Puts the first bytes of a piece that is not empty, and answers how many: at least one.
    ///
    /// At `Failed` nothing was put.
    fn put(&mut self, piece: &[u8]) -> Result<usize, Failed>
        requires { 0 < length piece.now }
        ensures bound { PutsSome result piece.now }
        ensures bytes { WriteAppends (written self.old) (written self.new) result piece.now }
        ensures cause { HasCause (faults self.old) (faults self.new) result };
}

/// Files by name.
pub trait Folder {
    /// The names with the bytes of their files, where it tells them.
    ghost holds: { Self → Option Files };

    /// How often it has failed.
    ghost faults: { Self → ℕ };

    /// Appends the bytes of a file of at most `max` bytes.
    ///
    /// `Missing` comes exactly where the name is not there, and `TooLong` exactly where the file
    /// has more than `max` bytes. After each error `into` holds what it held. No load changes what
    /// the folder holds.
    fn load(&mut self, name: &str, max: u64, into: &mut Vec<u8>) -> Result<(), LoadErr>
        ensures loads { Loads (holds self.old) name.now max (faults self.old) (faults self.new) result into.old.items into.new.items }
        ensures same { holds self.new ≡ holds self.old };
}

/// What a worker passes before each segment of its own code. A test may use it to choose which
/// worker goes on.
pub trait Gate: Sync {
    /// Lets the worker of that number begin its segment of that number. Both count from 0.
    fn pass(&self, worker: u32, segment: u64);
}

#[cfg(test)]
mod tests;
