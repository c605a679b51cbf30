// The outside in memory, with chosen faults.
ghost use Rattle.std.specs.Prelude.{◌≡◌, ◌≤◌, ◌<◌, ℕ, List, [], Some, drop, take, length, Contains, string_bytes, map};
ghost use Rattle.vb_io.specs.Files.{named_files, file_of, IsFound};

use crate::{Failed, Folder, LoadErr, Sink, Source};
use std::alloc::Global;

/// A source over bytes in memory. Its k-th call, from 0, fails where k is in `fails`.
#[derive(Drop)]
pub struct MemSource {
    bytes: Vec<u8>,
    at: usize,
    calls: u64,
    fails: Vec<u64>,
    faults: u64,
    ghost within: { at ≤ length bytes.items },
}

impl MemSource {
    ghost use Rattle.vb_io.specs.Memory.{source_left, source_faults, source_call, source_fails};

    /// A source of these bytes, with no call made. It takes no memory.
    pub fn new(bytes: Vec<u8>, fails: Vec<u64>) -> Self
        ensures left { source_left result ≡ Some bytes.items }
        ensures faults { source_faults result ≡ 0 }
        ensures call { source_call result ≡ 0 }
        ensures fails { source_fails result ≡ fails.items }
    {
        MemSource {
            bytes,
            at: 0,
            calls: 0,
            fails,
            faults: 0,
        }
    }

    /// The bytes that are left.
    pub fn bytes(&self) -> &[u8]
        ensures { source_left self.now ≡ Some result.now }
    {
        &self.bytes[self.at..]
    }

    /// How many calls have failed.
    pub fn faults(&self) -> u64
        ensures { result ≡ source_faults self.now }
    {
        self.faults
    }
}

impl Source for MemSource {
    ghost use Rattle.std.specs.Prelude.{◌↔◌, IsErr};
    ghost use Rattle.std.specs.Io.{ReadsAtMost};
    ghost use Rattle.std.specs.Io.KnownBytes.{ReadConsumes};
    ghost use Rattle.vb_io.specs.Causes.{HasCause};
    ghost use Rattle.vb_io.specs.Memory.{source_left, source_faults, source_call, source_fails, next_call};

    ghost left = { source_left };

    ghost faults = { source_faults };

    fn take(&mut self, buf: &mut [u8]) -> Result<usize, Failed>
        requires { 0 < length buf.old }
        ensures bound { ReadsAtMost result buf.new }
        ensures bytes { ReadConsumes (source_left self.old) (source_left self.new) result buf.new }
        ensures cause { HasCause (source_faults self.old) (source_faults self.new) result }
        ensures chosen { IsErr result ↔ Contains (source_fails self.old) (source_call self.old) }
        ensures call { source_call self.new ≡ next_call (source_call self.old) }
        ensures fails { source_fails self.new ≡ source_fails self.old }
    {
        let call = self.calls;
        self.calls = self.calls.saturating_add(1);
        if self.fails.contains(&call) {
            self.faults = self.faults.saturating_add(1);
            return Err(Failed);
        }
        let bytes = self.bytes.as_slice();
        if self.at >= bytes.len() {
            return Ok(0);
        }
        let count = copy_front(&bytes[self.at..], buf);
        self.at += count;
        Ok(count)
    }
}

// Copies what fits.
fn copy_front(from: &[u8], to: &mut [u8]) -> usize
    requires { 0 < length to.old }
    ensures within { (result ≤ length from.now) × (result ≤ length to.new) }
    ensures copied { take result to.new ≡ take result from.now }
    ensures some { result ≡ 0 → from.now ≡ [] }
{
    let count = from.len().min(to.len());
    to[..count].copy_from_slice(&from[..count]);
    count
}

/// A sink that keeps in memory what is written. Its k-th call, from 0, fails where k is in
/// `fails`. A call that finds no memory fails too.
#[derive(Drop)]
pub struct MemSink {
    bytes: Vec<u8>,
    calls: u64,
    fails: Vec<u64>,
    most: usize,
    faults: u64,
    ghost takes_some: { 1 ≤ most },
}

impl MemSink {
    ghost use Rattle.vb_io.specs.Memory.{sink_written, sink_faults, sink_call, sink_fails, sink_most};

    /// A sink with nothing written. It takes at most `most` bytes of a piece at once, which is at
    /// least 1. It takes no memory before its first call.
    pub fn new(alloc: Global, fails: Vec<u64>, most: usize) -> Self
        requires { 1 ≤ most }
        ensures written { sink_written result ≡ Some [] }
        ensures faults { sink_faults result ≡ 0 }
        ensures call { sink_call result ≡ 0 }
        ensures fails { sink_fails result ≡ fails.items }
        ensures most { sink_most result ≡ most }
    {
        MemSink {
            bytes: Vec::new(alloc),
            calls: 0,
            fails,
            most,
            faults: 0,
        }
    }

    /// What was written.
    pub fn bytes(&self) -> &[u8]
        ensures { sink_written self.now ≡ Some result.now }
    {
        self.bytes.as_slice()
    }

    /// How many calls have failed.
    pub fn faults(&self) -> u64
        ensures { result ≡ sink_faults self.now }
    {
        self.faults
    }
}

impl Sink for MemSink {
    ghost use Rattle.std.specs.Prelude.{min, IfOk, IsErr};
    ghost use Rattle.std.specs.Io.KnownBytes.{WriteAppends};
    ghost use Rattle.vb_io.specs.Causes.{HasCause, PutsSome};
    ghost use Rattle.vb_io.specs.Memory.{sink_written, sink_faults, sink_call, sink_fails, sink_most, next_call};

    ghost written = { sink_written };

    ghost faults = { sink_faults };

    fn put(&mut self, piece: &[u8]) -> Result<usize, Failed>
        requires { 0 < length piece.now }
        ensures bound { PutsSome result piece.now }
        ensures bytes { WriteAppends (sink_written self.old) (sink_written self.new) result piece.now }
        ensures cause { HasCause (sink_faults self.old) (sink_faults self.new) result }
        ensures chosen { Contains (sink_fails self.old) (sink_call self.old) → IsErr result }
        ensures count { IfOk result (λ n. n ≡ min (length piece.now) (sink_most self.old)) }
        ensures call { sink_call self.new ≡ next_call (sink_call self.old) }
        ensures fails { sink_fails self.new ≡ sink_fails self.old }
        ensures most { sink_most self.new ≡ sink_most self.old }
    {
        let call = self.calls;
        self.calls = self.calls.saturating_add(1);
        if self.fails.contains(&call) {
            self.faults = self.faults.saturating_add(1);
            return Err(Failed);
        }
        let count = piece.len().min(self.most);
        match self.bytes.extend_from_slice(&piece[..count]) {
            Ok(()) => Ok(count),
            Err(_) => {
                self.faults = self.faults.saturating_add(1);
                Err(Failed)
            }
        }
    }
}

/// A folder of files in memory. Of two files of one name it holds the first.
///
/// Its k-th call, from 0, fails where k is in `fails`. A load counts as a call only where its file
/// is there and not too long.
#[derive(Drop)]
pub struct MemFolder {
    files: Vec<(String, Vec<u8>)>,
    calls: u64,
    fails: Vec<u64>,
    faults: u64,
}

impl MemFolder {
    ghost use Rattle.vb_io.specs.Memory.{folder_holds, folder_faults, folder_call, folder_fails};

    /// A folder of these files, by name, with no call made. It takes no memory.
    pub fn new(files: Vec<(String, Vec<u8>)>, fails: Vec<u64>) -> Self
        ensures holds { folder_holds result ≡ Some (named_files files.items) }
        ensures faults { folder_faults result ≡ 0 }
        ensures call { folder_call result ≡ 0 }
        ensures fails { folder_fails result ≡ fails.items }
    {
        MemFolder {
            files,
            calls: 0,
            fails,
            faults: 0,
        }
    }

    /// How many calls have failed.
    pub fn faults(&self) -> u64
        ensures { result ≡ folder_faults self.now }
    {
        self.faults
    }
}

impl Folder for MemFolder {
    ghost use Rattle.std.specs.Prelude.{◌⊎◌, IsErr, IsErrOf};
    ghost use Rattle.vb_io.specs.Files.{Loads};
    ghost use Rattle.vb_io.specs.Memory.{folder_holds, folder_faults, folder_call, folder_fails, next_call};

    ghost holds = { folder_holds };

    ghost faults = { folder_faults };

    fn load(&mut self, name: &str, max: u64, into: &mut Vec<u8>) -> Result<(), LoadErr>
        ensures loads { Loads (folder_holds self.old) name.now max (folder_faults self.old) (folder_faults self.new) result into.old.items into.new.items }
        ensures same { folder_holds self.new ≡ folder_holds self.old }
        ensures chosen { IsErrOf result LoadErr.Failed → Contains (folder_fails self.old) (folder_call self.old) }
        ensures fails_then { Contains (folder_fails self.old) (folder_call self.old) → IsErr result × ¬ (IsErrOf result LoadErr.Memory) }
        ensures no_call { IsErrOf result LoadErr.Missing ⊎ IsErrOf result LoadErr.TooLong → folder_call self.new ≡ folder_call self.old }
        ensures call { ¬ (IsErrOf result LoadErr.Missing) → ¬ (IsErrOf result LoadErr.TooLong) → folder_call self.new ≡ next_call (folder_call self.old) }
        ensures fails { folder_fails self.new ≡ folder_fails self.old }
    {
        let Some(bytes) = find(&self.files, name) else {
            return Err(LoadErr::Missing);
        };
        if bytes.len() as u64 > max {
            return Err(LoadErr::TooLong);
        }
        let call = self.calls;
        self.calls = self.calls.saturating_add(1);
        if self.fails.contains(&call) {
            self.faults = self.faults.saturating_add(1);
            return Err(LoadErr::Failed);
        }
        match into.extend_from_slice(bytes) {
            Ok(()) => Ok(()),
            Err(_) => Err(LoadErr::Memory),
        }
    }
}

// The bytes of the first file of that name.
fn find<'a>(files: &'a [(String, Vec<u8>)], name: &str) -> Option<&'a [u8]>
    ensures { IsFound result (file_of (named_files files.now) name.now) }
{
    for (known, bytes) in files {
        if known.as_str() == name {
            return Some(bytes.as_slice());
        }
    }
    None
}
