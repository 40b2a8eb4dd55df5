//! A source and a sink in memory, whose calls fail as they were made to.
ghost use Rattle.std.specs.Prelude.{◌≡◌, ◌<◌, ◌≤◌, [], Some, drop};
ghost use Rattle.zen_disk.specs.Faults.{Rose};

use crate::{Failed, Sink, Source};
use std::alloc::Global;

fn count_fault(faults: &mut u64) -> Failed
    ensures later { faults.old ≤ faults.new }
    ensures rose { Rose faults.old faults.new }
{
    *faults = faults.saturating_add(1);
    Failed
}

/// A source in memory. A read fails exactly where its number is in the list that the source was made with.
#[derive(Drop)]
pub struct MemSource {
    bytes: Vec<u8>,
    at: usize,
    fails: Vec<u64>,
    calls: u64,
    faults: u64,
}

impl MemSource {
    /// A source of these bytes. The reads fail whose numbers are listed, the first being 1.
    pub fn new(bytes: Vec<u8>, fails: Vec<u64>) -> MemSource
        ensures left { ⟦<MemSource as Source>⟧.left result ≡ Some bytes.items }
        ensures faults { ⟦<MemSource as Source>⟧.faults result ≡ 0 }
        ensures calls { result.calls ≡ 0 }
        ensures fails { result.fails ≡ fails }
    {
        MemSource {
            bytes,
            at: 0,
            fails,
            calls: 0,
            faults: 0,
        }
    }
}

impl Source for MemSource {
    ghost use Rattle.zen_link.specs.MemStream.{MemReads};

    ghost left = { λ source. Some (drop source.at source.bytes.items) };

    ghost faults = { λ source. source.faults };

    ghost moves = { MemReads };

    fn read(&mut self, into: &mut [u8]) -> Result<usize, Failed> {
        self.calls = self.calls.saturating_add(1);
        if self.fails.contains(&self.calls) {
            return Err(count_fault(&mut self.faults));
        }
        let Some(rest) = self.bytes.get(self.at..) else {
            return Ok(0);
        };
        let count = rest.len().min(into.len());
        into[..count].copy_from_slice(&rest[..count]);
        self.at += count;
        Ok(count)
    }
}

/// A sink in memory, which takes at most so many bytes in a write. A write fails where its number is in the list that the
/// sink was made with, and also where its bytes need more room than there is and find no memory.
#[derive(Drop)]
pub struct MemSink {
    bytes: Vec<u8>,
    most: usize,
    fails: Vec<u64>,
    calls: u64,
    faults: u64,
    ghost takes: { 0 < most },
}

impl MemSink {
    /// An empty sink. The writes fail whose numbers are listed, the first being 1.
    pub fn new(alloc: Global, most: usize, fails: Vec<u64>) -> MemSink
        requires { 0 < most }
        ensures written { ⟦<MemSink as Sink>⟧.written result ≡ Some [] }
        ensures faults { ⟦<MemSink as Sink>⟧.faults result ≡ 0 }
        ensures calls { result.calls ≡ 0 }
        ensures fails { result.fails ≡ fails }
        ensures most { result.most ≡ most }
    {
        MemSink {
            bytes: Vec::new(alloc),
            most,
            fails,
            calls: 0,
            faults: 0,
        }
    }

    /// The bytes that were written.
    pub fn as_bytes(&self) -> &[u8]
        ensures { ⟦<MemSink as Sink>⟧.written self.now ≡ Some result.now }
    {
        self.bytes.as_slice()
    }
}

impl Sink for MemSink {
    ghost use Rattle.zen_link.specs.MemStream.{MemWrites};

    ghost written = { λ sink. Some sink.bytes.items };

    ghost faults = { λ sink. sink.faults };

    ghost moves = { MemWrites };

    fn write(&mut self, bytes: &[u8]) -> Result<usize, Failed> {
        self.calls = self.calls.saturating_add(1);
        if self.fails.contains(&self.calls) {
            return Err(count_fault(&mut self.faults));
        }
        let count = bytes.len().min(self.most);
        let Ok(()) = self.bytes.extend_from_slice(&bytes[..count]) else {
            return Err(count_fault(&mut self.faults));
        };
        Ok(count)
    }
}
