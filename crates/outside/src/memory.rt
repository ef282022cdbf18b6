//! Files and a sink in memory, which fail at the calls whose numbers are listed.

ghost use Rattle.std.specs.Prelude.{◌≡◌, ◌≢◌, ◌≤◌, ◌<◌, ◌+◌, ◌++◌, ◌∷◌, IfOk, OnOk, OnErr, IsErrOf, Some, [], length, take};
ghost use Rattle.outside.specs.Causes.{Rose};
ghost use Rattle.outside.specs.Grown.{Grew};
ghost use Rattle.outside.specs.Held.{held_bytes, IsTaken};
ghost use Rattle.outside.specs.Memory.{fresh_files, failed_at, bytes_or_long, read_answer, Reads, files_after, fresh_sink, write_answer, sink_after};
ghost use Rattle.outside.specs.SeenPairs.{seen_pairs};

use crate::calls::count_call;
use crate::files::{FileAnswer, Files};
use crate::given::Given;
use crate::notes::Notes;
use crate::sink::{Failed, Sink};
use size_core::NoMemory;
use std::alloc::Global;
use std::marker::Model;

/// A sink with a fixed capacity in bytes. It takes at most a given number of bytes in a call, and fails at
/// the calls whose numbers are listed. Calls are counted from 1.
#[derive(Drop)]
pub struct MemSink {
    bytes: Vec<u8>,
    room: usize,
    most: usize,
    failing: Vec<u64>,
    calls: u64,
    faults: u64,
}

impl Model for MemSink {
    ghost use Rattle.std.specs.Prelude.{◌≤◌, ◌<◌, vec_len, vec_capacity};
    ghost use Rattle.outside.specs.Memory.{SinkInMemory};

    ghost Value = { SinkInMemory };

    ghost view = { λ s.
        record {
          written = s.bytes.items;
          room = s.room;
          most = s.most;
          failing = s.failing.items;
          calls = s.calls;
          faults = s.faults;
        } };

    ghost invariant = { λ s. (vec_len s.bytes ≤ s.room)
        × (s.room ≤ vec_capacity s.bytes)
        × (0 < s.most) };
}

impl MemSink {
    /// Returns a sink that can hold `room` bytes, which are allocated here. A call takes at most `take`
    /// bytes, or 1 if `take` is 0.
    pub fn new(
        alloc: Global,
        room: usize,
        take: usize,
        failing: Vec<u64>,
    ) -> Result<MemSink, NoMemory>
        ensures { IfOk result (λ s. s ≡ fresh_sink room take failing.items) }
    {
        let bytes = Vec::with_capacity(alloc, room)?;
        Ok(MemSink {
            bytes,
            room,
            most: take.max(1),
            failing,
            calls: 0,
            faults: 0,
        })
    }

    /// Returns the bytes that were written.
    pub fn written(&self) -> &[u8]
        ensures { result.now ≡ self.now.written }
    {
        &self.bytes
    }
}

impl Sink for MemSink {
    ghost written = { λ s. Some s.written };

    ghost faults = { λ s. s.faults };

    /// Fails exactly if the call is listed as failing or the sink is full. Otherwise it takes the
    /// smallest of the piece's length, the most of a call, and the free capacity. It allocates no memory.
    fn write(&mut self, piece: &[u8]) -> Result<usize, Failed>
        requires { 0 < length piece.now }
        ensures some { IfOk result (λ n. 0 < n) }
        ensures bound { IfOk result (λ n. n ≤ length piece.now) }
        ensures bytes { IfOk result (λ n.
            Grew (Some self.old.written) (Some self.new.written) (take n piece.now)) }
        ensures kept { OnErr result (Some self.new.written ≡ Some self.old.written) }
        ensures later { self.old.faults ≤ self.new.faults }
        ensures uncounted { OnOk result (self.new.faults ≡ self.old.faults) }
        ensures failed { OnErr result (Rose self.old.faults self.new.faults) }

        ensures answer { result ≡ write_answer self.old (length piece.now) }
        ensures after { self.new ≡ sink_after self.old piece.now result }
    {
        let fails = count_call(&mut self.calls, &self.failing);
        let left = self.room - self.bytes.len();
        if fails || left == 0 {
            self.faults = self.faults.saturating_add(1);
            return Err(Failed);
        }
        let count = piece.len().min(self.most).min(left);
        self.bytes.extend_from_slice(&piece[..count]).unwrap();
        Ok(count)
    }
}

// Returns the bytes of the first pair with this name, and no bytes if there is no such pair.
fn find<'a>(pairs: &'a [(String, Vec<u8>)], name: &str) -> &'a [u8]
    ensures { result.now ≡ held_bytes (seen_pairs pairs.now) name.now }
{
    let mut left = pairs;
    while let [pair, rest @ ..] = left {
        if pair.0.as_str() == name {
            return pair.1.as_slice();
        }
        left = rest;
    }
    &[]
}

/// Files in memory, which fail at the reads whose numbers are listed. Reads are counted from 1.
#[derive(Drop)]
pub struct MemFiles {
    pairs: Vec<(String, Vec<u8>)>,
    failing: Vec<u64>,
    calls: u64,
    faults: u64,
    last_failed: Option<String>,
    asked: Notes,
    gave: Given,
}

impl Model for MemFiles {
    ghost use Rattle.outside.specs.Memory.{FilesInMemory, name_of_failed};
    ghost use Rattle.outside.specs.SeenPairs.{seen_pairs};

    ghost Value = { FilesInMemory };

    ghost view = { λ f.
        record {
          pairs = seen_pairs f.pairs.items;
          failing = f.failing.items;
          calls = f.calls;
          faults = f.faults;
          last_failed = name_of_failed f.last_failed;
          asked = f.asked.items;
          gave = f.gave;
        } };
}

impl MemFiles {
    /// Returns files with these names and bytes. The reads whose numbers are in `failing` fail.
    pub fn new(pairs: Vec<(String, Vec<u8>)>, failing: Vec<u64>) -> MemFiles
        ensures { result ≡ fresh_files (seen_pairs pairs.items) failing.items }
    {
        MemFiles {
            pairs,
            failing,
            calls: 0,
            faults: 0,
            last_failed: None,
            asked: Notes::new(),
            gave: Given::new(),
        }
    }

    // Makes the read of this name fail, and returns its answer.
    fn fail(&mut self, alloc: Global, name: &str) -> FileAnswer
        ensures no_other { result ≢ FileAnswer.TooLong }
        ensures failed { (result ≡ FileAnswer.Failed) → self.new ≡ failed_at self.old name.now }
        ensures memory { (result ≡ FileAnswer.NoMemory) → self.new ≡ self.old }
        ensures later { self.old.faults ≤ self.new.faults }
    {
        match String::from_str(alloc, name) {
            Err(_) => FileAnswer::NoMemory,
            Ok(copy) => {
                self.last_failed = Some(copy);
                self.faults = self.faults.saturating_add(1);
                FileAnswer::Failed
            }
        }
    }
}

// Returns a copy of bytes that are no longer than the limit.
fn copy_of(alloc: Global, bytes: &[u8], limit: u64) -> Result<Vec<u8>, FileAnswer>
    ensures { Reads result (bytes_or_long bytes.now limit) }
{
    if bytes.len() as u64 > limit {
        return Err(FileAnswer::TooLong);
    }
    Ok(bytes.to_vec(alloc)?)
}

impl Files for MemFiles {
    ghost held = { λ f. Some f.pairs };

    ghost faults = { λ f. f.faults };

    ghost last_failed = { λ f. Some f.last_failed };

    ghost taken = { λ _. 0 };

    ghost asked = { λ f. f.asked };

    ghost gave = { λ f. f.gave };

    /// Returns `Failed` exactly if the read is listed as failing, unless there is no memory to keep its name.
    fn read(&mut self, alloc: Global, name: &str, limit: u64) -> Result<Vec<u8>, FileAnswer>
        ensures asked { self.new.asked ≡ self.old.asked ++ name.now ∷ [] }
        ensures gave { IfOk result (λ v.
            self.new.gave ≡ self.old.gave ++ (name.now, v.items) ∷ []) }
        ensures ungiven { OnErr result (self.new.gave ≡ self.old.gave) }
        ensures held { Some self.new.pairs ≡ Some self.old.pairs }
        ensures later { self.old.faults ≤ self.new.faults }
        ensures more { 0 ≤ 0 }
        ensures most { 0 ≤ 0 + (limit + 1) }
        ensures within { IfOk result (λ v. length v.items ≤ limit) }
        ensures bytes { IfOk result (λ v. v.items ≡ held_bytes self.old.pairs name.now) }
        ensures taken { IfOk result (λ v. IsTaken (Some self.old.pairs) (length v.items) 0 0) }
        ensures failed { IsErrOf result FileAnswer.Failed → Rose self.old.faults self.new.faults }
        ensures uncounted { ¬ IsErrOf result FileAnswer.Failed → self.new.faults ≡ self.old.faults }
        ensures told { IsErrOf result FileAnswer.Failed → self.new.last_failed ≡ name.now }
        ensures untold { ¬ IsErrOf result FileAnswer.Failed
            → Some self.new.last_failed ≡ Some self.old.last_failed }
        ensures too_long { IsErrOf result FileAnswer.TooLong
            → limit < length (held_bytes self.old.pairs name.now) }

        ensures answer { Reads result (read_answer self.old name.now limit) }
        ensures after { self.new ≡ files_after self.old name.now result }
    {
        self.asked.add(name.as_bytes());
        if count_call(&mut self.calls, &self.failing) {
            return Err(self.fail(alloc, name));
        }
        let bytes = copy_of(alloc, find(&self.pairs, name), limit)?;
        self.gave.add(name, &bytes);
        Ok(bytes)
    }
}

/// Files in memory that never fail.
#[derive(Drop)]
pub struct NoFaultFiles {
    pairs: Vec<(String, Vec<u8>)>,
    asked: Notes,
    gave: Given,
}

impl Model for NoFaultFiles {
    ghost use Rattle.outside.specs.Memory.{SoundFiles};
    ghost use Rattle.outside.specs.SeenPairs.{seen_pairs};

    ghost Value = { SoundFiles };

    ghost view = { λ f.
        record { pairs = seen_pairs f.pairs.items; asked = f.asked.items; gave = f.gave } };
}

impl NoFaultFiles {
    /// Returns files with these names and bytes.
    pub fn new(pairs: Vec<(String, Vec<u8>)>) -> NoFaultFiles
        ensures { result ≡ record { pairs = seen_pairs pairs.items; asked = []; gave = [] } }
    {
        NoFaultFiles {
            pairs,
            asked: Notes::new(),
            gave: Given::new(),
        }
    }
}

impl Files for NoFaultFiles {
    ghost held = { λ f. Some f.pairs };

    ghost faults = { λ _. 0 };

    ghost last_failed = { λ _. Some [] };

    ghost taken = { λ _. 0 };

    ghost asked = { λ f. f.asked };

    ghost gave = { λ f. f.gave };

    /// Returns the bytes of a file. `TooLong` if they are more than `limit`, and `NoMemory` if memory runs out. Never
    /// `Failed`.
    fn read(&mut self, alloc: Global, name: &str, limit: u64) -> Result<Vec<u8>, FileAnswer> {
        self.asked.add(name.as_bytes());
        let bytes = copy_of(alloc, find(&self.pairs, name), limit)?;
        self.gave.add(name, &bytes);
        Ok(bytes)
    }
}
