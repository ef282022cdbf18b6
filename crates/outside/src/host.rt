//! The files and writers of the host. This is the trusted edge: contracts don't know what the host's files
//! hold. They know which bytes the reads returned and the writers took.

ghost use Rattle.std.specs.Prelude.{◌≡◌, ◌≢◌, ◌≤◌, ◌<◌, ◌+◌, ◌↔◌, ◌++◌, ◌∷◌, [], None, Some, IfOk, OnOk, OnErr, IsErrOf, length, take};
ghost use Rattle.std.specs.Io.KnownBytes.{Appends, Consumes, IsAtEnd};
ghost use Rattle.std.specs.IoError.{error_kind};
ghost use Rattle.std.specs.declared.io.ErrorKind.TheVariants.{OutOfMemory};
ghost use Rattle.outside.specs.Causes.{Rose, RoseBy, raised};
ghost use Rattle.outside.specs.Grown.{Grew};
ghost use Rattle.outside.specs.Held.{IsHeld, IsTaken};
ghost use Rattle.outside.specs.Host.{taken_by};
ghost use Rattle.outside.specs.Turns.{Took, TookAtMost};

use crate::files::{FileAnswer, Files};
use crate::given::Given;
use crate::notes::Notes;
use crate::reading::take_up_to;
use crate::sink::{Failed, Sink};
use crate::turns::{TurnReader, Turns};
use std::alloc::Global;
use std::io::{ErrorKind, Read, Write};
use std::marker::Model;
use std::mem::replace;
use std::{fs, io, rt};

/// A sink over a writer of std, which is flushed after each write. Contracts know the bytes that the writer took and
/// then flushed.
#[derive(Drop)]
pub struct HostSink<W: Write + Drop> {
    writer: W,
    faults: u64,
    pieces: Notes,
}

impl<W: Write + Drop> Model for HostSink<W> {
    ghost use Rattle.std.specs.List.{concat};
    ghost use Rattle.outside.specs.Host.{SeenSink};

    ghost Value = { SeenSink W };

    ghost view = { λ s.
        record { writer = s.writer; faults = s.faults; accepted = concat s.pieces.items } };
}

impl<W: Write + Drop> HostSink<W> {
    /// Returns a sink over a writer, before any write.
    pub fn new(writer: W) -> HostSink<W>
        ensures { result ≡ record { writer = writer; faults = 0; accepted = [] } }
    {
        HostSink {
            writer,
            faults: 0,
            pieces: Notes::new(),
        }
    }
}

impl<W: Write + Drop> Sink for HostSink<W> {
    ghost written = { λ s. Some s.accepted };

    ghost faults = { λ s. s.faults };

    /// Writes some bytes and flushes. Fails if the writer or its flush fails, or if the writer takes
    /// no byte. After an Ok, the writer's model has grown by the bytes that it took, if it has a model
    /// of them.
    fn write(&mut self, piece: &[u8]) -> Result<usize, Failed>
        requires { 0 < length piece.now }
        ensures some { IfOk result (λ n. 0 < n) }
        ensures bound { IfOk result (λ n. n ≤ length piece.now) }
        ensures bytes { IfOk result (λ n.
            Grew (Some self.old.accepted) (Some self.new.accepted) (take n piece.now)) }
        ensures kept { OnErr result (Some self.new.accepted ≡ Some self.old.accepted) }
        ensures later { self.old.faults ≤ self.new.faults }
        ensures uncounted { OnOk result (self.new.faults ≡ self.old.faults) }
        ensures failed { OnErr result (Rose self.old.faults self.new.faults) }

        ensures counted { OnErr result (self.new.faults ≡ raised self.old.faults) }
        ensures honest { IfOk result (λ n.
            Appends (W.contents self.old.writer) (W.contents self.new.writer) (take n piece.now)) }
    {
        match self.writer.write(piece) {
            Err(_) | Ok(0) => {
                self.faults = self.faults.saturating_add(1);
                Err(Failed)
            }
            Ok(count) => match self.writer.flush() {
                Ok(()) => {
                    self.pieces.add(&piece[..count]);
                    Ok(count)
                }
                Err(_) => {
                    self.faults = self.faults.saturating_add(1);
                    Err(Failed)
                }
            },
        }
    }
}

/// The host's files. Their contents aren't known to contracts.
#[derive(Drop)]
pub struct HostFiles<'r, R: rt::Files> {
    rt: &'r R,
    faults: u64,
    turns: Turns,
    asked: Notes,
    gave: Given,
}

impl<'r, R: rt::Files> Model for HostFiles<'r, R> {
    ghost use Rattle.outside.specs.Host.{SeenHost};

    ghost Value = { SeenHost };

    ghost view = { λ f.
        record { faults = f.faults; turns = f.turns; asked = f.asked.items; gave = f.gave } };
}

impl<'r, R: rt::Files> HostFiles<'r, R> {
    /// Returns the files of a runtime, before any read.
    pub fn new(rt: &'r R) -> HostFiles<'r, R>
        ensures { result ≡ record { faults = 0; turns = []; asked = []; gave = [] } }
    {
        HostFiles {
            rt,
            faults: 0,
            turns: Turns::new(),
            asked: Notes::new(),
            gave: Given::new(),
        }
    }
}

impl<'r, R: rt::Files> Files for HostFiles<'r, R> {
    ghost held = { λ _. None };

    ghost faults = { λ f. f.faults };

    ghost last_failed = { λ _. None };

    ghost taken = { taken_by };

    ghost asked = { λ f. f.asked };

    ghost gave = { λ f. f.gave };

    /// Reads at most one byte more than the limit, in turns: a turn is one call of `read` on the open file. Each turn
    /// but the last takes at least one byte, and none takes more than 2^18. Only an answer `Failed` counts as a
    /// fault.
    fn read(&mut self, alloc: Global, name: &str, limit: u64) -> Result<Vec<u8>, FileAnswer>
        ensures asked { self.new.asked ≡ self.old.asked ++ name.now ∷ [] }
        ensures gave { IfOk result (λ v.
            self.new.gave ≡ self.old.gave ++ (name.now, v.items) ∷ []) }
        ensures ungiven { OnErr result (self.new.gave ≡ self.old.gave) }
        ensures later { self.old.faults ≤ self.new.faults }
        ensures more { taken_by self.old ≤ taken_by self.new }
        ensures most { taken_by self.new ≤ taken_by self.old + (limit + 1) }
        ensures within { IfOk result (λ v. length v.items ≤ limit) }
        ensures untold { IfOk result (λ v. IsHeld None name.now v.items) }
        ensures taken { IfOk result (λ v.
            IsTaken None (length v.items) (taken_by self.old) (taken_by self.new)) }
        ensures failed { IsErrOf result FileAnswer.Failed → Rose self.old.faults self.new.faults }
        ensures uncounted { ¬ IsErrOf result FileAnswer.Failed → self.new.faults ≡ self.old.faults }
        ensures too_long { IsErrOf result FileAnswer.TooLong
            → RoseBy (limit + 1) (taken_by self.old) (taken_by self.new) }

        ensures counted { IsErrOf result FileAnswer.Failed
            → self.new.faults ≡ raised self.old.faults }
        ensures turns { TookAtMost (limit + 1) self.old.turns self.new.turns }
        ensures all { IfOk result (λ v. Took self.old.turns self.new.turns v.items) }
    {
        self.asked.add(name.as_bytes());
        let file = match fs::open(self.rt, name) {
            Ok(file) => file,
            Err(e) => return Err(answer(&mut self.faults, &e)),
        };
        let most = limit.saturating_add(1);
        let (_, bytes, outcome) = read_file(alloc, file, most, &mut self.turns);
        match outcome {
            Err(e) => Err(answer(&mut self.faults, &e)),
            Ok(()) if bytes.len() as u64 > limit => Err(FileAnswer::TooLong),
            Ok(()) => {
                self.gave.add(name, &bytes);
                Ok(bytes)
            }
        }
    }
}

// Reads what an open file has left, up to `most` bytes, and returns the file with the bytes. It takes no byte that
// it doesn't return, and stops early only at the end of the file or with an error. The new turns are noted after
// the earlier ones.
fn read_file<F: Read + Drop>(
    alloc: Global,
    file: F,
    most: u64,
    turns: &mut Turns,
) -> (F, Vec<u8>, io::Result<()>)
    ensures within { length result.1.items ≤ most }
    ensures taken { Consumes (F.remaining file) (F.remaining result.0) result.1.items }
    ensures all { OnOk result.2 (length result.1.items < most → IsAtEnd (F.remaining result.0)) }
    ensures turns { Took turns.old turns.new result.1.items }
{
    let mut noted = TurnReader::new(file, replace(turns, Turns::new()));
    let (bytes, outcome) = take_up_to(alloc, &mut noted, most);
    let (file, all_turns) = noted.into_parts();
    *turns = all_turns;
    (file, bytes, outcome)
}

// Returns the answer for an error of the host. Running out of memory doesn't count as a fault.
fn answer(faults: &mut u64, e: &io::Error) -> FileAnswer
    ensures counted { (result ≡ FileAnswer.Failed) → faults.new ≡ raised faults.old }
    ensures not_counted { (result ≢ FileAnswer.Failed) → faults.new ≡ faults.old }
    ensures later { faults.old ≤ faults.new }
    ensures no_other { result ≢ FileAnswer.TooLong }
    ensures memory { (result ≡ FileAnswer.NoMemory) ↔ (error_kind e.now ≡ OutOfMemory) }
{
    if e.kind() == ErrorKind::OutOfMemory {
        return FileAnswer::NoMemory;
    }
    *faults = faults.saturating_add(1);
    FileAnswer::Failed
}
