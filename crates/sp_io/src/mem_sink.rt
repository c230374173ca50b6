ghost use Rattle.std.specs.Prelude.{◌≡◌, ◌<◌, ◌≤◌, ◌+◌, ◌-◌, ◌↔◌, ◌++◌, [], ◌∷◌, Some, length, take, min, vec_len, vec_capacity, is_err, OnOk, OnErr, IfOk, IsErr, IsTrue};
ghost use Rattle.sp_io.specs.Calls.{raised, count_after};
ghost use Rattle.sp_io.specs.Slate.{Slate, fails_next};
ghost use Rattle.sp_io.specs.Told.{Rose, extended};

use crate::{Failed, Sink};
use std::alloc::{AllocError, Global};
use std::marker::Model;

/// A sink in memory. Its room is taken when it is made. It takes at most `piece` bytes in a call, tells what was
/// written, and fails at the calls that it was told of and at those that find no room. A write of an empty piece is no call.
#[derive(Drop)]
pub struct MemSink {
    written: Vec<u8>,
    piece: usize,
    room: usize,
    failing: Vec<u64>,
    calls: u64,
    faults: u64,
}

impl Model for MemSink {
    ghost Value = { Slate };

    ghost view = { λ s. record { written = s.written.items; piece = s.piece; room = s.room; failing = s.failing.items; calls = s.calls; faults = s.faults } };

    ghost invariant = { λ s. (0 < s.piece) × (vec_len s.written + s.room ≤ vec_capacity s.written) };
}

impl MemSink {
    /// A sink with room for so many bytes, which never fails before they are written.
    pub fn new(alloc: Global, piece: usize, room: usize) -> Result<Self, AllocError>
        requires { 0 < piece }
        ensures { IfOk result (λ sink. sink ≡ record { written = []; piece = piece; room = room; failing = []; calls = 0; faults = 0 }) }
    {
        let written = Vec::with_capacity(alloc, room)?;
        let failing = Vec::new(alloc);
        let sink = MemSink {
            written,
            piece,
            room,
            failing,
            calls: 0,
            faults: 0,
        };
        Ok(sink)
    }

    /// Lets the call of this number fail; the first call has the number 1.
    pub fn fail_at(&mut self, call: u64) -> Result<(), AllocError>
        ensures added { OnOk result (self.new ≡ record self.old { failing = self.old.failing ++ call ∷ [] }) }
        ensures unchanged { OnErr result (self.new ≡ self.old) }
    {
        self.failing.push(call)?;
        Ok(())
    }

    /// The bytes written so far.
    pub fn written(&self) -> &[u8]
        ensures { result.now ≡ self.now.written }
    {
        self.written.as_slice()
    }

    /// How many calls failed.
    pub fn faults(&self) -> u64
        ensures { result ≡ self.now.faults }
    {
        self.faults
    }

    /// Counts a call, and a fault where it fails.
    fn count_call(&mut self) -> bool
        ensures fails { result ≡ fails_next self.old }
        ensures never_falls { self.old.faults ≤ self.new.faults }
        ensures rose { IsTrue result → Rose self.old.faults self.new.faults }
        ensures counted { self.new ≡ record self.old { calls = raised self.old.calls; faults = count_after (fails_next self.old) self.old.faults } }
    {
        self.calls = self.calls.saturating_add(1);
        let fails = self.failing.contains(&self.calls) || self.room == 0;
        if fails {
            self.faults = self.faults.saturating_add(1);
        }
        fails
    }

    /// How many of so many bytes the next call takes.
    fn count_taken(&self, len: usize) -> usize
        ensures value { result ≡ min len (min self.now.piece self.now.room) }
        ensures some { 0 < len → 0 < self.now.room → 0 < result }
    {
        len.min(self.piece.min(self.room))
    }

    /// Adds bytes for which there is room.
    fn add(&mut self, bytes: &[u8])
        requires { length bytes.now ≤ self.old.room }
        ensures { self.new ≡ record self.old { written = self.old.written ++ bytes.now; room = self.old.room - length bytes.now } }
    {
        match self.written.extend_from_slice(bytes) {
            Ok(()) => {}
            Err(_) => unreachable!(),
        }
        self.room -= bytes.len();
    }
}

impl Sink for MemSink {
    ghost written = { λ slate. Some slate.written };

    ghost faults = { λ slate. slate.faults };

    fn write(&mut self, piece: &[u8]) -> Result<usize, Failed>
        ensures count { self.old.faults ≤ self.new.faults }

        // An empty piece changes nothing.
        ensures empty { piece.now ≡ [] → result ≡ Ok 0 }
        ensures empty_written { piece.now ≡ [] → Some self.new.written ≡ Some self.old.written }
        ensures empty_faults { piece.now ≡ [] → self.new.faults ≡ self.old.faults }

        ensures within { IfOk result (λ n. n ≤ length piece.now) }
        ensures some { IfOk result (λ n. 0 < length piece.now → 0 < n) }
        ensures appended { IfOk result (λ n. Some self.new.written ≡ extended (Some self.old.written) (take n piece.now)) }
        ensures failed { OnErr result (Rose self.old.faults self.new.faults) }
        ensures failed_written { OnErr result (Some self.new.written ≡ Some self.old.written) }

        // The calls that are to fail or find no room are those that do, and their number is the count of faults.
        ensures fails { 0 < length piece.now → (IsErr result ↔ IsTrue (fails_next self.old)) }
        ensures counted { self.new.faults ≡ count_after (is_err result) self.old.faults }
        ensures called { 0 < length piece.now → self.new.calls ≡ raised self.old.calls }
        ensures not_called { piece.now ≡ [] → self.new ≡ self.old }

        // How much one call takes.
        ensures taken { IfOk result (λ n. n ≡ min (length piece.now) (min self.old.piece self.old.room)) }
        ensures room { self.new.room + length self.new.written ≡ self.old.room + length self.old.written }
        ensures planned { self.new.failing ≡ self.old.failing }
        ensures piece { self.new.piece ≡ self.old.piece }
    {
        if piece.is_empty() {
            return Ok(0);
        }
        if self.count_call() {
            return Err(Failed);
        }
        let n = self.count_taken(piece.len());
        self.add(&piece[..n]);
        Ok(n)
    }
}
