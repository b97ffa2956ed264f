// A source and a sink over memory, which fail where they are told to.
ghost use Rattle.std.specs.Prelude.{◌≡◌, [], Some, ◌-◌, ◌<◌, ◌≤◌, ◌⊎◌, ◌↔◌, ◌++◌, min, length, take, IfOk, OnErr, IsErr, Contains};
ghost use Rattle.irr_io.specs.Count.{one_more, Rose, NeverFalls};

use crate::{Failed, Memory, Sink, Source};
use std::alloc::Global;
use std::marker::Model;

/// Bytes in memory, handed out a few at a time, by reads of which chosen ones fail.
#[derive(Drop)]
pub struct MemSource {
    bytes: Vec<u8>,
    at: usize,
    step: usize,
    fails: Vec<u64>,
    faults: u64,
    reads: u64,
}

impl Model for MemSource {
    ghost use Rattle.std.specs.Prelude.{◌≤◌, ◌<◌, drop, vec_len};
    ghost use Rattle.irr_io.specs.InMemory.{SourceState};

    ghost Value = { SourceState };

    ghost view = { λ s. record {
      left = drop s.at s.bytes.items;
      step = s.step;
      fails = s.fails.items;
      faults = s.faults;
      reads = s.reads;
    } };

    ghost invariant = { λ s. (s.at ≤ vec_len s.bytes) × (0 < s.step) };
}

impl MemSource {
    /// A source of `bytes`, of which each read hands out at most `step`. The reads are counted from
    /// 0, and those whose numbers are in `fails` fail.
    pub fn new(bytes: Vec<u8>, step: usize, fails: Vec<u64>) -> MemSource
        requires { 0 < step }
        ensures { result ≡ record {
          left = bytes.items;
          step = step;
          fails = fails.items;
          faults = 0;
          reads = 0;
        } }
    {
        MemSource {
            bytes,
            at: 0,
            step,
            fails,
            faults: 0,
            reads: 0,
        }
    }
}

impl Source for MemSource {
    ghost view = { λ s. record { left = Some s.left; reads = Some s.reads; faults = s.faults } };

    fn read(&mut self, buf: &mut [u8]) -> Result<usize, Failed>
        // What every source promises.
        ensures fits { IfOk result (λ n. n ≤ length buf.new) }
        ensures taken { IfOk result (λ n. self.old.left ≡ take n buf.new ++ self.new.left) }
        ensures end { IfOk result (λ n. n ≡ 0 → 0 < length buf.old → self.new.left ≡ []) }
        ensures kept { OnErr result (self.new.left ≡ self.old.left) }
        ensures failed { OnErr result (Rose self.old.faults self.new.faults) }
        ensures never_falls { NeverFalls self.old.faults self.new.faults }
        ensures counted { self.new.reads ≡ one_more self.old.reads }

        // The read fails exactly where its number is told to.
        ensures fails { IsErr result ↔ Contains self.old.fails self.old.reads }
        ensures fault { OnErr result (self.new.faults ≡ one_more self.old.faults) }
        ensures no_fault { IfOk result (λ _. self.new.faults ≡ self.old.faults) }
        ensures amount { IfOk result (λ n. n ≡ min self.old.step (min (length buf.old) (length self.old.left))) }
        ensures unchanged { (self.new.step ≡ self.old.step) × (self.new.fails ≡ self.old.fails) }
    {
        let fails = self.fails.contains(&self.reads);
        self.reads = self.reads.saturating_add(1);
        if fails {
            self.faults = self.faults.saturating_add(1);
            return Err(Failed);
        }
        let most = self.step.min(buf.len());
        let n = copy_front(&self.bytes[self.at..], buf, most);
        self.at += n;
        Ok(n)
    }
}

// Copies at most `most` bytes from the front of `from` to the front of `to`, and returns how many.
fn copy_front(from: &[u8], to: &mut [u8], most: usize) -> usize
    requires { most ≤ length to.old }
    ensures amount { result ≡ min most (length from.now) }
    ensures front { take result to.new ≡ take result from.now }
{
    let n = most.min(from.len());
    to[..n].copy_from_slice(&from[..n]);
    n
}

/// A sink over memory, with room for so many bytes, which takes them a few at a time, by writes of
/// which chosen ones fail.
#[derive(Drop)]
pub struct MemSink {
    held: Vec<u8>,
    room: usize,
    step: usize,
    fails: Vec<u64>,
    faults: u64,
    writes: u64,
}

impl Model for MemSink {
    ghost use Rattle.std.specs.Prelude.{◌≤◌, ◌<◌, vec_len};
    ghost use Rattle.std.specs.Vec.{vec_capacity};
    ghost use Rattle.irr_io.specs.InMemory.{SinkState};

    ghost Value = { SinkState };

    ghost view = { λ s. record {
      held = s.held.items;
      room = s.room;
      step = s.step;
      fails = s.fails.items;
      faults = s.faults;
      writes = s.writes;
    } };

    ghost invariant = { λ s. (vec_len s.held ≤ s.room) × (s.room ≤ vec_capacity s.held) × (0 < s.step) };
}

impl MemSink {
    /// An empty sink with room for `room` bytes, of which each write takes at most `step`. The writes
    /// are counted from 0, and those whose numbers are in `fails` fail. It takes its memory here.
    pub fn new(alloc: Global, room: usize, step: usize, fails: Vec<u64>) -> Result<MemSink, Memory>
        requires { 0 < step }
        ensures { IfOk result (λ sink. sink ≡ record {
          held = [];
          room = room;
          step = step;
          fails = fails.items;
          faults = 0;
          writes = 0;
        }) }
    {
        let held = Vec::with_capacity(alloc, room)?;
        Ok(MemSink {
            held,
            room,
            step,
            fails,
            faults: 0,
            writes: 0,
        })
    }

    /// The bytes that the sink holds.
    pub fn held(&self) -> &[u8]
        ensures { result.now ≡ self.now.held }
    {
        &self.held
    }
}

impl Sink for MemSink {
    ghost view = { λ s. record { held = Some s.held; writes = Some s.writes; faults = s.faults } };

    fn write(&mut self, piece: &[u8]) -> Result<usize, Failed>
        // What every sink promises.
        ensures fits { IfOk result (λ n. n ≤ length piece.now) }
        ensures progress { IfOk result (λ n. 0 < length piece.now → 0 < n) }
        ensures gained { IfOk result (λ n. self.new.held ≡ self.old.held ++ take n piece.now) }
        ensures kept { OnErr result (self.new.held ≡ self.old.held) }
        ensures failed { OnErr result (Rose self.old.faults self.new.faults) }
        ensures never_falls { NeverFalls self.old.faults self.new.faults }
        ensures counted { self.new.writes ≡ one_more self.old.writes }

        // The write fails exactly where its number is told to, or where there is no room for a byte.
        ensures fails { IsErr result ↔ (Contains self.old.fails self.old.writes
            ⊎ ((0 < length piece.now) × (self.old.room ≤ length self.old.held))) }
        ensures fault { OnErr result (self.new.faults ≡ one_more self.old.faults) }
        ensures no_fault { IfOk result (λ _. self.new.faults ≡ self.old.faults) }
        ensures amount { IfOk result (λ n. n
            ≡ min self.old.step (min (length piece.now) (self.old.room - length self.old.held))) }
        ensures unchanged { (self.new.room ≡ self.old.room) × (self.new.step ≡ self.old.step)
            × (self.new.fails ≡ self.old.fails) }
    {
        let left = self.room - self.held.len();
        let is_full = left == 0 && !piece.is_empty();
        let fails = self.fails.contains(&self.writes) || is_full;
        self.writes = self.writes.saturating_add(1);
        if fails {
            self.faults = self.faults.saturating_add(1);
            return Err(Failed);
        }
        let n = self.step.min(piece.len()).min(left);
        self.held.extend_from_slice(&piece[..n]).unwrap();
        Ok(n)
    }
}
