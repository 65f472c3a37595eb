//! Sources and a sink in memory.
ghost use Rattle.std.specs.Prelude.{◌≡◌, ℕ, ◌+◌, ◌-◌, ◌<◌, ◌≤◌, ◌++◌, Some, Ok, [], take, drop, min, length, vec_len, vec_capacity, is_err, IfOk, IfSome, OnOk, OnErr};
ghost use Rattle.xe_run.specs.Told.{followed_by, preceded_by, is_told, Rose, FollowedByFront};

use crate::outside::{Failed, Sink, Source};

/// Bytes in memory, and the calls of `read` that fail, counted from 0.
#[derive(Drop)]
pub struct ListSource {
    bytes: Vec<u8>,
    /// How many of the bytes were read.
    at: usize,
    failing: Vec<u64>,
    /// How many calls there were.
    calls: u64,
    faults: u64,
    ghost within: { at ≤ vec_len bytes },
}

impl ListSource {
    ghost use Rattle.xe_run.specs.Memory.{source_in_memory, uncalled};

    /// A source that has all of these bytes left, and whose calls with these numbers fail.
    pub fn new(bytes: Vec<u8>, failing: Vec<u64>) -> ListSource
        ensures left { ⟦<ListSource as Source>⟧.left result ≡ Some bytes.items }
        ensures faults { ⟦<ListSource as Source>⟧.faults result ≡ 0 }
        ensures start { source_in_memory result ≡ uncalled bytes.items failing.items }
    {
        ListSource {
            bytes,
            at: 0,
            failing,
            calls: 0,
            faults: 0,
        }
    }

    /// How many calls of `read` there were.
    pub fn calls(&self) -> u64
        ensures { result ≡ (source_in_memory self.now).calls }
    {
        self.calls
    }
}

impl Source for ListSource {
    ghost use Rattle.xe_run.specs.Memory.{source_in_memory, fails_next, after_failure, after_success};

    ghost left = { λ s. Some (source_in_memory s).bytes };

    ghost faults = { λ s. (source_in_memory s).faults };

    /// Fails where the number of this call is one of those that fail, and reads nothing then; reads as
    /// much as fits else.
    fn read(&mut self, buf: &mut [u8]) -> Result<usize, Failed>
        requires { 0 < length buf.old }
        ensures within { IfOk result (λ k. k ≤ length buf.new) }
        ensures taken { IfOk result (λ k. Some (source_in_memory self.old).bytes ≡ preceded_by (take k buf.new) (Some (source_in_memory self.new).bytes)) }
        ensures ended { IfOk result (λ k. k ≡ 0 → IfSome (Some (source_in_memory self.old).bytes) (λ l. l ≡ [])) }
        ensures told { is_told (Some (source_in_memory self.new).bytes) ≡ is_told (Some (source_in_memory self.old).bytes) }
        ensures count { (source_in_memory self.old).faults ≤ (source_in_memory self.new).faults }
        ensures failed { OnErr result (Rose (source_in_memory self.old).faults (source_in_memory self.new).faults) }

        ensures fails { is_err result ≡ fails_next (source_in_memory self.old) }
        ensures fits { IfOk result (λ k. k ≡ min (length buf.old) (length (source_in_memory self.old).bytes)) }
        ensures after_ok { IfOk result (λ k. source_in_memory self.new ≡ after_success (source_in_memory self.old) (drop k (source_in_memory self.old).bytes)) }
        ensures after_err { OnErr result (source_in_memory self.new ≡ after_failure (source_in_memory self.old)) }
    {
        let call = self.calls;
        self.calls = call.saturating_add(1);
        if self.failing.contains(&call) {
            self.faults = self.faults.saturating_add(1);
            return Err(Failed);
        }
        let count = buf.len().min(self.bytes.len() - self.at);
        let end = self.at + count;
        buf[..count].copy_from_slice(&self.bytes[self.at..end]);
        self.at = end;
        Ok(count)
    }
}

/// Bytes in memory that are read without a fault: the count of faults is always 0.
#[derive(Drop)]
pub struct SteadySource {
    bytes: Vec<u8>,
    /// How many of the bytes were read.
    at: usize,
    ghost within: { at ≤ vec_len bytes },
}

impl SteadySource {
    /// A source that has all of these bytes left.
    pub fn new(bytes: Vec<u8>) -> SteadySource
        ensures left { ⟦<SteadySource as Source>⟧.left result ≡ Some bytes.items }
        ensures faults { ⟦<SteadySource as Source>⟧.faults result ≡ 0 }
    {
        SteadySource { bytes, at: 0 }
    }
}

impl Source for SteadySource {
    ghost use Rattle.xe_run.specs.Memory.{steadily_left};

    ghost left = { λ s. Some (steadily_left s) };

    ghost faults = { λ _. 0 };

    /// Never fails, and reads as much as fits.
    fn read(&mut self, buf: &mut [u8]) -> Result<usize, Failed>
        requires { 0 < length buf.old }
        ensures within { IfOk result (λ k. k ≤ length buf.new) }
        ensures taken { IfOk result (λ k. Some (steadily_left self.old) ≡ preceded_by (take k buf.new) (Some (steadily_left self.new))) }
        ensures ended { IfOk result (λ k. k ≡ 0 → IfSome (Some (steadily_left self.old)) (λ l. l ≡ [])) }
        ensures told { is_told (Some (steadily_left self.new)) ≡ is_told (Some (steadily_left self.old)) }

        ensures fits { result ≡ Ok (min (length buf.old) (length (steadily_left self.old))) }
        ensures after { IfOk result (λ k. steadily_left self.new ≡ drop k (steadily_left self.old)) }
    {
        let count = buf.len().min(self.bytes.len() - self.at);
        let end = self.at + count;
        buf[..count].copy_from_slice(&self.bytes[self.at..end]);
        self.at = end;
        Ok(count)
    }
}

/// A vector that is written to without growing it, and the calls of `write` that fail, counted from 0.
#[derive(Drop)]
pub struct VecSink {
    bytes: Vec<u8>,
    failing: Vec<u64>,
    /// How many calls there were.
    calls: u64,
    faults: u64,
}

impl VecSink {
    ghost use Rattle.xe_run.specs.Memory.{sink_in_memory, uncalled, room_in};

    /// A sink that appends to these bytes, as far as they have spare room, and whose calls with these
    /// numbers fail.
    pub fn new(bytes: Vec<u8>, failing: Vec<u64>) -> VecSink
        ensures written { ⟦<VecSink as Sink>⟧.written result ≡ Some bytes.items }
        ensures faults { ⟦<VecSink as Sink>⟧.faults result ≡ 0 }
        ensures start { sink_in_memory result ≡ uncalled bytes.items failing.items }
        ensures room { room_in result ≡ vec_capacity bytes - vec_len bytes }
    {
        VecSink {
            bytes,
            failing,
            calls: 0,
            faults: 0,
        }
    }

    /// The bytes that the sink began with and those that were written.
    pub fn into_bytes(self) -> Vec<u8>
        ensures { ⟦<VecSink as Sink>⟧.written self ≡ Some result.items }
    {
        self.bytes
    }
}

impl Sink for VecSink {
    ghost use Rattle.xe_run.specs.Memory.{sink_in_memory, write_fails_next, after_failure, after_success, room_in};

    ghost written = { λ k. Some (sink_in_memory k).bytes };

    ghost faults = { λ k. (sink_in_memory k).faults };

    /// Fails where the number of this call is one of those that fail, or the spare room doesn't hold the
    /// piece, and appends nothing then. No room is taken but what the piece fills.
    fn write(&mut self, piece: &[u8]) -> Result<(), Failed>
        ensures ok { OnOk result (Some (sink_in_memory self.new).bytes ≡ followed_by (Some (sink_in_memory self.old).bytes) piece.now) }
        ensures err { OnErr result (FollowedByFront (Some (sink_in_memory self.old).bytes) piece.now (Some (sink_in_memory self.new).bytes)) }
        ensures count { (sink_in_memory self.old).faults ≤ (sink_in_memory self.new).faults }
        ensures failed { OnErr result (Rose (sink_in_memory self.old).faults (sink_in_memory self.new).faults) }

        ensures fails { is_err result ≡ write_fails_next self.old piece.now }
        ensures after_ok { OnOk result (sink_in_memory self.new ≡ after_success (sink_in_memory self.old) ((sink_in_memory self.old).bytes ++ piece.now)) }
        ensures after_err { OnErr result (sink_in_memory self.new ≡ after_failure (sink_in_memory self.old)) }
        ensures room_ok { OnOk result (room_in self.old ≤ room_in self.new + length piece.now) }
        ensures room_err { OnErr result (room_in self.new ≡ room_in self.old) }
    {
        let call = self.calls;
        self.calls = call.saturating_add(1);
        let room = self.bytes.capacity() - self.bytes.len();
        if self.failing.contains(&call) || room < piece.len() {
            self.faults = self.faults.saturating_add(1);
            return Err(Failed);
        }
        match self.bytes.extend_from_slice(piece) {
            Ok(()) => Ok(()),
            Err(_) => unreachable!(),
        }
    }
}
