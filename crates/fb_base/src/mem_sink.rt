//! A sink in memory.

ghost use Rattle.std.specs.Prelude.{◌≡◌, ◌+◌, ◌^◌, ◌≤◌, ◌<◌, ◌++◌, IfOk, IsOk, OnOk, OnErr, is_ok, nat_le, if◌then◌else◌, length, vec_len, vec_capacity};
ghost use Rattle.fb_base.specs.Counts.{Rose};
ghost use Rattle.fb_base.specs.Pieces.{AppendsPrefix};
ghost use Rattle.std.specs.FinMap as map;
ghost use Rattle.std.specs.Ordering.{nat_cmp};
ghost use Rattle.fb_base.specs.SinkState.{empty_sink, first_bytes, will_take, after_put};

use crate::counting::one_more;
use crate::sink::{PutFailed, Sink};
use std::alloc::{AllocError, Global};
use std::collections::BTreeMap;
use std::marker::Model;

/// A sink that keeps the bytes in memory, up to a room that is taken at once, and fails at the puts that it is told.
///
/// Puts are numbered from 1 over the sink's life. Their count stays at `u64::MAX`, so from there on each put has that
/// number. A clause sees a sink as a `SinkState`: the bytes, the room, the numbers that are to fail, and the counts of
/// puts and of faults.
#[derive(Debug, Drop)]
pub struct MemSink {
    bytes: Vec<u8>,
    room: usize,
    to_fail: BTreeMap<u64, u64>,
    calls: u64,
    faults: u64,
}

impl Model for MemSink {
    ghost use Rattle.std.specs.Prelude.{◌≤◌, vec_len, vec_capacity};
    ghost use Rattle.std.specs.FinMap as map;
    ghost use Rattle.fb_base.specs.SinkState.{SinkState, state_code};

    ghost Value = { SinkState };

    ghost coded = { state_code };

    ghost view = { λ sink. record { taken = sink.bytes.items; room = sink.room; to_fail = map.from_entries sink.to_fail.entries; calls = sink.calls; faults = sink.faults } };

    ghost invariant = { λ sink. (vec_len sink.bytes ≤ sink.room) × (sink.room ≤ vec_capacity sink.bytes) };
}

impl MemSink {
    /// An empty sink with memory for `room` bytes. No put takes memory.
    pub fn new(alloc: Global, room: u64) -> Result<MemSink, AllocError>
        ensures { IfOk result (λ sink. sink ≡ empty_sink room) }
    {
        let room = room as usize;
        Ok(MemSink {
            bytes: Vec::with_capacity(alloc, room)?,
            room,
            to_fail: BTreeMap::new(alloc),
            calls: 0,
            faults: 0,
        })
    }

    /// Lets the put of this number take the first `taken` bytes of its piece, or all if it has fewer, and fail. A number
    /// that was added before gets this `taken`, and a number that is past has no effect.
    pub fn fail_at(&mut self, call: u64, taken: u64) -> Result<(), AllocError>
        ensures added { OnOk result (self.old.calls < call → self.new ≡ record self.old { to_fail = map.insert self.old.to_fail call taken }) }
        ensures past { call ≤ self.old.calls → self.new ≡ self.old }
        ensures past_ok { call ≤ self.old.calls → IsOk result }
        ensures refused { OnErr result (self.new ≡ self.old) }
    {
        if call <= self.calls {
            return Ok(());
        }
        self.to_fail.insert(call, taken)?;
        Ok(())
    }

    /// Puts the piece, and says whether that succeeded.
    fn take_piece(&mut self, piece: &[u8]) -> bool
        ensures answer { result ≡ will_take self.old piece.now }
        ensures after { self.new ≡ after_put self.old piece.now }
        ensures small { self.old.faults < 2 ^ 64 }
    {
        let call = one_more(self.calls);
        let failure = failure_at(&self.to_fail, call);
        let is_appended = append(&mut self.bytes, first_of(piece, failure), self.room);
        let is_taken = failure.is_none() & is_appended;
        self.calls = call;
        self.faults = if is_taken {
            self.faults
        } else {
            one_more(self.faults)
        };
        is_taken
    }

    /// All bytes taken so far.
    pub fn bytes(&self) -> &[u8]
        ensures bytes { result.now ≡ self.now.taken }
        ensures within { length result.now ≤ self.now.room }
    {
        self.bytes.as_slice()
    }
}

/// How many bytes the put of this number takes if it is to fail.
fn failure_at(to_fail: &BTreeMap<u64, u64>, call: u64) -> Option<u64>
    ensures { result ≡ map.get (map.from_entries {R = nat_cmp} to_fail.now.entries) call }
{
    to_fail.get(&call).copied()
}

/// The first bytes of the piece, as many as a failing put takes, or the whole piece.
fn first_of(piece: &[u8], failure: Option<u64>) -> &[u8]
    ensures { result.now ≡ first_bytes failure piece.entry.now }
{
    match failure {
        None => piece,
        Some(count) => &piece[..piece.len().min(count as usize)],
    }
}

/// Appends the piece if there is room for it, and says whether there was. It takes no memory.
fn append(bytes: &mut Vec<u8>, piece: &[u8], room: usize) -> bool
    requires within { vec_len bytes.old ≤ room }
    requires room { room ≤ vec_capacity bytes.old }
    ensures told { result ≡ nat_le (vec_len bytes.old + length piece.now) room }
    ensures items { bytes.new.items ≡ (if result then bytes.old.items ++ piece.now else bytes.old.items) }
    ensures still_within { vec_len bytes.new ≤ room }
    ensures capacity { vec_capacity bytes.old ≤ vec_capacity bytes.new }
{
    if room - bytes.len() < piece.len() {
        return false;
    }
    bytes.extend_from_slice(piece).is_ok()
}

impl Sink for MemSink {
    ghost use Rattle.std.specs.Prelude.{true};

    ghost tells = { λ _. true };

    ghost taken = { λ sink. sink.taken };

    ghost faults = { λ sink. sink.faults };

    fn put(&mut self, bytes: &[u8]) -> Result<(), PutFailed>
        // Exactly what a put does.
        ensures answer { is_ok result ≡ will_take self.old bytes.now }
        ensures after { self.new ≡ after_put self.old bytes.now }

        // What it does as a sink.
        ensures never_falls { self.old.faults ≤ self.new.faults }
        ensures whole { OnOk result (self.new.taken ≡ self.old.taken ++ bytes.now) }
        ensures prefix { OnErr result (AppendsPrefix self.old.taken self.new.taken bytes.now) }
        ensures failed { OnErr result (Rose self.old.faults self.new.faults) }
        ensures ok { ¬ Rose self.old.faults self.new.faults → IsOk result }
    {
        if self.take_piece(bytes) {
            Ok(())
        } else {
            Err(PutFailed)
        }
    }
}
