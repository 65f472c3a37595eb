//! Accesses to devices: one access, and bytes of memory outside RAM, chunk by chunk.
#![tactic(auto, using(crate::proofs::Binds::part_rules))]

ghost use Rattle.std.specs.Prelude.{◌≡◌, ◌+◌, ◌<◌, ◌≤◌, ◌^◌, length, Some, IfOk, IsTrue};
ghost use Rattle.xe_base.specs.Access.{IsWellFormed, answers_to};
ghost use Rattle.xe_ctx.specs.Chunks.{chunks, Within, IsChunkSize};
ghost use Rattle.xe_ctx.specs.Is.{Does, IsNext};
ghost use Rattle.xe_ctx.specs.Memory.{chunk_read, chunk_write, devices_read, devices_write};
ghost use Rattle.xe_ctx.specs.Part.{ask};
ghost use Rattle.xe_ctx.specs.View.{view, SameHandles, IsOpen, accesses_left, bytes_left, bytes_in};

use crate::bus::{Bus, Reply};
use crate::chunk::{Chunk, append, bytes_of, chunks_of, number_of};
use crate::ctx::Ctx;
use crate::stop::{Diverged, Stop};
use arrayvec::ArrayVec;
use xe_base::{Access, Answer, Made, Space};
use xe_icpt::Intercepts;

impl<'a, B: Bus, I: Intercepts> Ctx<'a, B, I> {
    /// One access to a device: the kept answer, where the record has one at this place, else the bus is
    /// asked.
    pub(crate) fn ask(&mut self, a: Access) -> Result<Answer, Stop>
        requires open { IsOpen B.sight self.old }
        requires well_formed { IsWellFormed a }
        requires accesses { 1 ≤ accesses_left self.old }
        ensures same { SameHandles self.old self.new }
        ensures open { IsOpen B.sight self.new }
        ensures accesses { accesses_left self.old ≤ accesses_left self.new + 1 }
        ensures bytes { bytes_left self.new ≡ bytes_left self.old }
        ensures fits { IfOk result (λ r. IsTrue (answers_to a r)) }
        ensures part { Does (ask a) (view B.sight I.hits self.old) result (view B.sight I.hits self.new) }
    {
        let at = self.m.made().len();
        if let Some(kept) = self.rec.differs_at(at, a) {
            return Err(diverged(at, kept, a));
        }
        if let Some(kept) = self.rec.kept_at(at) {
            self.m.note(kept);
            return Ok(kept.answer);
        }
        self.ask_bus(a)
    }

    /// The bus is asked for one access, for which the record keeps no answer, and has no other in its place.
    fn ask_bus(&mut self, a: Access) -> Result<Answer, Stop>
        requires open { IsOpen B.sight self.old }
        requires well_formed { IsWellFormed a }
        requires accesses { 1 ≤ accesses_left self.old }
        requires stands { IsNext a (view B.sight I.hits self.old) }
        ensures same { SameHandles self.old self.new }
        ensures open { IsOpen B.sight self.new }
        ensures accesses { accesses_left self.old ≤ accesses_left self.new + 1 }
        ensures bytes { bytes_left self.new ≡ bytes_left self.old }
        ensures fits { IfOk result (λ r. IsTrue (answers_to a r)) }
        ensures part { Does (ask a) (view B.sight I.hits self.old) result (view B.sight I.hits self.new) }
    {
        match self.bus.access(a) {
            Reply::Ready(answer) => {
                self.m.note(Made { access: a, answer });
                Ok(answer)
            }
            Reply::NotYet => Err(Stop::Pending(a)),
            Reply::Failed => Err(Stop::BusFault(a)),
        }
    }

    /// One chunk is read.
    #[tactic(auto, using(crate::proofs::Binds::part_rules, xe_base::proofs::Bytes::byte_rules), unfolding(crate::specs::Memory::chunk_read))]
    fn read_chunk(&mut self, c: Chunk) -> Result<ArrayVec<u8, 16>, Stop>
        requires open { IsOpen B.sight self.old }
        requires accesses { 1 ≤ accesses_left self.old }
        requires aligned { IsChunkSize c.size }
        ensures same { SameHandles self.old self.new }
        ensures open { IsOpen B.sight self.new }
        ensures accesses { accesses_left self.old ≤ accesses_left self.new + 1 }
        ensures bytes { bytes_left self.new ≡ bytes_left self.old }
        ensures size { IfOk result (λ bytes. length bytes.items ≡ c.size) }
        ensures part { Does (chunk_read c) (view B.sight I.hits self.old) (bytes_in result) (view B.sight I.hits self.new) }
    {
        let answer = self.ask(Access {
            space: Space::Mem,
            write: false,
            address: c.pa,
            size: c.size as u8,
            value: 0,
        })?;
        Ok(bytes_of(c.size, answer.number() as u128))
    }

    /// Reads n bytes of devices, chunk by chunk.
    #[tactic(auto, using(crate::proofs::Binds::part_rules, crate::proofs::Binds::loop_rules), unfolding(crate::specs::Memory::devices_read))]
    pub(crate) fn read_devices(&mut self, pa: u64, n: usize) -> Result<ArrayVec<u8, 16>, Stop>
        requires open { IsOpen B.sight self.old }
        requires small { n ≤ 16 }
        requires fits { pa < 2 ^ 52 }
        requires accesses { length (chunks pa n) ≤ accesses_left self.old }
        ensures same { SameHandles self.old self.new }
        ensures open { IsOpen B.sight self.new }
        ensures accesses { accesses_left self.old ≤ accesses_left self.new + length (chunks pa n) }
        ensures bytes { bytes_left self.new ≡ bytes_left self.old }
        ensures size { IfOk result (λ bytes. length bytes.items ≡ n) }
        ensures part { Does (devices_read pa n) (view B.sight I.hits self.old) (bytes_in result) (view B.sight I.hits self.new) }
    {
        let chunks = chunks_of(pa, n);
        let mut all = ArrayVec::new();
        for c in chunks.as_slice() {
            let bytes = self.read_chunk(*c)?;
            append(&mut all, bytes.as_slice());
        }
        Ok(all)
    }

    /// One chunk is written, of the bytes of the access.
    #[tactic(auto, using(crate::proofs::Binds::part_rules), unfolding(crate::specs::Memory::chunk_write))]
    fn write_chunk(&mut self, c: Chunk, bytes: &[u8]) -> Result<(), Stop>
        requires open { IsOpen B.sight self.old }
        requires accesses { 1 ≤ accesses_left self.old }
        requires within { Within (length bytes.now) c }
        ensures same { SameHandles self.old self.new }
        ensures open { IsOpen B.sight self.new }
        ensures accesses { accesses_left self.old ≤ accesses_left self.new + 1 }
        ensures bytes { bytes_left self.new ≡ bytes_left self.old }
        ensures part { Does (chunk_write bytes.now c) (view B.sight I.hits self.old) result (view B.sight I.hits self.new) }
    {
        let value = number_of(&bytes[c.at..c.at + c.size]);
        let _ = self.ask(Access {
            space: Space::Mem,
            write: true,
            address: c.pa,
            size: c.size as u8,
            value: value as u64,
        })?;
        Ok(())
    }

    /// Writes bytes to devices, chunk by chunk.
    #[tactic(auto, using(crate::proofs::Binds::part_rules, crate::proofs::Binds::loop_rules), unfolding(crate::specs::Memory::devices_write))]
    pub(crate) fn write_devices(&mut self, pa: u64, bytes: &[u8]) -> Result<(), Stop>
        requires open { IsOpen B.sight self.old }
        requires small { length bytes.now ≤ 16 }
        requires fits { pa < 2 ^ 52 }
        requires accesses { length (chunks pa (length bytes.now)) ≤ accesses_left self.old }
        ensures same { SameHandles self.old self.new }
        ensures open { IsOpen B.sight self.new }
        ensures accesses { accesses_left self.old ≤ accesses_left self.new + length (chunks pa (length bytes.now)) }
        ensures bytes { bytes_left self.new ≡ bytes_left self.old }
        ensures part { Does (devices_write pa bytes.now) (view B.sight I.hits self.old) result (view B.sight I.hits self.new) }
    {
        let chunks = chunks_of(pa, bytes.len());
        for c in chunks.as_slice() {
            self.write_chunk(*c, bytes)?;
        }
        Ok(())
    }
}

/// The record has another access at a place of the step.
#[cold]
fn diverged(at: usize, kept: Access, wanted: Access) -> Stop
    requires { at ≤ 255 }
    ensures { result ≡ Stop.Diverged (record { at = at; kept = kept; wanted = Some wanted }) }
{
    Stop::Diverged(Diverged {
        at: at as u16,
        kept,
        wanted: Some(wanted),
    })
}
