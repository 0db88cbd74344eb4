// A write buffer: a body in memory, in which records are appended.
ghost use Rattle.std.specs.Prelude.{◌≡◌, ◌+◌, ◌-◌, ◌*◌, ◌≤◌, length, IfOk};
ghost use Rattle.rec_format.specs.Versions.{IsVersion, version_units, block_capacity, top_number};
ghost use Rattle.block_format.specs.Layout.{IsBlockSize, IsBody};
ghost use Rattle.write_buffer.specs.declared.phase.Phase.TheVariants.{Filling, Sealed};
ghost use Rattle.write_buffer.specs.Phases.{phase_rank, later_phase};
ghost use Rattle.write_buffer.specs.Buffers.{empty_buffer, used_units, body_in, bytes_of, with_record, with_phase, in_stream};

use crate::NoMemory;
use crate::parts::{put_head, put_record};
use crate::phase::Phase;
use crate::stream::Stream;
use block_format::{BODY_HEAD_BYTES, SECTOR_BYTES, capacity};
use rec_format::{Digest, UNIT_BYTES, VersionRef, units_of};
use std::alloc::Global;
use std::marker::Model;

/// The body of one write block in memory: its number, its block, how many units it can hold, its records in the order
/// in which they came, its phase, and the stream whose records it takes.
#[derive(Drop)]
pub struct Buffer {
    bytes: Vec<u8>,
    number: u64,
    block: u32,
    capacity: u32,
    count: u32,
    used: u32,
    phase: Phase,
    stream: Stream,
}

impl Model for Buffer {
    ghost use Rattle.write_buffer.specs.Buffers.{BufferState, KeepsBody, seen_buffer};

    ghost Value = { BufferState };

    ghost view = { λ b. seen_buffer b.number b.block b.capacity b.count b.phase b.stream b.bytes.items };

    ghost invariant = { λ b. KeepsBody (seen_buffer b.number b.block b.capacity b.count b.phase b.stream b.bytes.items) b.used b.bytes.items };
}

impl Buffer {
    /// At `Ok` an empty buffer of a block, which is being filled with the records of clients. All its memory is taken here; `block_size`
    /// is in bytes. An `Err` is want of memory.
    pub fn new(alloc: Global, number: u64, block: u32, block_size: u32) -> Result<Buffer, NoMemory>
        requires number { number ≤ top_number }
        requires size { IsBlockSize block_size }
        ensures empty { IfOk result
            (λ buffer. buffer ≡ empty_buffer number block (block_capacity block_size)) }

        // Its bytes are the whole block behind the gate sector.
        ensures size { IfOk result (λ buffer. 32 + 16 * buffer.capacity ≡ block_size - 4096) }
    {
        let mut bytes = vec![in alloc; 0; block_size as usize - SECTOR_BYTES]?;
        put_head(&mut bytes, number, 0, 0, block);
        Ok(Buffer {
            bytes,
            number,
            block,
            capacity: capacity(block_size),
            count: 0,
            used: 0,
            phase: Phase::Filling,
            stream: Stream::Client,
        })
    }

    /// The same buffer, which takes the records of this stream.
    pub fn in_stream(mut self, stream: Stream) -> Buffer
        ensures { result ≡ in_stream stream self }
    {
        self.stream = stream;
        self
    }

    /// The units of 16 bytes that are left.
    pub fn room(&self) -> u32
        ensures { used_units self.now + result ≡ self.now.capacity }
    {
        self.capacity - self.used
    }

    /// The record of a version, for which there is room, stands behind the others then, and the unit at which it begins is answered: the
    /// units of the records before it. It takes no memory.
    pub fn append(&mut self, digest: &Digest, version: &VersionRef<'_>) -> u32
        requires filling { self.old.phase ≡ Filling }
        requires version { IsVersion version.now }
        requires room { used_units self.old + version_units version.now ≤ self.old.capacity }
        ensures unit { result ≡ used_units self.old }
        ensures appended { self.new ≡ with_record digest.now version.now self.old }
    {
        let unit = self.used;
        let place = BODY_HEAD_BYTES + UNIT_BYTES * unit as usize;
        put_record(&mut self.bytes, place, digest, version);
        self.count += 1;
        self.used += units_of(version.payload.len() as u32);
        put_head(
            &mut self.bytes,
            self.number,
            self.count,
            self.used,
            self.block,
        );
        unit
    }

    /// The buffer takes no more records then. One that is past that stays as it is.
    pub fn seal(&mut self)
        ensures sealed { self.new ≡ with_phase (later_phase self.old.phase Sealed) self.old }
        ensures rises { phase_rank self.old.phase ≤ phase_rank self.new.phase }
    {
        self.set_phase(Phase::Sealed);
    }

    /// The buffer is at the phase then. One that is past it stays as it is.
    pub fn set_phase(&mut self, phase: Phase)
        ensures set { self.new ≡ with_phase (later_phase self.old.phase phase) self.old }
        ensures rises { phase_rank self.old.phase ≤ phase_rank self.new.phase }
    {
        self.phase = self.phase.or_later(phase);
    }

    /// The body of the block: the text of a body with the buffer's number, its block and its records, and zeros.
    pub fn body(&self) -> &[u8]
        ensures bytes { result.now ≡ bytes_of self.now }

        // So it is a body, of the whole block behind the gate sector.
        ensures body { IsBody self.now.capacity result.now (body_in self.now) }
        ensures size { length result.now ≡ 32 + 16 * self.now.capacity }
    {
        self.bytes.as_slice()
    }

    /// Gives the bytes of the body away, without taking memory.
    pub fn into_body(self) -> Vec<u8>
        ensures bytes { result.items ≡ bytes_of self }
        ensures body { IsBody self.capacity result.items (body_in self) }
        ensures size { length result.items ≡ 32 + 16 * self.capacity }
    {
        let Buffer { bytes, .. } = self;
        bytes
    }

    /// The buffer's number.
    pub fn number(&self) -> u64
        ensures number { result ≡ self.now.number }
        ensures range { result ≤ top_number }
    {
        self.number
    }

    /// The block whose body it is.
    pub fn block(&self) -> u32
        ensures { result ≡ self.now.block }
    {
        self.block
    }

    /// How far the buffer has come.
    pub fn phase(&self) -> Phase
        ensures { result ≡ self.now.phase }
    {
        self.phase
    }

    /// The stream whose records it takes.
    pub fn stream(&self) -> Stream
        ensures { result ≡ self.now.stream }
    {
        self.stream
    }
}
