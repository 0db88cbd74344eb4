// How a run ends.
ghost use Rattle.std.specs.Prelude.{◌≡◌};
ghost use Rattle.model_node.specs.Notes.{refusal_note};
ghost use Rattle.model_node.specs.RunEnd.{status_of, note_of, refusal_of};

use crate::note::Note;
use block_format::Geometry;

/// Why a device isn't taken into use, for what its disk reads.
#[derive(Clone, Copy, PartialEq, Eq)]
pub enum DeviceRefusal {
    /// Its first 4,096 bytes aren't a header, or aren't there. The first 64 are told, with zeros past the disk's end.
    NotFormatted {
        first: [u8; 64],
    },
    /// Its header is of another device than the one that was asked for, or the disk is shorter than the header says: what
    /// the header says, what was asked for, and how many bytes the disk has.
    OtherGeometry {
        kept: Geometry,
        device: u16,
        devices: u16,
        len: u64,
    },
    /// This block is open, and its body has its first fault at this place.
    DamagedBlock {
        block: u32,
        place: u32,
    },
}

impl DeviceRefusal {
    // The note on a device that isn't taken into use for this.
    fn note(&self, device: u16) -> Note
        ensures { result ≡ refusal_note device (refusal_of self.now) }
    {
        match self {
            DeviceRefusal::NotFormatted { first } => Note::not_formatted(device, first),
            DeviceRefusal::OtherGeometry {
                kept,
                device: asked,
                devices,
                len,
            } => Note::other_geometry(device, *kept, *asked, *devices, *len),
            DeviceRefusal::DamagedBlock { block, place } => Note::damaged_block(
                device, *block, *place,
            ),
        }
    }
}

/// How a run ended. What has to hold where it ended so, its cause, stands with its status and its note in `specs/RunEnd.antt`.
#[derive(Clone, Copy, PartialEq, Eq)]
pub enum RunEnd {
    /// All went well: of a run the input was served to its end or to `quit`, and nothing is pending.
    Served,
    /// The words weren't accepted.
    WordsRefused,
    /// The disk of this device failed, at a start or a restart, in a check, in the closing flush, or as it was formatted.
    DeviceFault { device: u16 },
    /// Reading the input failed.
    SourceFault,
    /// Handing on a reply failed.
    SinkFault,
    /// No further link could be had from the door of a server.
    DoorFault,
    /// There was no memory, outside of a line's work.
    NoMemory,
    /// This device wasn't taken into use, for what its disk reads.
    DeviceRefused { device: u16, why: DeviceRefusal },
    /// The disk of this device has too few bytes to be formatted in the shape that was asked for: it has `len`.
    DeviceShort { device: u16, len: u64 },
    /// As many bytes as a run may take were taken, without the end or `quit` among them.
    InputTooLong,
}

impl RunEnd {
    /// The status that a program ends with, 0 where all went well.
    pub fn status(&self) -> u8
        ensures { result ≡ status_of self.now }
    {
        match self {
            RunEnd::Served => 0,
            RunEnd::WordsRefused => 2,
            RunEnd::DeviceFault { .. } => 3,
            RunEnd::SourceFault => 4,
            RunEnd::SinkFault => 5,
            RunEnd::NoMemory => 6,
            RunEnd::DeviceRefused { .. } | RunEnd::DeviceShort { .. } => 7,
            RunEnd::DoorFault => 8,
            RunEnd::InputTooLong => 10,
        }
    }

    /// The note that goes with the status; it has no bytes at 0.
    pub fn note(&self) -> Note
        ensures { result ≡ note_of self.now }
    {
        match self {
            RunEnd::Served => Note::of(""),
            RunEnd::WordsRefused => Note::of("words refused"),
            RunEnd::DeviceFault { device } => Note::on_device(*device, "fault"),
            RunEnd::SourceFault => Note::of("source fault"),
            RunEnd::SinkFault => Note::of("sink fault"),
            RunEnd::NoMemory => Note::of("no memory"),
            RunEnd::DeviceRefused { device, why } => why.note(*device),
            RunEnd::DeviceShort { device, len } => Note::short(*device, *len),
            RunEnd::DoorFault => Note::of("door fault"),
            RunEnd::InputTooLong => Note::of("input too long"),
        }
    }
}
