// What has to be opened or made before a list of words is carried out.
ghost use Rattle.std.specs.Prelude.{◌≡◌, ◌↔◌, map, string_bytes, Some, IfOk};
ghost use Rattle.node_words.specs.Planned.{IsPlanned};
ghost use Rattle.node_words.specs.declared.plan.Plan.{Plan};
ghost use Rattle.node_words.specs.Planning.{file_length, made_length, serving_of};

use crate::names::Names;
use crate::request::read_words;
use crate::{Job, NoMemory, Serving, Shape};
use std::alloc::Global;

// Bytes of the header of a device.
const HEADER_BYTES: u64 = 4_096;

impl Shape {
    /// How many bytes a device of this shape has: its header and its blocks.
    pub fn file_length(&self) -> u64
        ensures { result ≡ file_length self.now }
    {
        HEADER_BYTES + u64::from(self.blocks) * u64::from(self.block_size)
    }
}

impl Job {
    /// How many bytes each device has, where the job makes them; else none.
    pub fn made_length(&self) -> Option<u64>
        ensures { result ≡ made_length self.now }
    {
        match self {
            Job::Format(shape) | Job::Generate { shape, .. } => Some(shape.file_length()),
            Job::Run(_) | Job::Serve { .. } | Job::Check | Job::Audit => None,
        }
    }

    /// How connections are served, and the defaults where the job serves none.
    pub fn serving(&self) -> Serving
        ensures { result ≡ serving_of self.now }
    {
        match self {
            Job::Serve { serving, .. } => *serving,
            Job::Format(_) | Job::Run(_) | Job::Check | Job::Audit | Job::Generate { .. } => {
                Serving::default()
            }
        }
    }
}

/// What has to be opened or made before an accepted list is carried out: devices, and of `serve` what connections come through. A job that
/// serves none has the defaults of `serve` there.
#[derive(Drop)]
pub struct Plan {
    /// The names of the devices.
    pub names: Names,
    /// The bytes of each device, where the job makes them.
    pub make_len: Option<u64>,
    /// The port at which connections are taken, 1 to 65,535.
    pub port: u16,
    /// How many connections are served before the end, at most 1,000,000; 0 is without end.
    pub links: u32,
    /// The seconds after which a connection that sends nothing is closed, at most 86,400; 0 is never.
    pub idle: u32,
}

/// At `Ok` what has to be opened or made before these words are carried out; none exactly where they aren't accepted. Nothing
/// is opened or made. An `Err` is want of memory.
pub fn names_of(alloc: Global, words: &[String]) -> Result<Option<Plan>, NoMemory>
    ensures { IfOk result (λ read. (plan : Plan) → (read ≡ Some plan) ↔ IsPlanned (map string_bytes words.now) plan) }
{
    let Some(request) = read_words(words) else {
        return Ok(None);
    };
    let serving = request.job.serving();
    Ok(Some(Plan {
        names: Names::copied(alloc, request.names)?,
        make_len: request.job.made_length(),
        port: serving.port,
        links: serving.links,
        idle: serving.idle,
    }))
}
