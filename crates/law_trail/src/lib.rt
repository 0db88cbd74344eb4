//! The trail of kept blocks: from the live copy of a digest back over the copies that it replaced, whose blocks are held until the
//! buffers that replace them are flushed. Laws of the definitions; the crate has no code.
#![tactic(auto)]
