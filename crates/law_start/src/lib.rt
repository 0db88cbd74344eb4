//! What a start makes of an image and which images a crash may leave, as laws of the definitions: a device stands for a start from
//! its sound image, and a put keeps every image within what its states allow. The crate has no code.
#![tactic(auto)]
