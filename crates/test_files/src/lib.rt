//! Tests of disks over files: what the system's own calls do, also where they are short, are interrupted or fail; and of devices in memory.
#![tactic(auto)]

#[cfg(test)]
mod devices;
#[cfg(test)]
mod disks;
#[cfg(test)]
mod names;
