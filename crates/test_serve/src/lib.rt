//! Tests of servers over devices in memory: clients at the same time, the workers beside them, and how a server ends.
#![tactic(auto)]

#[cfg(test)]
mod clients;
#[cfg(test)]
mod ends;
#[cfg(test)]
mod jobs;
#[cfg(test)]
mod nudges;
#[cfg(test)]
mod peers;
#[cfg(test)]
mod workers;
