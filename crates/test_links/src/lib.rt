//! Tests of links, doors, workers and servers: sessions over connections of this machine, halts of these, workers that rest until they are told to end, and all threads of a server.
#![tactic(auto)]

#[cfg(test)]
mod connections;
#[cfg(test)]
mod doors;
#[cfg(test)]
mod nudges;
#[cfg(test)]
mod serving;
#[cfg(test)]
mod workers;
