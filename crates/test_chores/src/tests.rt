mod defrags;
mod devices;
mod expiries;
mod flushes;
mod raids;
mod workers;
