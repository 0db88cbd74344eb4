mod arenas;
mod counters;
mod piles;
