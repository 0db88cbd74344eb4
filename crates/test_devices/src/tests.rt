mod calls;
mod devices;
pub mod mixed;
mod order_trials;
mod orders;
mod passes;
mod reads;
