mod devices;
mod sessions;
mod stores;
