/// Is told how far a new file is written.
pub trait Watch {
    /// So many bytes of the whole are written.
    fn tell(&mut self, done: u64, whole: u64);

    /// No more is written, be it since all is there or since it failed.
    fn end(&mut self);
}
