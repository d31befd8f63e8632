//! One number for all results of a job.
use std::hash::{FoldHasher, Hasher};

/// The results so far.
#[derive(Drop)]
pub struct Digest {
    hasher: FoldHasher,
}

impl Digest {
    /// No result.
    pub fn new() -> Self {
        Digest {
            hasher: FoldHasher::default(),
        }
    }

    /// Adds a text.
    pub fn text(&mut self, text: &str) {
        self.hasher.write(text.as_bytes());
    }

    /// Adds a number.
    pub fn number(&mut self, number: u64) {
        self.hasher.write_u64(number);
    }

    /// The number for all of them.
    pub fn finish(&self) -> u64 {
        self.hasher.finish()
    }
}
