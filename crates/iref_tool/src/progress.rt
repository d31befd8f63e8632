//! How far the input is read, on a terminal.

use iref_batch::status::percent;
use std::io::Write;

/// Input of fewer bytes than these is soon read, and nothing is said of it.
pub const LONG: u64 = 1 << 24;

/// A line that says how far the input is read, and is written over where it changes: `iref: 42%`.
#[derive(Drop)]
pub struct Progress<E> {
    err: E,
    read: u64,
    // How many bytes are to be read, if this is to be said.
    whole: Option<u64>,
    // What the terminal shows now.
    shown: Option<u64>,
}

impl<E: Write> Progress<E> {
    /// Nothing is read yet. `whole` is how many bytes there are, or None where nothing is to be said.
    pub fn new(err: E, whole: Option<u64>) -> Self {
        Progress {
            err,
            read: 0,
            whole,
            shown: None,
        }
    }

    /// So many bytes more are read. Says how far the input is read, unless the terminal shows it.
    pub fn advance(&mut self, bytes: usize) {
        self.read = self.read.saturating_add(bytes as u64);
        let Some(whole) = self.whole else {
            return;
        };
        let percent = percent(self.read, whole);
        if self.shown != Some(percent) {
            let _ = write!(self.err, "\riref: {percent}%");
            self.shown = Some(percent);
        }
    }

    /// Makes the line empty, so that another may be written in its place.
    pub fn hide(&mut self) {
        if self.shown.is_some() {
            let _ = self.err.write_all(b"\r          \r");
            self.shown = None;
        }
    }
}
