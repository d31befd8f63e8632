//! Where lines come from, and where replies go.
ghost use Rattle.std.specs.Prelude.{◌≡◌, ◌<◌, ◌≤◌, ◌||◌, List, ℕ, Option, Bool, length, false, IfOk, is_err};
ghost use Rattle.std.specs.{Prelude.{Some, IfSome, OnOk, MatchResult}, Fmt.{with_newline}, Option.{option_copied}};
ghost use Rattle.std.specs.Io.KnownBytes.{Appends, Keeps, ReadConsumes, WriteAppends};

use std::fmt::Display;
use std::io::{self, ErrorKind, Read, Write};
use thiserror::Error;

/// A read or a write failed: what a `Source` or a `Sink` returns then, whatever the cause. `run` makes
/// a `RunError` of it. It is printed as `a read or a write failed`.
#[derive(Debug, Drop, Error)]
#[error("a read or a write failed")]
pub struct StreamError;

/// A reader that is not called again once a call has failed, an interrupted one too.
pub trait Source {
    /// The bytes that further reads return, where they are known.
    ghost remaining: { Self → Option (List ℕ) };

    /// A call has failed.
    ghost has_failed: { Self → Bool };

    /// Reads some bytes into `buf` and returns how many; none, if `buf` has room, at the end of the
    /// input.
    fn read(&mut self, buf: &mut [u8]) -> Result<usize, StreamError>
        requires { has_failed self.old ≡ false }
        ensures bound { IfOk result (λ n. n ≤ length buf.new) }
        ensures bytes { ReadConsumes (remaining self.old) (remaining self.new) result buf.new }
        ensures failed { has_failed self.new ≡ is_err result };
}

/// A writer that is not called again once a call has failed, an interrupted one too.
pub trait Sink {
    /// The bytes that were written, where they are known.
    ghost contents: { Self → Option (List ℕ) };

    /// A call has failed.
    ghost has_failed: { Self → Bool };

    /// Writes a beginning of `bytes` and returns its length, at least 1 if there are any.
    fn write(&mut self, bytes: &[u8]) -> Result<usize, StreamError>
        requires { has_failed self.old ≡ false }
        ensures bound { IfOk result (λ n. n ≤ length bytes.now) }
        ensures some { IfOk result (λ n. 0 < length bytes.now → 0 < n) }
        ensures bytes { WriteAppends (contents self.old) (contents self.new) result bytes.now }
        ensures failed { has_failed self.new ≡ is_err result };
}

/// A reader or writer of std, with why a call of it has failed.
#[derive(Debug, Drop)]
pub struct FromStd<X> {
    inner: X,
    failure: Option<io::Error>,
}

impl<X> FromStd<X> {
    ghost use Rattle.iref_batch.specs.StdStreams.{inner_of, failure_of, has_failed};

    /// The reader or writer, with no failed call so far.
    pub fn new(inner: X) -> Self
        ensures same { inner_of result ≡ inner }
        ensures works { has_failed result ≡ false }
    {
        FromStd {
            inner,
            failure: None,
        }
    }

    /// Whether a call has failed: after a `RunError` this separates the reader's failure from the
    /// writer's.
    pub fn has_failed(&self) -> bool
        ensures { result ≡ has_failed self.now }
    {
        self.failure.is_some()
    }

    /// Why a call has failed, if one has.
    pub fn failure(&self) -> Option<&io::Error>
        ensures { option_copied result ≡ failure_of self.now }
    {
        self.failure.as_ref()
    }

    /// The reader or writer as it is now.
    pub fn into_inner(self) -> X
        ensures { result ≡ inner_of self }
    {
        let FromStd { inner, .. } = self;
        inner
    }

    // Keeps why a call has failed.
    fn keep(&mut self, error: io::Error) -> StreamError
        ensures failure { failure_of self.new ≡ Some error }
        ensures same { inner_of self.new ≡ inner_of self.old }
    {
        self.failure = Some(error);
        StreamError
    }
}

impl<W: Write> FromStd<W> {
    ghost use Rattle.iref_batch.specs.StdStreams.{inner_of, failure_of, has_failed};

    /// Writes a line at once. After an error a beginning of it may stand there.
    pub fn print<T: Display>(&mut self, line: &T) -> Result<(), StreamError>
        ensures failed { has_failed self.new ≡ has_failed self.old || is_err result }
        ensures ok { OnOk result (IfSome (with_newline (T.output line.now))
            (Appends (W.contents (inner_of self.old)) (W.contents (inner_of self.new)))) }
    {
        let done = writeln!(self.inner, "{line}");
        self.ended(done)
    }

    /// Writes all of the bytes. After an error a beginning of them may stand there.
    pub fn put(&mut self, bytes: &[u8]) -> Result<(), StreamError>
        ensures failed { has_failed self.new ≡ has_failed self.old || is_err result }
        ensures ok { OnOk result
            (Appends (W.contents (inner_of self.old)) (W.contents (inner_of self.new)) bytes.now) }
    {
        let done = self.inner.write_all(bytes);
        self.ended(done)
    }

    /// Writes what the writer keeps. How much it keeps, no contract of std says.
    pub fn flush(&mut self) -> Result<(), StreamError>
        ensures failed { has_failed self.new ≡ has_failed self.old || is_err result }
        ensures same { Keeps (W.contents (inner_of self.old)) (W.contents (inner_of self.new)) }
    {
        let done = self.inner.flush();
        self.ended(done)
    }

    // Keeps why a call has failed, if it has.
    fn ended(&mut self, done: io::Result<()>) -> Result<(), StreamError>
        ensures failure { MatchResult done (λ _. failure_of self.new ≡ failure_of self.old)
            (λ error. failure_of self.new ≡ Some error) }
        ensures same { inner_of self.new ≡ inner_of self.old }
        ensures done { is_err result ≡ is_err done }
    {
        match done {
            Ok(()) => Ok(()),
            Err(error) => Err(self.keep(error)),
        }
    }
}

impl<R: Read> Source for FromStd<R> {
    ghost use Rattle.iref_batch.specs.StdStreams.{inner_of, has_failed};

    ghost remaining = { λ s. R.remaining (inner_of s) };

    ghost has_failed = { has_failed };

    fn read(&mut self, buf: &mut [u8]) -> Result<usize, StreamError> {
        match self.inner.read(buf) {
            Ok(n) => Ok(n),
            Err(error) => Err(self.keep(error)),
        }
    }
}

impl<W: Write> Sink for FromStd<W> {
    ghost use Rattle.iref_batch.specs.StdStreams.{inner_of, has_failed};

    ghost contents = { λ s. W.contents (inner_of s) };

    ghost has_failed = { has_failed };

    /// A write that takes no byte of some has failed.
    fn write(&mut self, bytes: &[u8]) -> Result<usize, StreamError> {
        match self.inner.write(bytes) {
            Ok(n) if n > 0 || bytes.is_empty() => Ok(n),
            Ok(_) => Err(self.keep(io::Error::from(ErrorKind::WriteZero))),
            Err(error) => Err(self.keep(error)),
        }
    }
}
