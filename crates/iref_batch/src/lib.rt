//! The lines of the program: each line read is answered by a line; with the laws about the answers, and
//! what the command `iref` needs of buffers, columns and its status.
#![tactic(auto)]

ghost use Rattle.std.specs.Prelude.{◌≡◌, Some, true, false, OnOk, OnErr};
ghost use Rattle.iref.specs.Rules.{Text};
ghost use Rattle.iref_batch.specs.Runs.{AnswersBegun, EndsWell, EndsEarly};

mod answers;
pub mod buffer;
pub mod columns;
mod edit_fields;
pub mod line_laws;
mod lines;
mod request;
pub mod run_laws;
pub mod status;
mod streams;

use lines::Lines;
pub use lines::{Begun, cut_at};
use std::alloc::Global;
pub use streams::{FromStd, Sink, Source, StreamError};
use thiserror::Error;

/// A read or a write failed, or `u64::MAX` reads met no end. It is printed as `a read or a write
/// failed, or the input has no end`.
#[derive(Debug, Drop, Error)]
#[error("a read or a write failed, or the input has no end")]
pub struct RunError;

impl From<StreamError> for RunError {
    fn from(_error: StreamError) -> RunError {
        RunError
    }
}

/// How many bytes are asked for at once.
pub const BLOCK: usize = 1 << 16;

/// Answers each line of the reader's input by a line to the writer, up to the end of the input.
/// A line for which memory is refused is answered `error memory`, and the run goes on.
pub fn run<R: Source, W: Sink>(
    alloc: Global,
    reader: &mut R,
    writer: &mut W,
) -> Result<(), RunError>
    requires reader { R.has_failed reader.old ≡ false }
    requires writer { W.has_failed writer.old ≡ false }
    ensures reader_works { OnOk result (R.has_failed reader.new ≡ false) }
    ensures writer_works { OnOk result (W.has_failed writer.new ≡ false) }
    ensures ok { OnOk result ((input before : Text) →
        R.remaining reader.old ≡ Some input → W.contents writer.old ≡ Some before →
        EndsWell input before (R.remaining reader.new) (W.contents writer.new)) }
    ensures reader_ends { OnErr result (W.has_failed writer.new ≡ false →
        (input before : Text) →
        R.remaining reader.old ≡ Some input → W.contents writer.old ≡ Some before →
        EndsEarly input before (R.has_failed reader.new) (R.remaining reader.new)
        (W.contents writer.new)) }
    ensures writer_fails { OnErr result (W.has_failed writer.new ≡ true →
        (input before : Text) →
        R.remaining reader.old ≡ Some input → W.contents writer.old ≡ Some before →
        AnswersBegun input before (W.contents writer.new)) }
{
    let mut lines = Lines::new(alloc);
    let mut block = [0u8; BLOCK];
    for _reads in 0..u64::MAX {
        let n = reader.read(&mut block)?;
        if n == 0 {
            lines.end(writer)?;
            return Ok(());
        }
        lines.take(&block[..n], writer)?;
    }
    Err(RunError)
}
