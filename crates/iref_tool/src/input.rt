//! The lines of an input, one at a time. Only LF ends a line; a last one without it counts unless it
//! is empty.
ghost use Rattle.std.specs.Prelude.{◌≡◌, List, [], ◌∷◌, ◌++◌, Option, Some, None, OnErr, OnOk};
ghost use Rattle.iref.specs.Rules.{Text};
ghost use Rattle.iref_batch.specs.{Gathering.{IsNothing}, Lines.{lines_of}};
ghost use Rattle.iref_tool.specs.Streams.{GivesAll, GivesBeginning, GivesLine, GivesLines, InInput, OnReadError};
ghost use Rattle.iref_tool.specs.Streams.{OnWriteError, ReadsMore};
ghost use Rattle.iref_tool.specs.declared.input.Failure.TheVariants as why;

use iref_batch::buffer::empty;
use iref_batch::{BLOCK, Begun, StreamError, cut_at};
use std::alloc::Global;
use std::io::{self, ErrorKind, Read};

/// What lines are given to.
pub trait TakesLines {
    /// It was given these lines; where memory was refused for one, `None` stands for it.
    ghost given: { Self → List (Option Text) → Self → Type 0 };

    /// What it has to write is written.
    ghost is_settled: { Self → Type 0 };

    /// A write has failed.
    ghost has_failed: { Self → Type 0 };

    /// Takes a line, without its LF.
    fn take(&mut self, line: &[u8]) -> Result<(), StreamError>
        ensures line { OnOk result (given self.old (Some line.now ∷ []) self.new) }
        ensures failed { OnErr result (has_failed self.new) };

    /// Takes note of a line for which memory was refused.
    fn refuse(&mut self) -> Result<(), StreamError>
        ensures line { OnOk result (given self.old (None ∷ []) self.new) }
        ensures failed { OnErr result (has_failed self.new) };

    /// Writes what is gathered, before more is read. `bytes` were read since the last call.
    fn pause(&mut self, bytes: usize) -> Result<(), StreamError>
        ensures no_line { OnOk result (given self.old [] self.new) }
        ensures settled { OnOk result (is_settled self.new) }
        ensures failed { OnErr result (has_failed self.new) };

    /// Makes room on a terminal for a message.
    fn make_room(&mut self)
        ensures no_line { given self.old [] self.new }
        ensures settled { is_settled self.old → is_settled self.new }
        ensures failed { has_failed self.old → has_failed self.new };

    /// It was given no line where nothing changed.
    ghost given_none: { (s : Self) → given s [] s };

    /// Where it was given lines and then others, it was given them all.
    ghost given_more: { (old mid new : Self) (lines others : List (Option Text))
        → given old lines mid → given mid others new → given old (lines ++ others) new };
}

/// Why lines were not read to the end.
#[derive(Drop)]
pub enum Failure {
    /// A read failed.
    Read(io::Error),
    /// A write failed.
    Write,
}

impl From<StreamError> for Failure {
    ghost from_gives = { λ _ failure. failure ≡ why.Write };

    fn from(_error: StreamError) -> Self {
        Failure::Write
    }
}

impl From<io::Error> for Failure {
    ghost from_gives = { λ error failure. failure ≡ why.Read error };

    fn from(error: io::Error) -> Self {
        Failure::Read(error)
    }
}

// Gives away the line that ends with these bytes, and begins the next.
fn end_line<T: TakesLines>(begun: &mut Begun, tail: &[u8], to: &mut T) -> Result<(), StreamError>
    ensures begun { IsNothing begun.new }
    ensures line { OnOk result (GivesLine T.given begun.old tail.now to.old to.new) }
    ensures failed { OnErr result (T.has_failed to.new) }
{
    if begun.is_empty() {
        return to.take(tail);
    }
    begun.keep(tail);
    let given = if begun.is_refused {
        to.refuse()
    } else {
        to.take(begun.bytes.as_slice())
    };
    begun.is_refused = false;
    empty(&mut begun.bytes);
    given
}

// Gives away each line that ends in the block.
fn take_block<T: TakesLines>(begun: &mut Begun, block: &[u8], to: &mut T) -> Result<(), StreamError>
    ensures more { OnOk result (ReadsMore T.given block.now begun.old begun.new to.old to.new) }
    ensures failed { OnErr result (T.has_failed to.new) }
{
    let mut rest = block;
    while let Some((tail, more)) = cut_at(b'\n', rest) {
        end_line(begun, tail, to)?;
        rest = more;
    }
    begun.keep(rest);
    Ok(())
}

// Gives away the last line, if it is not empty.
fn end_input<T: TakesLines>(begun: &mut Begun, to: &mut T) -> Result<(), StreamError>
    ensures lines { OnOk result ((seen : Text) (first : _) →
        InInput T.given seen begun.old first to.old →
        GivesLines T.given (lines_of seen) first to.new) }
    ensures settled { OnOk result (T.is_settled to.new) }
    ensures failed { OnErr result (T.has_failed to.new) }
{
    if begun.is_empty() {
        return to.pause(0);
    }
    end_line(begun, &[], to)?;
    to.pause(0)
}

/// Gives each line of the input away, up to its end. Where a read fails, the lines that end before
/// have been given away.
pub fn each_line<R: Read, T: TakesLines>(
    alloc: Global,
    reader: &mut R,
    to: &mut T,
) -> Result<(), Failure>
    ensures lines { OnOk result (GivesAll T.given
        (R.remaining reader.old) (R.remaining reader.new) to.old to.new) }
    ensures settled { OnOk result (T.is_settled to.new) }
    ensures cut { OnReadError result (GivesBeginning T.given
        (R.remaining reader.old) (R.remaining reader.new) to.old to.new) }
    ensures cut_settled { OnReadError result (T.is_settled to.old → T.is_settled to.new) }
    ensures failed { OnWriteError result (T.has_failed to.new) }
{
    let mut begun = Begun::new(alloc);
    let mut block = [0u8; BLOCK];
    for _reads in 0..u64::MAX {
        let n = reader.read(&mut block)?;
        if n == 0 {
            return Ok(end_input(&mut begun, to)?);
        }
        take_block(&mut begun, &block[..n], to)?;
        to.pause(n)?;
    }
    Err(Failure::Read(io::Error::from(ErrorKind::FileTooLarge)))
}
