//! Lines as their bytes come in, and the replies to them.
ghost use Rattle.std.specs.Prelude.{◌≡◌, ◌++◌, ◌∷◌, [], true, false, is_err, OnOk, OnErr};
ghost use Rattle.iref_batch.specs.{Lines.{newline}, Runs.{memory_refused, with_newline, AnswersAll}};
ghost use Rattle.iref_batch.specs.Gathering.{Cuts, Lacks, Writes, SeesSameLines, BreaksOff};
ghost use Rattle.iref_batch.specs.Gathering.{WritesPart, Replies, RepliesPart, IsNothing, Holds, InRun, SeesMore};
ghost use Rattle.iref.specs.{Rules.{Text}, Texts.{is_empty}};

use super::answers::answer_line;
use super::buffer::{GATHERED, empty};
use super::streams::{Sink, StreamError};
use memchr::memchr;
use std::alloc::Global;

/// What stands before the first delimiter in the text, and what stands after it.
#[inline(always)]
pub fn cut_at(mark: u8, text: &[u8]) -> Option<(&[u8], &[u8])>
    ensures { Cuts mark text.now result }
{
    let at = memchr(mark, text)?;
    Some((&text[..at], &text[at + 1..]))
}

/// Writes all of the bytes, or a beginning of them before a failed write.
fn write_all<W: Sink>(writer: &mut W, bytes: &[u8]) -> Result<(), StreamError>
    requires { W.has_failed writer.old ≡ false }
    ensures failed { W.has_failed writer.new ≡ is_err result }
    ensures ok { OnOk result
        (Writes bytes.now (W.contents writer.old) (W.contents writer.new)) }
    ensures cut { OnErr result
        (WritesPart bytes.now (W.contents writer.old) (W.contents writer.new)) }
{
    let mut rest = bytes;
    while !rest.is_empty() {
        let n = writer.write(rest)?;
        rest = &rest[n..];
    }
    Ok(())
}

/// The replies that are not yet written.
#[derive(Drop)]
pub struct Gathered {
    pub bytes: Vec<u8>,
}

impl Gathered {
    /// Writes the replies gathered.
    pub fn flush<W: Sink>(&mut self, writer: &mut W) -> Result<(), StreamError>
        requires { W.has_failed writer.old ≡ false }
        ensures failed { W.has_failed writer.new ≡ is_err result }
        ensures empty { OnOk result (self.new.bytes.items ≡ []) }
        ensures ok { OnOk result
            (Writes self.old.bytes.items (W.contents writer.old) (W.contents writer.new)) }
        ensures cut { OnErr result
            (WritesPart self.old.bytes.items (W.contents writer.old) (W.contents writer.new)) }
    {
        write_all(writer, self.bytes.as_slice())?;
        empty(&mut self.bytes);
        Ok(())
    }

    /// Replies that memory was refused.
    fn refuse<W: Sink>(&mut self, writer: &mut W) -> Result<(), StreamError>
        requires { W.has_failed writer.old ≡ false }
        ensures failed { W.has_failed writer.new ≡ is_err result }
        ensures empty { OnOk result (self.new.bytes.items ≡ []) }
        ensures ok { OnOk result (Writes (self.old.bytes.items ++ with_newline memory_refused)
            (W.contents writer.old) (W.contents writer.new)) }
        ensures cut { OnErr result (WritesPart (self.old.bytes.items ++ with_newline memory_refused)
            (W.contents writer.old) (W.contents writer.new)) }
    {
        self.flush(writer)?;
        write_all(writer, b"error memory\n")?;
        Ok(())
    }

    /// Replies to the line.
    fn reply<W: Sink>(&mut self, line: &[u8], writer: &mut W) -> Result<(), StreamError>
        requires { W.has_failed writer.old ≡ false }
        ensures failed { W.has_failed writer.new ≡ is_err result }
        ensures ok { OnOk result (Replies line.now (W.contents writer.old) (W.contents writer.new)
            self.old.bytes.items self.new.bytes.items) }
        ensures cut { OnErr result (RepliesPart line.now
            (W.contents writer.old) (W.contents writer.new) self.old.bytes.items) }
    {
        let Ok(()) = answer_line(line, &mut self.bytes) else {
            self.refuse(writer)?;
            return Ok(());
        };
        if self.bytes.len() >= GATHERED {
            self.flush(writer)?;
        }
        Ok(())
    }
}

/// The line begun: its bytes, unless memory was refused for them.
#[derive(Drop)]
pub struct Begun {
    pub bytes: Vec<u8>,
    pub is_refused: bool,
}

impl Begun {
    /// No byte came in.
    pub fn new(alloc: Global) -> Self
        ensures { IsNothing result }
    {
        Begun {
            bytes: Vec::new(alloc),
            is_refused: false,
        }
    }

    /// No byte of a line came in.
    pub fn is_empty(&self) -> bool
        ensures nothing { result ≡ true → IsNothing self.now }
        ensures some { result ≡ false → self.now.is_refused ≡ false →
            is_empty self.now.bytes.items ≡ false }
    {
        !self.is_refused && self.bytes.as_slice().is_empty()
    }

    /// Keeps more bytes of the line.
    pub fn keep(&mut self, more: &[u8])
        ensures works { self.new.is_refused ≡ false → self.old.is_refused ≡ false }
        ensures kept { self.new.is_refused ≡ false →
            self.new.bytes.items ≡ self.old.bytes.items ++ more.now }
        ensures some { self.new.is_refused ≡ true → is_empty more.now ≡ true →
            self.old.is_refused ≡ true }
    {
        if more.is_empty() || self.is_refused {
            return;
        }
        if self.bytes.extend_from_slice(more).is_err() {
            empty(&mut self.bytes);
            self.is_refused = true;
        }
    }
}

/// A run as far as it has come.
#[derive(Drop)]
pub struct Lines {
    pub begun: Begun,
    pub gathered: Gathered,
}

impl Lines {
    /// A run that has read nothing.
    pub fn new(alloc: Global) -> Self
        ensures begun { IsNothing result.begun }
        ensures gathered { result.gathered.bytes.items ≡ [] }
    {
        Lines {
            begun: Begun::new(alloc),
            gathered: Gathered {
                bytes: Vec::new(alloc),
            },
        }
    }

    /// Replies to the line whose last bytes are `tail`.
    #[inline(always)]
    fn reply<W: Sink>(&mut self, tail: &[u8], writer: &mut W) -> Result<(), StreamError>
        requires { W.has_failed writer.old ≡ false }
        ensures failed { W.has_failed writer.new ≡ is_err result }
        ensures ok { OnOk result ((line : Text) → Holds self.old.begun line →
            Replies (line ++ tail.now) (W.contents writer.old) (W.contents writer.new)
            self.old.gathered.bytes.items self.new.gathered.bytes.items) }
        ensures cut { OnErr result ((line : Text) → Holds self.old.begun line →
            RepliesPart (line ++ tail.now) (W.contents writer.old) (W.contents writer.new)
            self.old.gathered.bytes.items) }
    {
        if self.begun.is_empty() {
            self.gathered.reply(tail, writer)?;
            return Ok(());
        }
        self.begun.keep(tail);
        if self.begun.is_refused {
            self.gathered.refuse(writer)?;
        } else {
            self.gathered.reply(self.begun.bytes.as_slice(), writer)?;
        }
        Ok(())
    }

    /// Replies to the line whose last bytes are `tail`, and begins the next.
    #[inline(always)]
    fn end_line<W: Sink>(&mut self, tail: &[u8], writer: &mut W) -> Result<(), StreamError>
        requires line { Lacks newline tail.now }
        requires works { W.has_failed writer.old ≡ false }
        ensures failed { W.has_failed writer.new ≡ is_err result }
        ensures begun { OnOk result (IsNothing self.new.begun) }
        ensures ok { OnOk result (SeesMore (with_newline tail.now)
            (W.contents writer.old) (W.contents writer.new) self.old self.new) }
        ensures cut { OnErr result ((others : Text) → BreaksOff (tail.now ++ newline ∷ others)
            (W.contents writer.old) (W.contents writer.new) self.old) }
    {
        self.reply(tail, writer)?;
        empty(&mut self.begun.bytes);
        self.begun.is_refused = false;
        Ok(())
    }

    /// Takes the next bytes of the input, and writes the answer to each line that ends there.
    pub fn take<W: Sink>(&mut self, block: &[u8], writer: &mut W) -> Result<(), StreamError>
        requires { W.has_failed writer.old ≡ false }
        ensures failed { W.has_failed writer.new ≡ is_err result }
        ensures gathered { OnOk result (self.new.gathered.bytes.items ≡ []) }
        ensures ok { OnOk result (SeesMore block.now
            (W.contents writer.old) (W.contents writer.new) self.old self.new) }
        ensures cut { OnErr result ((others : Text) → BreaksOff (block.now ++ others)
            (W.contents writer.old) (W.contents writer.new) self.old) }
    {
        let mut rest = block;
        while let Some((tail, more)) = cut_at(b'\n', rest) {
            self.end_line(tail, writer)?;
            rest = more;
        }
        self.begun.keep(rest);
        self.gathered.flush(writer)?;
        Ok(())
    }

    /// Replies to the last line, if it is not empty.
    fn end_last<W: Sink>(&mut self, writer: &mut W) -> Result<(), StreamError>
        requires { W.has_failed writer.old ≡ false }
        ensures failed { W.has_failed writer.new ≡ is_err result }
        ensures begun { OnOk result (IsNothing self.new.begun) }
        ensures ok { OnOk result (SeesSameLines
            (W.contents writer.old) (W.contents writer.new) self.old self.new) }
        ensures cut { OnErr result (BreaksOff []
            (W.contents writer.old) (W.contents writer.new) self.old) }
    {
        if self.begun.is_empty() {
            return Ok(());
        }
        self.end_line(&[], writer)?;
        Ok(())
    }

    /// Replies to the last line, if it is not empty, and writes the replies.
    pub fn end<W: Sink>(&mut self, writer: &mut W) -> Result<(), StreamError>
        requires { W.has_failed writer.old ≡ false }
        ensures failed { W.has_failed writer.new ≡ is_err result }
        ensures ok { OnOk result ((seen before : Text) →
            InRun seen before (W.contents writer.old) self.old →
            AnswersAll seen before (W.contents writer.new)) }
        ensures cut { OnErr result (BreaksOff []
            (W.contents writer.old) (W.contents writer.new) self.old) }
    {
        self.end_last(writer)?;
        self.gathered.flush(writer)?;
        Ok(())
    }
}
