//! The lines of `iref_cli` and those of the examples, each answered by a line.
ghost use Rattle.std.specs.Prelude.{◌≡◌, true, [], ◌∷◌, Option, Some, OnOk};
ghost use Rattle.iref.specs.Rules.{Text};
ghost use Rattle.iref_batch.specs.StdStreams.{inner_of};
ghost use Rattle.iref_tool.specs.{Examples.{is_of_examples}, LineRuns.{AnswersLines, IsReplyTo}};
ghost use Rattle.iref_tool.specs.LineRunLaws.{AnswersLines-both, AnswersLines-nothing};

use crate::examples::{Tables, answer, is_of_examples};
use crate::input::TakesLines;
use crate::progress::Progress;
use iref::Memory;
use iref_batch::buffer::{GATHERED, empty, push_line};
use iref_batch::{FromStd, StreamError, run};
use std::alloc::Global;
use std::io::Write;

/// A run as far as it has come.
#[derive(Drop)]
pub struct Lines<W, E> {
    /// Where answers go.
    pub out: FromStd<W>,
    /// Answers that are not written yet.
    pub answers: Vec<u8>,
    /// The lines after those, which `iref_cli` is to answer.
    pub asked: Vec<u8>,
    alloc: Global,
    tables: Tables,
    progress: Progress<E>,
}

impl<W: Write, E: Write> Lines<W, E> {
    /// Before the first line.
    pub fn new(alloc: Global, tables: Tables, out: W, progress: Progress<E>) -> Self
        ensures out { inner_of result.out ≡ out }
        ensures answers { result.answers.items ≡ [] }
        ensures asked { result.asked.items ≡ [] }
    {
        Lines {
            out: FromStd::new(out),
            answers: Vec::new(alloc),
            asked: Vec::new(alloc),
            alloc,
            tables,
            progress,
        }
    }

    // Writes the answers, and answers the lines that are asked.
    fn settle(&mut self) -> Result<(), StreamError>
        ensures answers { OnOk result (self.new.answers.items ≡ []) }
        ensures asked { OnOk result (self.new.asked.items ≡ []) }
        ensures lines { OnOk result (AnswersLines W.contents self.old [] self.new) }
    {
        self.progress.hide();
        self.out.put(self.answers.as_slice())?;
        empty(&mut self.answers);
        if self.asked.is_empty() {
            return Ok(());
        }
        if self.out.has_failed() {
            return Err(StreamError);
        }
        let mut asked = FromStd::new(self.asked.as_slice());
        let Ok(()) = run(self.alloc, &mut asked, &mut self.out) else {
            return Err(StreamError);
        };
        empty(&mut self.asked);
        Ok(())
    }

    // Answers the lines that are asked, if there are any.
    fn settle_asked(&mut self) -> Result<(), StreamError>
        ensures asked { OnOk result (self.new.asked.items ≡ []) }
        ensures lines { OnOk result (AnswersLines W.contents self.old [] self.new) }
    {
        if self.asked.is_empty() {
            return Ok(());
        }
        self.settle()
    }

    // Answers a line at once.
    fn put_line(&mut self, reply: &[u8]) -> Result<(), StreamError>
        ensures { OnOk result ((line : Option Text) → IsReplyTo line reply.now →
            AnswersLines W.contents self.old (line ∷ []) self.new) }
    {
        self.settle()?;
        self.out.put(reply)?;
        self.out.put(b"\n")
    }

    // Answers a line of the examples.
    fn take_example(&mut self, line: &[u8]) -> Result<(), StreamError>
        ensures { OnOk result (is_of_examples line.now ≡ true →
            AnswersLines W.contents self.old (Some line.now ∷ []) self.new) }
    {
        self.settle_asked()?;
        let Ok(answer) = answer(self.alloc, &mut self.tables, line) else {
            return self.put_line(b"error memory");
        };
        match push_line(&mut self.answers, answer.as_bytes()) {
            Ok(()) => Ok(()),
            Err(Memory) => self.put_line(answer.as_bytes()),
        }
    }

    // Takes a line. That of an example is answered, another is asked.
    fn answer(&mut self, line: &[u8]) -> Result<(), StreamError>
        ensures { OnOk result (AnswersLines W.contents
            self.old (Some line.now ∷ []) self.new) }
    {
        if is_of_examples(line) {
            return self.take_example(line);
        }
        match push_line(&mut self.asked, line) {
            Ok(()) => Ok(()),
            Err(Memory) => self.put_line(b"error memory"),
        }
    }
}

impl<W: Write, E: Write> TakesLines for Lines<W, E> {
    ghost given = { λ old lines new. AnswersLines W.contents old lines new };

    ghost is_settled = { λ lines. (lines.answers.items ≡ []) × (lines.asked.items ≡ []) };

    ghost has_failed = { λ _. Unit {0} };

    ghost given_none = { λ s. AnswersLines-nothing W.contents s };

    ghost given_more = { λ old mid new lines others.
        AnswersLines-both W.contents old mid new lines others };

    fn take(&mut self, line: &[u8]) -> Result<(), StreamError> {
        self.answer(line)?;
        if self.answers.len().max(self.asked.len()) >= GATHERED {
            self.settle()?;
        }
        Ok(())
    }

    fn refuse(&mut self) -> Result<(), StreamError> {
        self.put_line(b"error memory")
    }

    fn pause(&mut self, bytes: usize) -> Result<(), StreamError> {
        self.settle()?;
        self.progress.advance(bytes);
        Ok(())
    }

    fn make_room(&mut self) {
        self.progress.hide();
    }
}
