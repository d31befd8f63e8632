//! A job done with each line of inputs: what is answered, and what is said of wrong lines.
ghost use Rattle.std.specs.Prelude.{◌≡◌, [], ◌∷◌, ◌++◌, false, true, Some, IfSome, OnErr, OnOk};
ghost use Rattle.iref_batch.specs.{Gathering.{Writes}, Runs.{with_newline}, StdStreams.{has_failed, inner_of}};
ghost use Rattle.iref_tool.specs.JobRuns.{DoesJob, SaysWrong, StaysAt, TurnsWrong};
ghost use Rattle.iref_tool.specs.Notes.{IsFoundBy, MaySay, fault_note, found_of, note_text};
ghost use Rattle.iref_tool.specs.JobRunLaws.{DoesJob-both, DoesJob-nothing};

use crate::input::TakesLines;
use crate::jobs::{Job, LineFault};
use crate::place::{Found, Why};
use crate::progress::Progress;
use crate::shown::Shown;
use iref::Memory;
use iref_batch::buffer::{GATHERED, empty, push_line};
use iref_batch::columns::column;
use iref_batch::status::Status;
use iref_batch::{FromStd, StreamError};
use std::alloc::Global;
use std::fmt;
use std::io::Write;

/// A job as far as it has come.
#[derive(Drop)]
pub struct Texts<'a, J, W, E> {
    /// What is done with each line.
    pub job: J,
    /// Where answers go.
    pub out: FromStd<W>,
    /// The status of the program.
    pub status: Status,
    /// The file that is read.
    pub file: &'a str,
    /// How many of its lines came in, or `u64::MAX` of more.
    pub number: u64,
    /// Whether notes of wrong lines go where answers go; else they go to standard error.
    pub reports: bool,
    /// What is to be written where answers go.
    pub answers: Vec<u8>,
    /// What is to be written to standard error.
    pub notes: Vec<u8>,
    err: E,
    progress: Progress<E>,
    // A note as it is made.
    made: Vec<u8>,
}

// What is said of a fault, and what stands there. Where that cannot be written, it is said that
// memory was refused.
fn said_of(fault: LineFault) -> (LineFault, Found)
    ensures fault { MaySay fault result.0 }
    ensures found { IsFoundBy result.0 (found_of result.1) }
{
    let LineFault::Invalid(invalid) = fault else {
        return (fault, Found::nothing());
    };
    match Found::new(invalid) {
        Ok(found) => (fault, found),
        Err(_) => (LineFault::Memory, Found::nothing()),
    }
}

// What is wrong with a line, behind its number.
#[derive(Clone, Copy)]
struct LineWhy<'a>(&'a [u8], LineFault, Found);

impl fmt::Display for LineWhy<'_> {
    ghost output = { λ why. fault_note why.0.now why.1 (found_of why.2) };

    fn fmt<W: fmt::Write>(&self, f: &mut fmt::Formatter<W>) -> fmt::Result {
        match self.1 {
            LineFault::Invalid(fault) => {
                write!(f, "{}: {}", column(self.0, fault.at()), Why(fault, self.2))
            }
            LineFault::NoReference => f.write_str(" no reference resolves to this text"),
            LineFault::Memory => f.write_str(" out of memory"),
        }
    }
}

// What is said of a wrong line.
#[derive(Clone, Copy)]
struct Note<'a> {
    file: &'a str,
    number: u64,
    line: &'a [u8],
    fault: LineFault,
    found: Found,
}

impl fmt::Display for Note<'_> {
    ghost output = { λ note. note_text note.file.now note.number note.line.now note.fault
        (found_of note.found) };

    fn fmt<W: fmt::Write>(&self, f: &mut fmt::Formatter<W>) -> fmt::Result {
        let why = LineWhy(self.line, self.fault, self.found);
        write!(f, "{}:{}:{why}", Shown(self.file), self.number)
    }
}

// Adds a line for what is wrong, which is made in the buffer. Out of memory, it returns `Memory` and
// adds nothing.
fn push_note(made: &mut Vec<u8>, notes: &mut Vec<u8>, note: &Note<'_>) -> Result<(), Memory>
    ensures ok { OnOk result (IfSome (note_text note.now.file.now note.now.number note.now.line.now
        note.now.fault (found_of note.now.found)) (λ text. notes.new.items ≡ notes.old.items ++ with_newline text)) }
    ensures err { OnErr result (notes.new.items ≡ notes.old.items) }
{
    made.clear();
    if write!(made, "{note}").is_err() {
        return Err(Memory);
    }
    push_line(notes, made.as_slice())
}

impl<'a, J: Job, W: Write, E: Write> Texts<'a, J, W, E> {
    /// The job, before the first line.
    pub fn new(alloc: Global, job: J, out: W, err: E, progress: Progress<E>) -> Self
        ensures job { result.job ≡ job }
        ensures out { inner_of result.out ≡ out }
        ensures well { result.status ≡ Status.Well }
        ensures nothing { result.answers.items ≡ [] }
        ensures reports { result.reports ≡ false }
    {
        Texts {
            job,
            out: FromStd::new(out),
            status: Status::Well,
            file: "-",
            number: 0,
            reports: false,
            answers: Vec::new(alloc),
            notes: Vec::new(alloc),
            err,
            progress,
            made: Vec::new(alloc),
        }
    }

    /// Begins a file.
    pub fn begin(&mut self, file: &'a str)
        ensures { self.new ≡ record self.old { file = file.entry; number = 0 } }
    {
        self.file = file;
        self.number = 0;
    }

    // Notes that a line is wrong. Where there is no memory for that, it is said at once.
    fn note(&mut self, line: &[u8], fault: LineFault) -> Result<(), StreamError>
        ensures job { self.new.job ≡ self.old.job }
        ensures place { StaysAt self.old self.new }
        ensures wrong { TurnsWrong self.old.status self.new.status }
        ensures said { OnOk result (SaysWrong self.old.reports self.old.file.now
            self.old.number line.now fault
            (W.contents (inner_of self.old.out)) (W.contents (inner_of self.new.out))
            self.old.answers.items self.new.answers.items) }
        ensures failed { OnErr result (has_failed self.new.out ≡ true) }
    {
        self.status = self.status.worse(Status::Wrong);
        let (fault, found) = said_of(fault);
        let note = Note {
            file: self.file,
            number: self.number,
            line,
            fault,
            found,
        };
        if self.reports {
            if push_note(&mut self.made, &mut self.answers, &note).is_err() {
                self.flush()?;
                self.progress.hide();
                self.out.print(&note)?;
            }
        } else if push_note(&mut self.made, &mut self.notes, &note).is_err() {
            self.flush()?;
            self.progress.hide();
            let _ = writeln!(self.err, "{note}");
        }
        Ok(())
    }

    // Writes what is gathered.
    fn flush(&mut self) -> Result<(), StreamError>
        ensures job { self.new.job ≡ self.old.job }
        ensures place { StaysAt self.old self.new }
        ensures status { self.new.status ≡ self.old.status }
        ensures settled { OnOk result (self.new.answers.items ≡ []) }
        ensures noted { OnOk result (self.new.notes.items ≡ []) }
        ensures written { OnOk result (Writes self.old.answers.items
            (W.contents (inner_of self.old.out)) (W.contents (inner_of self.new.out))) }
        ensures failed { OnErr result (has_failed self.new.out ≡ true) }
    {
        if self.answers.is_empty() && self.notes.is_empty() {
            return Ok(());
        }
        self.progress.hide();
        self.out.put(self.answers.as_slice())?;
        empty(&mut self.answers);
        let _ = self.err.write_all(self.notes.as_slice());
        empty(&mut self.notes);
        Ok(())
    }

    // Does the job with a line. Where the line is wrong, this is noted.
    fn answer(&mut self, line: &[u8]) -> Result<(), StreamError>
        ensures done { OnOk result (DoesJob J.outcome J.goes_on W.contents
            self.old (Some line.now ∷ []) self.new) }
        ensures failed { OnErr result (has_failed self.new.out ≡ true) }
    {
        self.number = self.number.saturating_add(1);
        let before = self.answers.len();
        match self.job.answer(line, &mut self.answers) {
            Ok(()) => Ok(()),
            Err(fault) => {
                self.answers.truncate(before);
                self.note(line, fault)
            }
        }
    }
}

impl<J: Job, W: Write, E: Write> TakesLines for Texts<'_, J, W, E> {
    ghost given = { λ old lines new.
        DoesJob J.outcome J.goes_on W.contents old lines new };

    ghost is_settled = { λ texts. (texts.answers.items ≡ []) × (texts.notes.items ≡ []) };

    ghost has_failed = { λ texts. has_failed texts.out ≡ true };

    ghost given_none = { λ s. DoesJob-nothing J.outcome J.goes_on W.contents s };

    ghost given_more = { λ old mid new lines others.
        DoesJob-both J.outcome J.goes_on W.contents old mid new lines others };

    fn take(&mut self, line: &[u8]) -> Result<(), StreamError> {
        self.answer(line)?;
        if self.answers.len().max(self.notes.len()) >= GATHERED {
            self.flush()?;
        }
        Ok(())
    }

    fn refuse(&mut self) -> Result<(), StreamError> {
        self.number = self.number.saturating_add(1);
        self.note(&[], LineFault::Memory)
    }

    fn pause(&mut self, bytes: usize) -> Result<(), StreamError> {
        self.flush()?;
        self.progress.advance(bytes);
        Ok(())
    }

    fn make_room(&mut self) {
        self.progress.hide();
    }
}
