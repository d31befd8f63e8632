//! What the words ask for, done.
ghost use Rattle.std.specs.Prelude.{◌≡◌, ◌≢◌, true, IfNone, IfSome, OnErr, OnOk, map};
ghost use Rattle.std.specs.{Io.KnownBytes.{Appends}, IoError.{error_kind}};
ghost use Rattle.iref.specs.{References.{reference_text}, Rules.{Text}};
ghost use Rattle.iref_batch.specs.{Lines.{lines_of}, Runs.{ended_lines, with_newlines}};
ghost use Rattle.iref_batch.specs.StdStreams.{failure_of, has_failed, inner_of};
ghost use Rattle.iref_tool.specs.{Endings.{DoesToEnd, EndsAll, EndsWith, SortsAll}, JobRuns.{TurnsWrong}};
ghost use Rattle.iref_tool.specs.Words.{status_of};
ghost use Rattle.iref_tool.specs.Streams.{GivesFile, GivesLines, OnReadError, OnWriteError, file_status};

use crate::arguments::{is_not_utf8, without_mark};
use crate::examples::Tables;
use crate::input::{Failure, TakesLines, each_line};
use crate::jobs::{Check, Job, Sort};
use crate::lines::Lines;
use crate::progress::{LONG, Progress};
use crate::question::answer;
use crate::refusal::{Refusal, Told};
use crate::shown::Shown;
use crate::texts::Texts;
use crate::words::files_of;
use crate::work::{Work, work_of};
use clap::ArgMatches;
use iref::iri::IriRef;
use iref_batch::buffer::GATHERED;
use iref_batch::status::Status;
use iref_batch::{FromStd, StreamError};
use std::env;
use std::fs::{self, Metadata};
use std::hash::RandomState;
use std::io::{self, BufWriter, ErrorKind, IsTerminal, Write};
use std::os::unix::fs::MetadataExt;
use std::rt::{Stderr, Stdout};

/// The status where an output has failed. Nothing is said where nobody reads it any more.
pub fn output_failed(rt: &HostRuntime, error: &io::Error, status: Status) -> Status
    ensures unread { error_kind error.now ≡ ErrorKind.BrokenPipe → result ≡ status }
    ensures failed { error_kind error.now ≢ ErrorKind.BrokenPipe → TurnsWrong status result }
{
    if error.kind() == ErrorKind::BrokenPipe {
        return status;
    }
    let _ = eprintln!(rt; "iref: standard output: {error}");
    status.worse(Status::Wrong)
}

// The status of a run, whose output may have failed.
fn ended<W: Write>(rt: &HostRuntime, out: &FromStd<W>, status: Status) -> Status
    ensures { EndsWith (failure_of out.now) status result }
{
    match out.failure() {
        None => status,
        Some(error) => output_failed(rt, error, status),
    }
}

// How many columns a terminal has where it does not say so.
const COLUMNS: usize = 80;

// How many columns the terminal has.
fn columns(rt: &HostRuntime) -> usize {
    match env::var(rt, "COLUMNS") {
        Ok(columns) => columns.parse().unwrap_or(COLUMNS),
        Err(_) => COLUMNS,
    }
}

// Prints why there is no answer.
fn refused(rt: &HostRuntime, refusal: Refusal<'_>) -> Status
    ensures { result ≡ status_of refusal.entry }
{
    let columns = columns(rt);
    let _ = rt.eprint(&Told { refusal, columns });
    refusal.status()
}

// Prints one answer.
fn print(rt: &HostRuntime, answer: &str) -> Status {
    let mut out = FromStd::new(rt.stdout());
    let _ = out.print(&answer);
    ended(rt, &out, Status::Well)
}

// What is known of a file before it is read, unless it is a folder, a pipe or a device; `-` is
// standard input.
fn metadata_of(rt: &HostRuntime, file: &str) -> Option<Metadata> {
    let name = if file == "-" { "/dev/stdin" } else { file };
    fs::metadata(rt, name).ok().filter(Metadata::is_file)
}

// How many bytes a file has, if this is known before it is read.
fn size_of(rt: &HostRuntime, file: &str) -> Option<u64> {
    Some(metadata_of(rt, file)?.len())
}

// How many bytes the files have, if this is known of each.
fn size_of_all(rt: &HostRuntime, files: &[&str]) -> Option<u64> {
    let mut size = 0u64;
    for file in files {
        size = size.saturating_add(size_of(rt, *file)?);
    }
    Some(size)
}

// Says on a terminal how far the files are read, if they are long.
fn progress_of(rt: &HostRuntime, files: &[&str]) -> Progress<Stderr> {
    if !rt.stderr().is_terminal() {
        return Progress::new(rt.stderr(), None);
    }
    let size = size_of_all(rt, files).filter(|size| *size >= LONG);
    Progress::new(rt.stderr(), size)
}

// Whether standard output goes to the file.
fn is_output(rt: &HostRuntime, file: &str) -> bool {
    match (metadata_of(rt, file), metadata_of(rt, "/dev/stdout")) {
        (Some(file), Some(output)) => file.dev() == output.dev() && file.ino() == output.ino(),
        _ => false,
    }
}

// Fails where a file is not read: its name is not UTF-8, so that it cannot be opened, or it would
// grow while it is read.
fn admit(rt: &HostRuntime, file: &str) -> io::Result<()> {
    if is_not_utf8(file) {
        return Err(io::Error::new(ErrorKind::InvalidInput, "its name is not UTF-8"));
    }
    if is_output(rt, file) {
        return Err(io::Error::new(ErrorKind::InvalidInput, "standard output goes to this file"));
    }
    Ok(())
}

// Gives each line of a file away; `-` is standard input.
fn each_line_of<T: TakesLines>(rt: &HostRuntime, file: &str, to: &mut T) -> Result<(), Failure>
    ensures lines { OnOk result
        ((text : Text) × GivesLines T.given (lines_of text) to.old to.new) }
    ensures cut { OnReadError result
        ((text : Text) × GivesLines T.given (ended_lines text) to.old to.new) }
    ensures settled { OnOk result (T.is_settled to.new) }
    ensures failed { OnWriteError result (T.has_failed to.new) }
{
    admit(rt, file)?;
    if file == "-" {
        return each_line(rt.alloc(), &mut rt.stdin(), to);
    }
    each_line(rt.alloc(), &mut fs::open(rt, file)?, to)
}

// The status of a file, by how reading it ended. Says why it cannot be read.
fn status_of_read(rt: &HostRuntime, file: &str, read: Result<(), Failure>) -> Option<Status>
    ensures { result ≡ file_status read }
{
    match read {
        Ok(()) => Some(Status::Well),
        Err(Failure::Write) => None,
        Err(Failure::Read(error)) => {
            let _ = eprintln!(rt; "iref: {}: {error}", Shown(without_mark(file)));
            Some(Status::Misused)
        }
    }
}

// Gives each line of a file away: the status of the file, unless a write failed.
fn read_file<T: TakesLines>(rt: &HostRuntime, file: &str, to: &mut T) -> Option<Status>
    ensures lines { IfSome result (λ status. GivesFile T.given status to.old to.new) }
    ensures settled { IfSome result (λ status. status ≡ Status.Well → T.is_settled to.new) }
    ensures failed { IfNone result (T.has_failed to.new) }
{
    let read = each_line_of(rt, file, to);
    to.make_room();
    status_of_read(rt, file, read)
}

// Does a job with each line of the files, until a write fails: the worst status that was met.
fn each_text<'a, J: Job, W: Write, E: Write>(
    rt: &HostRuntime,
    files: &[&'a str],
    texts: &mut Texts<'a, J, W, E>,
) -> Status
    ensures { DoesToEnd J.outcome J.goes_on W.contents files.now texts.old texts.new result }
{
    let mut status = Status::Well;
    for file in files {
        texts.begin(*file);
        match read_file(rt, *file, texts) {
            Some(of_file) => status = status.worse(of_file),
            None => return texts.status.worse(status),
        }
    }
    status.worse(texts.status)
}

// A job, before the files are read.
fn texts_of<'a, J: Job>(
    rt: &HostRuntime,
    job: J,
    files: &[&'a str],
) -> Texts<'a, J, Stdout, Stderr> {
    let progress = progress_of(rt, files);
    Texts::new(rt.alloc(), job, rt.stdout(), rt.stderr(), progress)
}

// Does the job with each line of the files, and ends the output.
fn finish<'a, J: Job, W: Write, E: Write>(
    rt: &HostRuntime,
    files: &[&'a str],
    texts: &mut Texts<'a, J, W, E>,
) -> Status
    ensures { EndsAll J.outcome J.goes_on W.contents files.now texts.old texts.new result }
{
    let status = each_text(rt, files, texts);
    ended(rt, &texts.out, status)
}

// Does a job with each line of the files.
fn do_each<J: Job + Drop>(rt: &HostRuntime, job: J, files: &[&str]) -> Status {
    finish(rt, files, &mut texts_of(rt, job, files))
}

// Finds the wrong lines of the files. Their notes are the answer.
fn check(rt: &HostRuntime, job: Check, files: &[&str]) -> Status {
    let mut texts = texts_of(rt, job, files);
    texts.reports = true;
    finish(rt, files, &mut texts)
}

// Writes the lines.
fn put_lines<W: Write>(lines: &[IriRef<'_>], out: &mut FromStd<W>) -> Result<(), StreamError>
    ensures ok { OnOk result (Appends (W.contents (inner_of out.old)) (W.contents (inner_of out.new))
        (with_newlines (map reference_text lines.now))) }
    ensures failed { OnErr result (has_failed out.new ≡ true) }
{
    for line in lines {
        out.put(line.as_bytes())?;
        out.put(b"\n")?;
    }
    out.flush()
}

// Sorts the lines of the files.
fn sort_to<'a, W: Write, E: Write, V: Write>(
    rt: &HostRuntime,
    files: &[&'a str],
    texts: &mut Texts<'a, Sort, W, E>,
    out: &mut FromStd<V>,
) -> Status
    ensures { SortsAll W.contents V.contents files.now texts.old texts.new out.old out.new result }
{
    let status = each_text(rt, files, texts);
    let Ok(sorted) = texts.job.sorted() else {
        return status.worse(refused(rt, Refusal::Memory));
    };
    let _ = put_lines(sorted.as_slice(), out);
    ended(rt, out, status)
}

// Sorts the lines of the files.
fn sort(rt: &HostRuntime, job: Sort, files: &[&str]) -> Status {
    let Ok(writer) = BufWriter::with_capacity(rt.alloc(), GATHERED, rt.stdout()) else {
        return refused(rt, Refusal::Memory);
    };
    let mut texts = texts_of(rt, job, files);
    sort_to(rt, files, &mut texts, &mut FromStd::new(writer))
}

/// Answers the lines of the files.
pub fn answer_lines(rt: &HostRuntime, files: &[&str]) -> Status {
    let seed = match RandomState::new(rt) {
        Ok(seed) => seed,
        Err(error) => {
            let _ = eprintln!(rt; "iref: {error}");
            return Status::Wrong;
        }
    };
    let tables = Tables::new(rt.alloc(), seed);
    let mut lines = Lines::new(rt.alloc(), tables, rt.stdout(), progress_of(rt, files));
    let mut status = Status::Well;
    for file in files {
        match read_file(rt, *file, &mut lines) {
            Some(of_file) => status = status.worse(of_file),
            None => break,
        }
    }
    ended(rt, &lines.out, status)
}

// Does a job with each line of the files.
fn do_work(rt: &HostRuntime, work: Work<'_>, files: &[&str]) -> Status {
    match work {
        Work::Check(job) => check(rt, job, files),
        Work::Canonical(job) => do_each(rt, job, files),
        Work::Key(job) => do_each(rt, job, files),
        Work::Resolve(job) => do_each(rt, job, files),
        Work::Relativize(job) => do_each(rt, job, files),
        Work::Sort(job) => sort(rt, job, files),
        Work::Unique(job) => do_each(rt, job, files),
        Work::Below(job) => do_each(rt, job, files),
        Work::Lines => answer_lines(rt, files),
    }
}

// Does what a command asks for, with one answer or with each line of files; else a word is wrong.
// None where it wants other words.
fn run_words<'m, 'w: 'm>(
    rt: &HostRuntime,
    name: &str,
    matches: &'m ArgMatches<'w>,
) -> Result<Option<Status>, Refusal<'m>> {
    if let Some(answer) = answer(rt.alloc(), name, matches)? {
        return Ok(Some(print(rt, answer.as_str())));
    }
    match work_of(rt.alloc(), name, matches)? {
        Some(work) => Ok(Some(do_work(rt, work, files_of(matches)))),
        None => Ok(None),
    }
}

/// Does what a command asks for, unless it wants other words.
pub fn run_command(rt: &HostRuntime, name: &str, matches: &ArgMatches<'_>) -> Option<Status> {
    match run_words(rt, name, matches) {
        Ok(status) => status,
        Err(refusal) => Some(refused(rt, refusal)),
    }
}
