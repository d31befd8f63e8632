//! `iref`: URIs and IRIs (RFC 3986, RFC 3987) at a terminal, one answer at a time or line by line.
//!
//! The status is 0; 1 where a text or a line is wrong, memory is refused or a write fails; 2 where
//! the words are wrong or a file cannot be read. `lines` answers a wrong line, and one for which
//! memory is refused, and its status stays 0. An output that nobody reads any more ends the program
//! with no message, and with the status that it has by then. Without words it answers lines, unless
//! standard input is a terminal.
#![tactic(auto)]

mod arguments;
mod edits;
mod examples;
mod input;
mod jobs;
mod lines;
mod place;
mod prefixes;
mod progress;
mod question;
mod read;
mod refusal;
mod run;
mod shown;
mod texts;
mod words;
mod work;

use arguments::{read_words, wrong_word};
use clap::error::ErrorKind;
use iref_batch::status::Status;
use run::{answer_lines, output_failed, run_command};
use shown::Shown;
use std::io::IsTerminal;
use std::process::ExitCode;
use words::command;

// Says what was done wrong with the words.
fn misuse(rt: &HostRuntime, what: &str) -> ExitCode {
    let _ = eprintln!(rt; "iref: {what}; see iref --help");
    ExitCode::from(Status::Misused)
}

// Says that memory was refused.
fn out_of_memory(rt: &HostRuntime) -> ExitCode {
    let _ = eprintln!(rt; "iref: out of memory");
    ExitCode::FAILURE
}

// Does what the words ask for.
fn run_words(rt: &HostRuntime, words: &[String]) -> Result<ExitCode, clap::Error> {
    if words.len() < 2 && !rt.stdin().is_terminal() {
        return Ok(ExitCode::from(answer_lines(rt, &["-"])));
    }
    let matches = command(rt.alloc())?.try_get_matches_from(words)?;
    let Some((name, inner)) = matches.subcommand() else {
        return Ok(misuse(rt, "a command is wanted"));
    };
    if let Some(word) = wrong_word(words, inner) {
        let _ = eprintln!(rt;
            "iref: a word is not UTF-8; see iref --help\n    {}",
            Shown(word)
        );
        return Ok(ExitCode::from(Status::Misused));
    }
    match run_command(rt, name, inner) {
        Some(status) => Ok(ExitCode::from(status)),
        None => Ok(misuse(rt, "two texts are wanted, or --base and files")),
    }
}

// Says what is wrong with the words, line by line.
fn say(rt: &HostRuntime, error: &clap::Error) -> ExitCode {
    let Ok(text) = format!(in rt.alloc(); "{error}") else {
        return out_of_memory(rt);
    };
    for line in text.lines() {
        let _ = eprintln!(rt; "{}", Shown(line));
    }
    ExitCode::from(Status::Misused)
}

// Prints what clap says: help, the version, or what is wrong with the words.
fn said(rt: &HostRuntime, error: &clap::Error) -> ExitCode {
    match error.kind() {
        ErrorKind::OutOfMemory => out_of_memory(rt),
        ErrorKind::DisplayHelp | ErrorKind::DisplayVersion => match error.print(rt) {
            Ok(()) => ExitCode::SUCCESS,
            Err(error) => ExitCode::from(output_failed(rt, &error, Status::Well)),
        },
        _ => say(rt, error),
    }
}

fn main(rt: HostRuntime) -> ExitCode {
    let Ok(words) = read_words(&rt) else {
        return out_of_memory(&rt);
    };
    match run_words(&rt, words.as_slice()) {
        Ok(code) => code,
        Err(error) => said(&rt, &error),
    }
}
