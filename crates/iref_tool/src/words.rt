//! The words of the command.
ghost use Rattle.std.specs.Prelude.{◌≡◌, map};
ghost use Rattle.clap.specs.Words.{found_of};
ghost use Rattle.iref_tool.specs.Words.{is_given, word, words};

use clap::{Arg, ArgAction, ArgMatches, Command};
use std::alloc::{AllocError, Global};

/// The version: that of the changelog.
const VERSION: &str = "after 0.1.0";

/// What an edit is.
pub const EDITS: &str = "\
scheme, authority, user, port, query or fragment, with =VALUE or to remove it; replace-authority,
host, path, normal-path, push, lazy-push or join, with =VALUE; pop, clear or normalize";

/// Which texts are equal.
const EQUAL: &str = "\
Texts are equal by their keys, which leave out dot segments, the case of the scheme, and whether a
character is escaped. So %26 and & are equal, and %2B and +, which servers tell apart.";

/// What `below` does not say.
const BELOW: &str = "\
This compares URIs. It does not say where a path leads on a disk: http://h/docs//../admin is below
http://h/docs.";

/// The verbs of lines.
const VERBS: &str = "\
The verbs, with a TAB before each text:
  parts URI               normal PATH              equal FIRST SECOND
  resolve REFERENCE BASE  relative TARGET BASE     relativized TARGET BASE
  edit URI EDIT...        to-uri IRI               compact IRI LABEL=IRI...
  expand TEXT LABEL=IRI...
  check TEXT              fault TEXT               canonical TEXT
  key TEXT                put URI VALUE            get URI
  prefix LABEL IRI        shorten IRI              expand TEXT
  relink PAGE LINK";

/// What stands below the help.
const EXAMPLES: &str = "\
A FILE has one text on each line; - and no FILE are standard input. Only LF ends a line.
Without words iref answers lines, unless standard input is a terminal.

Examples:
  iref parts 'http://h/a?q'
  iref resolve ../g http://a/b/c/d           # http://a/b/g
  iref edit http://h/a push=b query=x        # http://h/a/b?x
  iref check urls.txt                        # urls.txt:3:9: invalid host: ' '
  iref canonical --keep urls.txt | LC_ALL=C sort -u -t \"$(printf '\\t')\" -k 1,1
  iref below http://h/docs urls.txt

The status is 0; 1 where a text or a line is wrong, memory runs out or a write fails; 2 where the
words are wrong or a file cannot be read. lines answers a wrong line, and one without memory, and
its status stays 0.";

// The commands, in the order of the help, and what each does.
const COMMANDS: &[(&str, &str)] = &[
    ("parts", "Print the components of a URI"),
    ("normal", "Remove the dot segments of a path"),
    (
        "equal",
        "Tell whether two URIs are equal by their keys: yes or no",
    ),
    (
        "relative",
        "Print a reference that leads from a base to a target",
    ),
    ("edit", "Edit a URI, by names or NAME=VALUE in order"),
    ("to-uri", "Escape an IRI as a URI"),
    ("compact", "Shorten an IRI by labels"),
    ("expand", "Expand a text LABEL:REST to an IRI"),
    (
        "resolve",
        "Resolve a reference, or each line, against a base",
    ),
    (
        "relativize",
        "Print the shortest reference from a base to a target, or to each line",
    ),
    ("check", "Find the lines that are no IRI references"),
    ("canonical", "Print the canonical text of each line"),
    (
        "key",
        "Print the sort key of each line, in hexadecimal digits",
    ),
    ("sort", "Sort the lines by key"),
    ("unique", "Print the lines that equal none before them"),
    ("below", "Print the lines below a URI"),
    ("lines", "Answer lines, each a verb and its texts by TABs"),
];

// The arguments of a command.
fn arguments_of(name: &str) -> &'static [&'static str] {
    match name {
        "parts" => &["URI"],
        "normal" => &["PATH"],
        "equal" => &["FIRST", "SECOND"],
        "relative" => &["TARGET", "BASE"],
        "edit" => &["URI", "EDIT"],
        "to-uri" => &["IRI"],
        "compact" => &["IRI", "LABEL=IRI"],
        "expand" => &["TEXT", "LABEL=IRI"],
        "check" => &["FILE", "uri", "absolute"],
        "canonical" | "key" => &["FILE", "keep"],
        "below" => &["PREFIX", "FILE"],
        _ => &["FILE"],
    }
}

// What stands below the help of a command.
fn more_help_of(name: &str) -> &'static str {
    match name {
        "equal" | "canonical" | "key" | "sort" | "unique" => EQUAL,
        "below" => BELOW,
        "lines" => VERBS,
        _ => "",
    }
}

// What an argument is.
fn help_of(id: &str) -> &'static str {
    match id {
        "IRI" => "An IRI",
        "PATH" => "A path, such as a/../b",
        "EDIT" => EDITS,
        "LABEL=IRI" => "A prefix of Turtle, which may be empty, and the IRI that it stands for",
        "TEXT" => "A label, a colon and the rest, such as ex:a",
        "PREFIX" => "A URI such as http://h/docs, with no / at its end; http://h/ is all of a host",
        "FILE" => "A text on each line; - is standard input",
        "base" => "Take each line of the files against this base",
        "keep" => "Write the line behind its answer, with a TAB between",
        "uri" => "Allow the characters of URIs alone",
        "absolute" => "Want a scheme; a fragment may follow",
        _ => "A URI or IRI, or a relative reference",
    }
}

// An argument: an option, any number of words, or a word that has to be there.
fn argument<'a>(alloc: Global, id: &'static str) -> Arg<'a> {
    let arg = Arg::new(alloc, id).help(help_of(id));
    match id {
        "base" => arg.long(id).value_name("BASE").action(ArgAction::Set),
        "keep" | "uri" | "absolute" => arg.long(id).action(ArgAction::SetTrue),
        "EDIT" | "LABEL=IRI" | "FILE" | "WORD" => arg.action(ArgAction::Append).num_args(0..),
        _ => arg.required(true),
    }
}

// Adds the arguments of a command.
fn with_arguments<'a>(
    command: Command<'a>,
    alloc: Global,
    name: &str,
) -> Result<Command<'a>, AllocError> {
    let mut command = command;
    for id in arguments_of(name) {
        command = command.arg(argument(alloc, *id))?;
    }
    Ok(command)
}

// Adds the arguments of a command with two words, or with a base and files.
fn with_base<'a>(
    command: Command<'a>,
    alloc: Global,
    usage: &'static str,
) -> Result<Command<'a>, AllocError> {
    command
        .override_usage(usage)
        .arg(argument(alloc, "base"))?
        .arg(argument(alloc, "keep").requires_arg("base")?)?
        .arg(argument(alloc, "WORD").hide(true))
}

// A command.
fn subcommand<'a>(
    alloc: Global,
    name: &'static str,
    about: &'static str,
) -> Result<Command<'a>, AllocError> {
    let command = Command::new(alloc, name)
        .about(about)
        .after_help(more_help_of(name));
    match name {
        "resolve" => with_base(
            command,
            alloc,
            "iref resolve REFERENCE BASE\n       iref resolve --base BASE [--keep] [FILE]...",
        ),
        "relativize" => with_base(
            command,
            alloc,
            "iref relativize TARGET BASE\n       iref relativize --base BASE [--keep] [FILE]...",
        ),
        _ => with_arguments(command, alloc, name),
    }
}

/// The command, before any words.
pub fn command<'a>(alloc: Global) -> Result<Command<'a>, AllocError> {
    let mut command = Command::new(alloc, "iref")
        .bin_name("iref")?
        .version(VERSION)
        .about("URIs and IRIs (RFC 3986, RFC 3987)")
        .after_help(EXAMPLES)
        .subcommand_required(true)
        .arg_required_else_help(true);
    for (name, about) in COMMANDS {
        command = command.subcommand(subcommand(alloc, *name, *about)?)?;
    }
    Ok(command)
}

/// The word that stands for an argument, which has to be there; else the empty text.
pub fn word_of<'m, 'w: 'm>(matches: &'m ArgMatches<'w>, id: &str) -> &'m str
    ensures { result.now ≡ word (found_of matches.now) id.now }
{
    match matches.get_str(id) {
        Some(word) => word,
        None => "",
    }
}

/// Whether an option without a value was given.
pub fn is_given(matches: &ArgMatches<'_>, id: &str) -> bool
    ensures { result ≡ is_given (found_of matches.now) id.now }
{
    match matches.get_str(id) {
        Some(given) => given == "true",
        None => false,
    }
}

/// The words that stand for an argument; none where it is not there.
pub fn words_of<'m, 'w: 'm>(matches: &'m ArgMatches<'w>, id: &str) -> &'m [&'m str]
    ensures { map (λ word. word.now) result.now ≡ words (found_of matches.now) id.now }
{
    matches.get_strs(id).unwrap_or(&[])
}

/// The files, which stand behind a base where there is one; else standard input.
pub fn files_of<'m, 'w: 'm>(matches: &'m ArgMatches<'w>) -> &'m [&'m str] {
    let id = match matches.get_str("base") {
        Some(_) => "WORD",
        None => "FILE",
    };
    match words_of(matches, id) {
        [] => &["-"],
        files => files,
    }
}
