//! The jobs that commands name.
ghost use Rattle.std.specs.Prelude.{◌≡◌, codes};
ghost use Rattle.clap.specs.Words.{found_of};
ghost use Rattle.iref_tool.specs.{Words.{is_given}, Works.{FindsWork, FindsWorkAgainst}};

use crate::jobs::{Below, Canonical, Check, Keep, Key, Relativize, Resolve, Sort, Unique};
use crate::read::{iri, reference};
use crate::refusal::Refusal;
use crate::words::{is_given, word_of};
use clap::ArgMatches;
use std::alloc::Global;

/// A job that is done with each line of files.
#[derive(Drop)]
pub enum Work<'a> {
    Check(Check),
    Canonical(Canonical),
    Key(Key),
    Resolve(Resolve<'a>),
    Relativize(Relativize<'a>),
    Sort(Sort),
    Unique(Unique),
    Below(Below<'a>),
    /// Answers lines.
    Lines,
}

// The job of `check`.
fn check(matches: &ArgMatches<'_>) -> Check
    ensures uri { result.uri ≡ is_given (found_of matches.now) (codes "uri") }
    ensures absolute { result.absolute ≡ is_given (found_of matches.now) (codes "absolute") }
{
    let uri = is_given(matches, "uri");
    let absolute = is_given(matches, "absolute");
    Check { uri, absolute }
}

// The job of a command with a base; None of one that takes no base.
fn work_against<'a>(name: &str, base: &'a str, keep: Keep) -> Result<Option<Work<'a>>, Refusal<'a>>
    ensures { FindsWorkAgainst name.now base.now keep.0 result }
{
    match name {
        "resolve" => Ok(Some(Work::Resolve(Resolve(iri("BASE", base)?, keep)))),
        "relativize" => Ok(Some(Work::Relativize(Relativize(iri("BASE", base)?, keep)))),
        _ => Ok(None),
    }
}

/// The job that a command names, before the first line; else a word is wrong. None of a command that
/// names none, as `resolve` without a base.
pub fn work_of<'m, 'w: 'm>(
    alloc: Global,
    name: &str,
    matches: &'m ArgMatches<'w>,
) -> Result<Option<Work<'m>>, Refusal<'m>>
    ensures { FindsWork name.now (found_of matches.now) result }
{
    let keep = Keep(is_given(matches, "keep"));
    match name {
        "check" => Ok(Some(Work::Check(check(matches)))),
        "canonical" => Ok(Some(Work::Canonical(Canonical::new(alloc, keep)))),
        "key" => Ok(Some(Work::Key(Key(keep)))),
        "sort" => Ok(Some(Work::Sort(Sort::new(alloc)))),
        "unique" => Ok(Some(Work::Unique(Unique::new(alloc)))),
        "below" => {
            let prefix = reference("PREFIX", word_of(matches, "PREFIX"))?;
            Ok(Some(Work::Below(Below::new(alloc, prefix)?)))
        }
        "lines" => Ok(Some(Work::Lines)),
        _ => match matches.get_str("base") {
            Some(base) => work_against(name, base, keep),
            None => Ok(None),
        },
    }
}
