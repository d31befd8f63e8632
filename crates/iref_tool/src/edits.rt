//! The edits that words name: each a name, or a name, `=` and a value.
ghost use Rattle.std.specs.{Option.{option_copied}, Prelude.{◌≡◌, [], ◌∷◌, Ok, map, option_map}};
ghost use Rattle.iref.specs.{Components.{text_of}, EditSteps.{edit_step}, Texts.{after, before}};
ghost use Rattle.iref_batch.specs.{EditFields.{path_edit_names}, Lines.{bare, edit_names, equals_sign}};
ghost use Rattle.iref_reference.specs.References.{reference_value};
ghost use Rattle.iref_tool.specs.EditWords.{edit_of, edit_with, edited_by_words, edits_of, named_edit};
ghost use Rattle.iref_tool.specs.EditWords.{needed_value, optional_value};
ghost use Rattle.iref_tool.specs.Replies.{EndsAs, ReadsWord, Returns};

use crate::read::component;
use crate::refusal::{Reason, Refusal};
use iref::chars::CharSet;
use iref::iri::{Edit, EditFault, IriRef, apply_all};
use iref::rules::BorrowedText;
use iref_component::faults::HasFault;
use iref_parse::cut::cut;
use std::alloc::Global;

// A word as it is read: a name, and a value if there is one.
#[derive(Clone, Copy)]
struct Field<'a> {
    word: &'a str,
    name: &'a str,
    value: Option<&'a str>,
}

impl<'a> Field<'a> {
    fn new(word: &'a str) -> Self
        ensures word { result.word.now ≡ word.now }
        ensures name { result.name.now ≡ before (equals_sign ∷ []) word.now }
        ensures value { option_copied result.value ≡ after equals_sign word.now }
    {
        let (name, value) = cut(word, '=');
        Field { word, name, value }
    }

    // The value, if there is one and it is in the rule.
    fn optional<R: HasFault, C: CharSet>(
        &self,
        kind: &'static str,
    ) -> Result<Option<BorrowedText<'a, R, C>>, Refusal<'a>>
        ensures { ReadsWord (option_map text_of) (optional_value self.now.word.now
            (option_copied self.now.value) (kind.now, R.fault_of C.tests)) result }
    {
        let Some(value) = self.value else {
            return Ok(None);
        };
        Ok(Some(component("EDIT", kind, self.word, value)?))
    }

    // The value, which has to be there.
    fn needed<R: HasFault, C: CharSet>(
        &self,
        kind: &'static str,
    ) -> Result<BorrowedText<'a, R, C>, Refusal<'a>>
        ensures { ReadsWord text_of (needed_value self.now.word.now
            (option_copied self.now.value) (kind.now, R.fault_of C.tests)) result }
    {
        match self.value {
            Some(value) => component("EDIT", kind, self.word, value),
            None => Err(Refusal::Word("EDIT", self.word, Reason::NoValue)),
        }
    }

    // An edit that takes no value.
    fn bare(&self, edit: Edit<'a>) -> Result<Edit<'a>, Refusal<'a>>
        ensures { ReadsWord edit_step (edit_with self.now.word.now (option_copied self.now.value)
            (bare (edit_step edit.entry) (option_copied self.now.value))) result }
    {
        match self.value {
            Some(_) => Err(Refusal::Word("EDIT", self.word, Reason::Value)),
            None => Ok(edit),
        }
    }

    // The edit of a path in place.
    fn path_edit(&self) -> Result<Edit<'a>, Refusal<'a>>
        ensures { ReadsWord edit_step (named_edit path_edit_names self.now.word.now
            self.now.name.now (option_copied self.now.value)) result }
    {
        match self.name {
            "lazy-push" => Ok(Edit::LazyPush(self.needed("segment")?)),
            "push" => Ok(Edit::Push(self.needed("segment")?)),
            "join" => Ok(Edit::JoinPath(self.needed("path")?)),
            "pop" => self.bare(Edit::Pop),
            "clear" => self.bare(Edit::Clear),
            "normalize" => self.bare(Edit::Normalize),
            _ => Err(Refusal::Word("EDIT", self.word, Reason::NoEdit)),
        }
    }

    // The edit.
    fn edit(&self) -> Result<Edit<'a>, Refusal<'a>>
        ensures { ReadsWord edit_step (named_edit edit_names self.now.word.now self.now.name.now
            (option_copied self.now.value)) result }
    {
        match self.name {
            "scheme" => Ok(Edit::SetScheme(self.optional("scheme")?)),
            "authority" => Ok(Edit::SetAuthority(self.optional("authority")?)),
            "replace-authority" => Ok(Edit::ReplaceAuthority(self.needed("authority")?)),
            "user" => Ok(Edit::SetUserInfo(self.optional("user info")?)),
            "host" => Ok(Edit::SetHost(self.needed("host")?)),
            "port" => Ok(Edit::SetPort(self.optional("port")?)),
            "path" => Ok(Edit::SetPath(self.needed("path")?)),
            "normal-path" => Ok(Edit::SetAndNormalizePath(self.needed("path")?)),
            "query" => Ok(Edit::SetQuery(self.optional("query")?)),
            "fragment" => Ok(Edit::SetFragment(self.optional("fragment")?)),
            _ => self.path_edit(),
        }
    }
}

// The edit that a word names.
fn read_edit<'a>(word: &'a str) -> Result<Edit<'a>, Refusal<'a>>
    ensures { ReadsWord edit_step (edit_of word.now) result }
{
    Field::new(word).edit()
}

// The edits that the words name.
fn read_edits<'a>(alloc: Global, words: &[&'a str]) -> Result<Vec<Edit<'a>>, Refusal<'a>>
    ensures { Returns (λ edits. map edit_step edits.items)
        (edits_of (map (λ word. word.now) words.now)) result }
{
    let mut edits = Vec::new(alloc);
    for word in words {
        if edits.push(read_edit(*word)?).is_err() {
            return Err(Refusal::Memory);
        }
    }
    Ok(edits)
}

/// The reference after the edits that the words name, in order; else which word is wrong: the first
/// that names none, and after that the first whose edit is refused.
pub fn edited<'a>(
    alloc: Global,
    reference: IriRef<'a>,
    words: &[&'a str],
) -> Result<String, Refusal<'a>>
    ensures { EndsAs (edited_by_words (map (λ word. word.now) words.now)
        (reference_value reference.entry)) result }
{
    let edits = read_edits(alloc, words)?;
    let mut edited = reference.to_owned(alloc)?;
    match apply_all(&mut edited, edits.as_slice()) {
        Ok(()) => Ok(edited.into_string()),
        Err((_, EditFault::Memory)) => Err(Refusal::Memory),
        Err((at, _)) => match words.get(at) {
            Some(word) => Err(Refusal::Word("EDIT", *word, Reason::NoAuthority)),
            None => Err(Refusal::Memory),
        },
    }
}
