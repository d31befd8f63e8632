//! Which component of a text keeps it from being an IRI reference, and where.
ghost use Rattle.std.specs.Prelude.{◌≡◌, Some, MatchResult};
ghost use Rattle.iref.specs.{BytePlaces.{fault_value}, Faults.{fault_of_reference}, Characters.{iri_chars}};
ghost use Rattle.iref.specs.{ComponentTexts.{spell_components}, Grammar.{IsUriReference}, Reference.{read_reference}};
ghost use Rattle.iref.specs.Rules.{InUtf8};
ghost use Rattle.iref_examples.specs.Components.{IsChecked, IsFirstOutside};

use iref::iri::{Authority, Fragment, Path, Query, Scheme};
use iref::{Fault, IriRef};
use iref_parse::split::split_reference;
use std::convert::TryFrom;
use std::fmt;

/// A component of a reference (RFC 3986 section 3).
#[derive(Clone, Copy)]
pub enum Component {
    /// What stands before the first `:`, where no `/`, `?` or `#` is before that.
    Scheme,
    /// What stands between `//` and the next `/`, `?` or `#`.
    Authority,
    /// What follows, up to the next `?` or `#`.
    Path,
    /// What stands between `?` and the next `#`.
    Query,
    /// What follows `#`.
    Fragment,
}

impl fmt::Display for Component {
    fn fmt<W: fmt::Write>(&self, f: &mut fmt::Formatter<W>) -> fmt::Result {
        f.write_str(match self {
            Component::Scheme => "scheme",
            Component::Authority => "authority",
            Component::Path => "path",
            Component::Query => "query",
            Component::Fragment => "fragment",
        })
    }
}

// Whether the text, if there is one, is of the type; else the error names the component.
fn check<'a, T: TryFrom<&'a str>>(
    component: Component,
    text: Option<&'a str>,
) -> Result<(), Component>
where
    T: Drop,
    T::Error: Drop,
    ensures { IsChecked T.try_from_gives component text.entry result }
{
    let Some(text) = text else {
        return Ok(());
    };
    match T::try_from(text) {
        Ok(_) => Ok(()),
        Err(_) => Err(component),
    }
}

/// Whether the text is an IRI reference; else the error names the first of its components, as it
/// is cut by RFC 3986 appendix B, that is outside its rule.
pub fn checked(text: &str) -> Result<(), Component>
    ensures { MatchResult result (λ _. InUtf8 (IsUriReference iri_chars) text.now)
        (λ component. (¬ (InUtf8 (IsUriReference iri_chars) text.now))
        × IsFirstOutside component (spell_components (read_reference text.now))) }
{
    let parts = split_reference(text);
    check::<Scheme>(Component::Scheme, parts.scheme)?;
    check::<Authority>(Component::Authority, parts.authority)?;
    check::<Path>(Component::Path, Some(parts.path))?;
    check::<Query>(Component::Query, parts.query)?;
    check::<Fragment>(Component::Fragment, parts.fragment)
}

/// Whether the text is an IRI reference; else the error is the component that `checked` names, and
/// where it is wrong and why: of `http://h:8x/` the authority, and the port at byte 10.
pub fn explained(text: &str) -> Result<(), (Component, Fault)>
    ensures { MatchResult result (λ _. InUtf8 (IsUriReference iri_chars) text.now)
        (λ wrong. (¬ (InUtf8 (IsUriReference iri_chars) text.now))
        × IsFirstOutside wrong.0 (spell_components (read_reference text.now))
        × (fault_of_reference iri_chars text.now ≡ Some (fault_value wrong.1))) }
{
    let Some(fault) = IriRef::fault(text) else {
        return Ok(());
    };
    match checked(text) {
        Ok(()) => Ok(()),
        Err(component) => Err((component, fault)),
    }
}
