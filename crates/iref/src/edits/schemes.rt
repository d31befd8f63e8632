//! Edits of the scheme, which a URI cannot lose.
ghost use Rattle.std.specs.Prelude.{option_map};
ghost use Rattle.iref_grammar.specs.Edits.{SetScheme};
ghost use Rattle.iref_reference.specs.{text_of, reference_buf_text};
ghost use Rattle.iref.specs.EditAnswers.{AppliesEdit, edited_in};

use crate::edits::EditFault;
use iref_component::named_texts::Scheme;
use iref_grammar::chars::CharSet;
use iref_reference::owned::{ReferenceBuf, UriBuf, UriRefBuf};
use iref_reference::rule::{ReferenceRule, UriRule};
use iref_reference_text::reference_text::HeldRule;

/// A rule of references, with what an edit of the scheme does under it.
pub trait SetsScheme: HeldRule {
    /// Replaces the scheme, or takes it away where the rule allows that.
    fn set_scheme<C: CharSet>(
        reference: &mut ReferenceBuf<Self, C>,
        scheme: Option<Scheme<'_>>,
    ) -> Result<(), EditFault>
        ensures { AppliesEdit (edited_in Self.allows_scheme)
            (SetScheme (option_map text_of scheme.entry))
            (reference_buf_text reference.old) (reference_buf_text reference.new) result };
}

impl SetsScheme for ReferenceRule {
    #[tactic(auto, unfolding(iref_grammar::specs::Edits::edited))]
    fn set_scheme<C: CharSet>(
        reference: &mut UriRefBuf<C>,
        scheme: Option<Scheme<'_>>,
    ) -> Result<(), EditFault> {
        Ok(reference.set_scheme(scheme)?)
    }
}

impl SetsScheme for UriRule {
    #[tactic(auto, unfolding(iref_grammar::specs::Edits::edited, iref_grammar::specs::Edits::edited_uri))]
    fn set_scheme<C: CharSet>(
        reference: &mut UriBuf<C>,
        scheme: Option<Scheme<'_>>,
    ) -> Result<(), EditFault> {
        match scheme {
            Some(scheme) => Ok(reference.set_scheme(scheme)?),
            None => Err(EditFault::SchemeNeeded),
        }
    }
}
