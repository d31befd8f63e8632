//! Owned values of the text of a URL.
ghost use Rattle.std.specs.Prelude.{◌≡◌};
ghost use Rattle.url.specs.Parts.{serialize};
ghost use Rattle.iref_reference_text.specs.{Text, InUtf8, Parses};
ghost use Rattle.iref_reference.specs.References.{reference_buf_text};
ghost use Rattle.iref_url.specs.declared.error.FromUrlError.TheVariants.{Invalid};

use crate::error::FromUrlError;
use iref_component::rule::Refuses;
use iref_grammar::chars::CharSet;
use iref_reference::owned::ReferenceBuf;
use iref_reference_text::reference_text::HeldRule;
use url::Url;

/// An owned value that is made of the text of a URL: `UriBuf`, `UriRefBuf`, `IriBuf` and
/// `IriRefBuf`.
pub trait TryFromUrl: Sized {
    /// The rule of its texts.
    ghost rule: { Text → Type 0 };

    /// Its text.
    ghost text: { Self → Text };

    /// The URL's text as an owned value, with no copy, or the URL if that text is outside the rule,
    /// as that of `http://a/[b]`.
    fn try_from_url(url: Url) -> Result<Self, FromUrlError>
        ensures { Parses rule (serialize url) text (λ error. error ≡ Invalid url) result };
}

impl<R: HeldRule + Refuses<String>, C: CharSet> TryFromUrl for ReferenceBuf<R, C> {
    ghost rule = { InUtf8 (R.rule C.tests) };

    ghost text = { reference_buf_text };

    fn try_from_url(url: Url) -> Result<Self, FromUrlError> {
        if R::accepts::<C>(url.as_str()) {
            Ok(ReferenceBuf::new(String::from(url)).unwrap())
        } else {
            Err(FromUrlError::Invalid(url))
        }
    }
}
