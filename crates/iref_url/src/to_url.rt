//! The URL that a text is parsed to.
ghost use Rattle.std.specs.Prelude.{None};
ghost use Rattle.url.specs.Parser.{Gives, parse_url};
ghost use Rattle.iref_reference.specs.{Text, reference_text, reference_buf_text};

use iref_grammar::chars::CharSet;
use iref_reference::borrowed::Uri;
use iref_reference::owned::UriBuf;
use std::alloc::Global;
use url::{ParseError, Url};

/// What has a URL: `Uri`, `UriBuf`, `Iri` and `IriBuf`. `use iref_url::ToUrl;` brings the call.
pub trait ToUrl {
    /// Its text.
    ghost text: { Self → Text };

    /// The URL that the URL Standard parses from the text: of `HTTP://EXAMPLE.org:80/./a` it is
    /// `http://example.org/a`.
    ///
    /// # Errors
    ///
    /// Why the URL Standard has no URL for the text, as `EmptyHost` for `http://`. `OutOfMemory`
    /// where memory runs out, and `Overflow` where the URL comes to 4 GB.
    fn to_url(&self, alloc: Global) -> Result<Url, ParseError>
        ensures { Gives result (parse_url None (text self.now)) };
}

impl<C: CharSet> ToUrl for Uri<'_, C> {
    ghost text = { reference_text };

    fn to_url(&self, alloc: Global) -> Result<Url, ParseError> {
        Url::parse(alloc, self.as_str())
    }
}

impl<C: CharSet> ToUrl for UriBuf<C> {
    ghost text = { reference_buf_text };

    fn to_url(&self, alloc: Global) -> Result<Url, ParseError> {
        let text = self.as_str();
        Url::parse(alloc, text)
    }
}
