//! The texts that have no parts, by name: each is the borrowed, or the owned, text of its rule.
ghost use Rattle.std.specs.Prelude.{◌≡◌, codes};
ghost use Rattle.iref_component.specs.Components.{text_of};

use crate::borrowed::BorrowedText;
use crate::component_rules::{
    FragmentRule, HostRule, PortRule, QueryRule, SchemeRule, SegmentRule, UserInfoRule,
};
use crate::owned::TextBuf;
use iref_grammar::chars::{CharSet, UriChars};

/// A scheme (RFC 3986 section 3.1): `HTTP://h` has the scheme `HTTP`, which is equal to `http`.
/// `InvalidScheme` holds a text that is no scheme, such as `1a`.
pub type Scheme<'a> = BorrowedText<'a, SchemeRule, UriChars>;
/// A scheme that owns its text (RFC 3986 section 3.1), such as `urn` of `urn:isbn:1`.
pub type SchemeBuf = TextBuf<SchemeRule, UriChars>;

/// A user info (RFC 3986 section 3.2.1): `//u:p@h` has `u:p`, which is equal to `%75:p`.
/// `InvalidUserInfo` holds a text that is no user info, such as `a@b`.
pub type UserInfo<'a, C> = BorrowedText<'a, UserInfoRule, C>;
/// A user info that owns its text (RFC 3986 section 3.2.1), such as `u` of `//u@h`.
pub type UserInfoBuf<C> = TextBuf<UserInfoRule, C>;

/// A host (RFC 3986 section 3.2.2), a name or an address: `//[::1]:80` has the host `[::1]`, and
/// `//h` the host `h`. `InvalidHost` holds a text that is no host, such as `a:b`.
pub type Host<'a, C> = BorrowedText<'a, HostRule, C>;
/// A host that owns its text (RFC 3986 section 3.2.2): of the number 0x7F00_0001 it is `127.0.0.1`.
pub type HostBuf<C> = TextBuf<HostRule, C>;

/// A port (RFC 3986 section 3.2.3), any number of digits: `//h:80` has the port `80`, and `//h:`
/// the empty one. `InvalidPort` holds a text that is no port, such as `8a`; `PortError` says why a
/// port is no number of a type.
pub type Port<'a> = BorrowedText<'a, PortRule, UriChars>;
/// A port that owns its text (RFC 3986 section 3.2.3): of the number 80 it is `80`.
pub type PortBuf = TextBuf<PortRule, UriChars>;

/// A segment (RFC 3986 section 3.3), what stands between two `/`: `/a//b` has `a`, the empty one
/// and `b`. `InvalidSegment` holds a text that is no segment, such as `a/b`.
pub type Segment<'a, C> = BorrowedText<'a, SegmentRule, C>;
/// A segment that owns its text (RFC 3986 section 3.3), such as `b%2Fc` of `a/b%2Fc`.
pub type SegmentBuf<C> = TextBuf<SegmentRule, C>;

/// A query (RFC 3986 section 3.4), without its `?`: `/a?q=1#f` has the query `q=1`, and `/a?` the
/// empty one. `InvalidQuery` holds a text that is no query, such as `a#b`.
pub type Query<'a, C> = BorrowedText<'a, QueryRule, C>;
/// A query that owns its text (RFC 3986 section 3.4), such as `q=1` of `?q=1`.
pub type QueryBuf<C> = TextBuf<QueryRule, C>;

/// A fragment (RFC 3986 section 3.5), without its `#`: `/a#f` has the fragment `f`, and `/a#` the
/// empty one. `InvalidFragment` holds a text that is no fragment, such as `a#b`.
pub type Fragment<'a, C> = BorrowedText<'a, FragmentRule, C>;
/// A fragment that owns its text (RFC 3986 section 3.5), such as `f` of `#f`.
pub type FragmentBuf<C> = TextBuf<FragmentRule, C>;

impl SchemeBuf {
    /// The borrowed text, such as `http`.
    pub fn as_scheme(&self) -> Scheme<'_>
        ensures { text_of result ≡ text_of self.now }
    {
        self.as_borrowed()
    }
}

impl<C: CharSet> UserInfoBuf<C> {
    /// The borrowed text, such as `u:p`.
    pub fn as_user_info(&self) -> UserInfo<'_, C>
        ensures { text_of result ≡ text_of self.now }
    {
        self.as_borrowed()
    }
}

impl<C: CharSet> HostBuf<C> {
    /// The borrowed text, such as `a.org`.
    pub fn as_host(&self) -> Host<'_, C>
        ensures { text_of result ≡ text_of self.now }
    {
        self.as_borrowed()
    }
}

impl PortBuf {
    /// The borrowed text, such as `80`.
    pub fn as_port(&self) -> Port<'_>
        ensures { text_of result ≡ text_of self.now }
    {
        self.as_borrowed()
    }
}

impl<C: CharSet> SegmentBuf<C> {
    /// The borrowed text, such as `b%2Fc`.
    pub fn as_segment(&self) -> Segment<'_, C>
        ensures { text_of result ≡ text_of self.now }
    {
        self.as_borrowed()
    }
}

impl<C: CharSet> QueryBuf<C> {
    /// The borrowed text, such as `x=1`.
    pub fn as_query(&self) -> Query<'_, C>
        ensures { text_of result ≡ text_of self.now }
    {
        self.as_borrowed()
    }
}

impl<C: CharSet> FragmentBuf<C> {
    /// The borrowed text, such as `b/c`.
    pub fn as_fragment(&self) -> Fragment<'_, C>
        ensures { text_of result ≡ text_of self.now }
    {
        self.as_borrowed()
    }
}

#[tactic(auto, unfolding(iref_grammar::specs::Tests::is_scheme))]
impl Scheme<'static> {
    /// The scheme `http`.
    pub fn http() -> Self
        ensures { text_of result ≡ codes "http" }
    {
        Scheme::new_unchecked("http")
    }

    /// The scheme `https`.
    pub fn https() -> Self
        ensures { text_of result ≡ codes "https" }
    {
        Scheme::new_unchecked("https")
    }

    /// The scheme `file`.
    pub fn file() -> Self
        ensures { text_of result ≡ codes "file" }
    {
        Scheme::new_unchecked("file")
    }

    /// The scheme `ftp`.
    pub fn ftp() -> Self
        ensures { text_of result ≡ codes "ftp" }
    {
        Scheme::new_unchecked("ftp")
    }

    /// The scheme `urn`.
    pub fn urn() -> Self
        ensures { text_of result ≡ codes "urn" }
    {
        Scheme::new_unchecked("urn")
    }

    /// The scheme `data`.
    pub fn data_scheme() -> Self
        ensures { text_of result ≡ codes "data" }
    {
        Scheme::new_unchecked("data")
    }

    /// The scheme `mailto`.
    pub fn mailto() -> Self
        ensures { text_of result ≡ codes "mailto" }
    {
        Scheme::new_unchecked("mailto")
    }
}

#[tactic(auto, unfolding(iref_grammar::specs::Tests::is_port))]
impl Port<'static> {
    /// The port of the scheme `http`: `80`.
    pub fn http() -> Self
        ensures { text_of result ≡ codes "80" }
    {
        Port::new_unchecked("80")
    }

    /// The port of the scheme `https`: `443`.
    pub fn https() -> Self
        ensures { text_of result ≡ codes "443" }
    {
        Port::new_unchecked("443")
    }
}

#[tactic(auto, using(iref_grammar::proofs::PathGrammarLemmas::short_segments))]
impl<C: CharSet> Segment<'_, C> {
    /// The segment `.`.
    pub fn current() -> Self
        ensures { text_of result ≡ codes "." }
    {
        Segment::new_unchecked(".")
    }

    /// The segment `..`.
    pub fn parent() -> Self
        ensures { text_of result ≡ codes ".." }
    {
        Segment::new_unchecked("..")
    }
}
