//! What is wrong with a text: one of its components, or the whole.
#![tactic(auto)]

/// A component of a reference (RFC 3986 section 3): in `http://h:8x0/` the port is invalid.
#[derive(Clone, Copy, Debug, PartialEq, Eq)]
pub enum Component {
    /// What stands before the first `:`, where no `/`, `?` or `#` is before that (section 3.1).
    Scheme,
    /// What stands before the `@` of an authority (section 3.2.1).
    UserInfo,
    /// A registered name or an address (section 3.2.2).
    Host,
    /// What follows the `:` after the host (section 3.2.3).
    Port,
    /// The segments with `/` between (section 3.3).
    Path,
    /// What stands between the first `?`, where no `#` is before that, and the next `#` or the end
    /// (section 3.4).
    Query,
    /// What follows the first `#` (section 3.5).
    Fragment,
}

/// Why a text is refused.
#[derive(Clone, Copy, Debug, PartialEq, Eq)]
pub enum Cause {
    /// This component is outside its rule.
    Invalid(Component),
    /// A URI is wanted, and the text has no scheme: `a/b`.
    NoScheme,
    /// The bytes are not UTF-8.
    NotUtf8,
}
