//! The rules of single texts (RFC 3986 section 3).
ghost use Rattle.std.specs.Prelude.{◌≡◌};
ghost use Rattle.iref_fault.specs.Places.{component_of};

use crate::component::Component;

/// The rule of a single text.
#[derive(Clone, Copy)]
pub enum PartRule {
    /// Schemes (section 3.1).
    Scheme,
    /// User infos (section 3.2.1).
    UserInfo,
    /// Hosts (section 3.2.2).
    Host,
    /// Ports (section 3.2.3).
    Port,
    /// Paths (section 3.3).
    Path,
    /// Paths without a scheme or an authority before them (section 4.2).
    BarePath,
    /// Segments (section 3.3).
    Segment,
    /// Queries (section 3.4).
    Query,
    /// Fragments (section 3.5).
    Fragment,
}

impl PartRule {
    /// The component that is invalid where a text is outside the rule.
    pub(crate) fn component(self) -> Component
        ensures { result ≡ component_of self }
    {
        match self {
            PartRule::Scheme => Component::Scheme,
            PartRule::UserInfo => Component::UserInfo,
            PartRule::Host => Component::Host,
            PartRule::Port => Component::Port,
            PartRule::Path | PartRule::BarePath | PartRule::Segment => Component::Path,
            PartRule::Query => Component::Query,
            PartRule::Fragment => Component::Fragment,
        }
    }
}
