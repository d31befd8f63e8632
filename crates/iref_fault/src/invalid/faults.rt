//! Where a refused input is wrong, and why. The errors serve URIs and IRIs, so a call names the
//! characters: `UriChars` or `IriChars`.
ghost use Rattle.std.specs.Prelude.{◌≡◌, option_map};
ghost use Rattle.iref_fault.specs.BytePlaces.{fault_value};
ghost use Rattle.iref_fault.specs.Faults as spec;
ghost use Rattle.iref_fault.specs.declared.part.PartRule.TheVariants as rule;

use crate::fault::{self, Fault};
use crate::invalid::{
    InvalidAuthority, InvalidFragment, InvalidHost, InvalidPath, InvalidPort, InvalidQuery,
    InvalidScheme, InvalidSegment, InvalidUri, InvalidUriRef, InvalidUserInfo,
};
use crate::part::PartRule;
use iref_grammar::chars::CharSet;

impl InvalidUri<&str> {
    /// Where the input is wrong, and why: of `a/b`, that it has no scheme. None if it is a URI after all.
    pub fn fault<C: CharSet>(&self) -> Option<Fault>
        ensures { option_map fault_value result
            ≡ spec.fault_of_uri C.tests self.now.0.now }
    {
        fault::fault_of_uri::<C>(self.0)
    }
}

impl InvalidUriRef<&str> {
    /// Where the input is wrong, and why: of `a/b c`, in the path, at 3. None if it is a reference after all.
    pub fn fault<C: CharSet>(&self) -> Option<Fault>
        ensures { option_map fault_value result
            ≡ spec.fault_of_reference C.tests self.now.0.now }
    {
        fault::fault_of_reference::<C>(self.0)
    }
}

impl InvalidScheme<&str> {
    /// Where the input is wrong, and why: of `a b`, at 1. None if it is a scheme after all.
    pub fn fault<C: CharSet>(&self) -> Option<Fault>
        ensures { option_map fault_value result
            ≡ spec.fault_of_part C.tests rule.Scheme self.now.0.now }
    {
        fault::fault_of_part::<C>(PartRule::Scheme, self.0)
    }
}

impl InvalidAuthority<&str> {
    /// Where the input is wrong, and why: of `u@h:8x`, in the port, at 5. None if it is an authority after all.
    pub fn fault<C: CharSet>(&self) -> Option<Fault>
        ensures { option_map fault_value result
            ≡ spec.fault_of_authority C.tests self.now.0.now }
    {
        fault::fault_of_authority::<C>(self.0)
    }
}

impl InvalidUserInfo<&str> {
    /// Where the input is wrong, and why: of `a@b`, at 1. None if it is a user info after all.
    pub fn fault<C: CharSet>(&self) -> Option<Fault>
        ensures { option_map fault_value result
            ≡ spec.fault_of_part C.tests rule.UserInfo self.now.0.now }
    {
        fault::fault_of_part::<C>(PartRule::UserInfo, self.0)
    }
}

impl InvalidHost<&str> {
    /// Where the input is wrong, and why: of `a b`, at 1. None if it is a host after all.
    pub fn fault<C: CharSet>(&self) -> Option<Fault>
        ensures { option_map fault_value result
            ≡ spec.fault_of_part C.tests rule.Host self.now.0.now }
    {
        fault::fault_of_part::<C>(PartRule::Host, self.0)
    }
}

impl InvalidPort<&str> {
    /// Where the input is wrong, and why: of `8x0`, at 1. None if it is a port after all.
    pub fn fault<C: CharSet>(&self) -> Option<Fault>
        ensures { option_map fault_value result
            ≡ spec.fault_of_part C.tests rule.Port self.now.0.now }
    {
        fault::fault_of_part::<C>(PartRule::Port, self.0)
    }
}

impl InvalidPath<&str> {
    /// Where the input is wrong, and why: of `a%4`, at 3, where it ends. None if it is a path after all.
    pub fn fault<C: CharSet>(&self) -> Option<Fault>
        ensures { option_map fault_value result
            ≡ spec.fault_of_part C.tests rule.Path self.now.0.now }
    {
        fault::fault_of_part::<C>(PartRule::Path, self.0)
    }
}

impl InvalidSegment<&str> {
    /// Where the input is wrong, and why: of `a/b`, at 1. None if it is a segment after all.
    pub fn fault<C: CharSet>(&self) -> Option<Fault>
        ensures { option_map fault_value result
            ≡ spec.fault_of_part C.tests rule.Segment self.now.0.now }
    {
        fault::fault_of_part::<C>(PartRule::Segment, self.0)
    }
}

impl InvalidQuery<&str> {
    /// Where the input is wrong, and why: of `a#b`, at 1. None if it is a query after all.
    pub fn fault<C: CharSet>(&self) -> Option<Fault>
        ensures { option_map fault_value result
            ≡ spec.fault_of_part C.tests rule.Query self.now.0.now }
    {
        fault::fault_of_part::<C>(PartRule::Query, self.0)
    }
}

impl InvalidFragment<&str> {
    /// Where the input is wrong, and why: of `a#b`, at 1. None if it is a fragment after all.
    pub fn fault<C: CharSet>(&self) -> Option<Fault>
        ensures { option_map fault_value result
            ≡ spec.fault_of_part C.tests rule.Fragment self.now.0.now }
    {
        fault::fault_of_part::<C>(PartRule::Fragment, self.0)
    }
}
