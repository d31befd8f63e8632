//! Where a text is outside the rule of references of IRIs, as C sees it (RFC 3986 appendix B).
ghost use Rattle.std.specs.Prelude.{◌≡◌};
ghost use Rattle.iref.specs.{Characters.{iri_chars}, Faults.{fault_of_reference}};
ghost use Rattle.iref_c.specs.Faults.{number_of_cause, place_for_c};

use crate::status::OK;
use crate::store::store;
use iref::iri::IriRef;
use iref::{Cause, Component};

/// What is wrong in a text, and at which byte.
#[repr(C)]
#[derive(Clone, Copy)]
pub struct Place {
    /// One of the numbers below.
    pub what: usize,
    /// How many bytes stand before the place.
    pub at: usize,
}

/// Nothing is wrong.
pub const NOTHING: usize = 0;
/// The scheme is wrong.
pub const SCHEME: usize = 1;
/// The user info is wrong.
pub const USER_INFO: usize = 2;
/// The host is wrong.
pub const HOST: usize = 3;
/// The port is wrong.
pub const PORT: usize = 4;
/// The path is wrong.
pub const PATH: usize = 5;
/// The query is wrong.
pub const QUERY: usize = 6;
/// The fragment is wrong.
pub const FRAGMENT: usize = 7;
/// The bytes are not UTF-8.
pub const NOT_UTF8: usize = 8;

// The number of a cause. `NoScheme` is no cause of a reference, which needs no scheme.
fn number_of(cause: Cause) -> usize
    ensures { result ≡ number_of_cause cause }
{
    match cause {
        Cause::Invalid(Component::Scheme) | Cause::NoScheme => SCHEME,
        Cause::Invalid(Component::UserInfo) => USER_INFO,
        Cause::Invalid(Component::Host) => HOST,
        Cause::Invalid(Component::Port) => PORT,
        Cause::Invalid(Component::Path) => PATH,
        Cause::Invalid(Component::Query) => QUERY,
        Cause::Invalid(Component::Fragment) => FRAGMENT,
        Cause::NotUtf8 => NOT_UTF8,
    }
}

/// What keeps a text from being a reference, and where.
#[unsafe(no_mangle)]
pub extern "C" fn iref_fault(text: &[u8], place: &mut Place) -> u32
    ensures status { result ≡ OK }
    ensures place { place.new ≡ place_for_c (fault_of_reference iri_chars text.now) }
{
    let found = match IriRef::fault_of_bytes(text) {
        Some(fault) => Place {
            what: number_of(fault.cause()),
            at: fault.at(),
        },
        None => Place {
            what: NOTHING,
            at: 0,
        },
    };
    store(found, place)
}
