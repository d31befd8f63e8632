//! The ASCII characters of the rules of characters and escapes.
ghost use Rattle.std.specs.Prelude.{◌≡◌, slice_index};

/// The characters of registered names (RFC 3986 section 3.2.2), the first rule of characters by
/// number: each allows those of the rules before it that are ASCII.
pub const REG_NAME: u8 = 0;

/// The characters of user infos (section 3.2.1).
pub const USER_INFO: u8 = 1;

/// The characters of segments (section 3.3).
pub const SEGMENT: u8 = 2;

/// The characters of paths (section 3.3).
pub const PATH: u8 = 3;

/// The characters of fragments (section 3.5).
pub const FRAGMENT: u8 = 4;

/// The characters of queries (section 3.4).
pub const QUERY: u8 = 5;

/// The characters of percent-encoded texts: all but `%`.
pub const PCT_STR: u8 = 6;

// Of each byte the first of these rules that allows it. 7 is `%`, and 8 is not ASCII.
static FIRST_RULES: [u8; 256] = [
    6, 6, 6, 6, 6, 6, 6, 6, 6, 6, 6, 6, 6, 6, 6, 6, 6, 6, 6, 6, 6, 6, 6, 6, 6, 6, 6, 6, 6, 6, 6, 6,
    6, 0, 6, 6, 0, 7, 0, 0, 0, 0, 0, 0, 0, 0, 0, 3, 0, 0, 0, 0, 0, 0, 0, 0, 0, 0, 1, 0, 6, 0, 6, 4,
    2, 0, 0, 0, 0, 0, 0, 0, 0, 0, 0, 0, 0, 0, 0, 0, 0, 0, 0, 0, 0, 0, 0, 0, 0, 0, 0, 6, 6, 6, 6, 0,
    6, 0, 0, 0, 0, 0, 0, 0, 0, 0, 0, 0, 0, 0, 0, 0, 0, 0, 0, 0, 0, 0, 0, 0, 0, 0, 0, 6, 6, 6, 0, 6,
    8, 8, 8, 8, 8, 8, 8, 8, 8, 8, 8, 8, 8, 8, 8, 8, 8, 8, 8, 8, 8, 8, 8, 8, 8, 8, 8, 8, 8, 8, 8, 8,
    8, 8, 8, 8, 8, 8, 8, 8, 8, 8, 8, 8, 8, 8, 8, 8, 8, 8, 8, 8, 8, 8, 8, 8, 8, 8, 8, 8, 8, 8, 8, 8,
    8, 8, 8, 8, 8, 8, 8, 8, 8, 8, 8, 8, 8, 8, 8, 8, 8, 8, 8, 8, 8, 8, 8, 8, 8, 8, 8, 8, 8, 8, 8, 8,
    8, 8, 8, 8, 8, 8, 8, 8, 8, 8, 8, 8, 8, 8, 8, 8, 8, 8, 8, 8, 8, 8, 8, 8, 8, 8, 8, 8, 8, 8, 8, 8,
];

/// The number of the first rule that allows the byte, or a greater number.
pub(crate) fn first_rule(byte: u8) -> u8
    ensures { result ≡ slice_index FIRST_RULES byte }
{
    FIRST_RULES[usize::from(byte)]
}
