//! How many bytes two texts begin with alike.
ghost use Rattle.std.specs.{Prelude.{◌≡◌, nat_eq}, List.{common_prefix_len}};

use crate::lanes::{common_lanes, load};

/// How many bytes two texts have in common from the front on.
#[inline(always)]
pub fn common_front(a: &[u8], b: &[u8]) -> usize
    ensures { result ≡ common_prefix_len nat_eq a.now b.now }
{
    let len = a.len().min(b.len());
    let mut at = 0;
    while 16 <= len - at {
        let same = common_lanes(load(a, at), load(b, at));
        if same < 16 {
            return at + same;
        }
        at += 16;
    }
    while at < len && a[at] == b[at] {
        at += 1;
    }
    at
}
