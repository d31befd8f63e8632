//! Bytes of IRIs mapped to those of URIs (RFC 3987 section 3.1): into a new text, and in place.
ghost use Rattle.std.specs.Prelude.{◌≡◌, ◌+◌, ◌≤◌, ◌++◌, length, take, drop, IfOk, OnOk, OnErr};
ghost use Rattle.std.specs.String.{string_bytes};
ghost use Rattle.iref_grammar.specs.Mapping.{mapped_byte, mapped, count_escaped};

use percent_encoding::percent_encode_byte;
use std::alloc::{AllocError, Global};

// How many bytes of a part the mapping escapes. So small a count is kept in a byte, so that one
// instruction counts many bytes.
fn count_in_part(part: &[u8]) -> u8
    requires { length part.now ≤ 255 }
    ensures { result ≡ count_escaped part.now }
{
    let mut count = 0;
    for byte in part {
        count += u8::from(!byte.is_ascii());
    }
    count
}

/// How many bytes the mapping escapes: each takes two more bytes.
pub fn count_escaped(bytes: &[u8]) -> usize
    ensures { result ≡ count_escaped bytes.now }
{
    let mut count = 0;
    for part in bytes.chunks(255) {
        count += usize::from(count_in_part(part));
    }
    count
}

/// The mapping of a text: of `é%41`, `%C3%A9%41`. Its memory is requested once.
pub fn mapped(alloc: Global, text: &str) -> Result<String, AllocError>
    ensures { IfOk result (λ copy. string_bytes copy ≡ mapped text.now) }
{
    let bytes = text.as_bytes();
    let escaped = count_escaped(bytes);
    let more = escaped.checked_mul(2).ok_or(AllocError)?;
    let len = bytes.len().checked_add(more).ok_or(AllocError)?;
    let mut copy = Vec::with_capacity(alloc, len)?;
    copy.extend_from_slice(bytes)?;
    map_in_place(&mut copy, escaped)?;
    // A mapping is ASCII, so no byte is read again.
    Ok(unsafe { String::from_utf8_unchecked(copy) })
}

// Writes the mapping of a byte so that it ends before `end`, and says where it begins.
#[tactic(auto, using(iref_grammar::proofs::MappedLemmas::lengths))]
fn put_mapped(buffer: &mut [u8], end: usize, byte: u8) -> usize
    requires room { length (mapped_byte byte) ≤ end }
    requires within { end ≤ length buffer.old }
    ensures start { result + length (mapped_byte byte) ≡ end }
    ensures written { buffer.new
        ≡ take result buffer.old ++ mapped_byte byte ++ drop end buffer.old }
{
    if byte.is_ascii() {
        let start = end - 1;
        buffer[start] = byte;
        start
    } else {
        let start = end - 3;
        let escape = percent_encode_byte(byte).as_bytes();
        buffer[start] = escape[0];
        buffer[start + 1] = escape[1];
        buffer[start + 2] = escape[2];
        start
    }
}

// Maps the first `from` bytes, from the last to the first, so that their mapping fills the buffer.
// Where as many bytes are left as there is room for, none of them is escaped, and all stand.
fn map_to_the_end(buffer: &mut [u8], from: usize)
    requires within { from ≤ length buffer.old }
    requires room { length buffer.old ≡ length (mapped (take from buffer.old)) }
    ensures { buffer.new ≡ mapped (take from buffer.old) }
{
    let mut left = from;
    let mut end = buffer.len();
    while left < end {
        left -= 1;
        let byte = buffer[left];
        end = put_mapped(buffer, end, byte);
    }
}

/// Maps bytes within their buffer; `escaped` of them are escaped. Memory is requested once, and
/// nothing changes where it is refused.
pub fn map_in_place(bytes: &mut Vec<u8>, escaped: usize) -> Result<(), AllocError>
    requires { escaped ≡ count_escaped bytes.old.items }
    ensures ok { OnOk result (bytes.new.items ≡ mapped bytes.old.items) }
    ensures err { OnErr result (bytes.new.items ≡ bytes.old.items) }
{
    let from = bytes.as_slice().len();
    bytes.reserve(2 * escaped)?;
    bytes.resize(from + 2 * escaped, 0)?;
    map_to_the_end(bytes.as_mut_slice(), from);
    Ok(())
}
