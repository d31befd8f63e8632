//! Buffers of bytes that are used again.
ghost use Rattle.std.specs.Prelude.{◌≡◌, [], ◌++◌, ◌∷◌, OnOk, OnErr};

use iref::Memory;

/// How many bytes are gathered before they are answered or written.
pub const GATHERED: usize = 1 << 16;

/// How many bytes of room a buffer keeps for what comes next.
const KEPT: usize = 1 << 17;

/// Empties the buffer. Room that it took for one long line is given back, so that a later line
/// finds it.
pub fn empty(bytes: &mut Vec<u8>)
    ensures { bytes.new.items ≡ [] }
{
    bytes.clear();
    bytes.shrink_to(KEPT);
}

/// Adds a line and an LF. Out of memory, it returns `Memory` and adds nothing.
pub fn push_line(bytes: &mut Vec<u8>, line: &[u8]) -> Result<(), Memory>
    ensures ok { OnOk result (bytes.new.items ≡ bytes.old.items ++ line.now ++ 10 ∷ []) }
    ensures err { OnErr result (bytes.new.items ≡ bytes.old.items) }
{
    let room = line.len().checked_add(1).ok_or(Memory)?;
    bytes.reserve(room)?;
    bytes.extend_from_slice(line)?;
    bytes.push(b'\n')?;
    Ok(())
}
