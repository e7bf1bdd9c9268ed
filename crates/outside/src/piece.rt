ghost use Rattle.std.specs.Prelude.{◌≡◌, ◌-◌, length, take, drop, min};

/// Copies the bytes from this place on to the front of `into`, so many at most. It answers their
/// count.
pub fn copy_piece(bytes: &[u8], at: usize, most: usize, into: &mut [u8]) -> usize
    ensures count { result ≡ min most (min (length into.new) (length bytes.now - at)) }
    ensures copied { take result into.new ≡ take result (drop at bytes.now) }
{
    let start = at.min(bytes.len());
    let rest = &bytes[start..];
    let count = most.min(into.len().min(rest.len()));
    into[..count].copy_from_slice(&rest[..count]);
    count
}
