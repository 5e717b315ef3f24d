ghost use Rattle.std.specs.Prelude.{◌≡◌, ◌-◌, min, take, drop, length};

/// Copies as many bytes from the place on as there are and fit.
pub(crate) fn copy_at(bytes: &[u8], at: u64, into: &mut [u8]) -> usize
    ensures count { result ≡ min (length into.old) (length bytes.now - at) }
    ensures bytes { take result into.new ≡ take result (drop at bytes.now) }
{
    let len = bytes.len() as u64;
    if at >= len {
        return 0;
    }
    let from = &bytes[at as usize..];
    let count = from.len().min(into.len());
    into[..count].copy_from_slice(&from[..count]);
    count
}
