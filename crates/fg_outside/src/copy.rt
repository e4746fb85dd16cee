ghost use Rattle.std.specs.Prelude.{◌≡◌, ◌≤◌, length, take, drop, min};

/// Copies bytes to the front of the buffer, as many as it has room for, and says how many.
pub(crate) fn copy_front(from: &[u8], buf: &mut [u8]) -> usize
    ensures count { result ≡ min (length buf.old) (length from.now) }
    ensures front { take result buf.new ≡ take result from.now }
    ensures behind { drop result buf.new ≡ drop result buf.old }
{
    let count = buf.len().min(from.len());
    buf[..count].copy_from_slice(&from[..count]);
    count
}
