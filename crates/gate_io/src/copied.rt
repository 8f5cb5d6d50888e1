// The prefix of some bytes, copied into a buffer.
ghost use Rattle.std.specs.Prelude.{◌≡◌, length, take, min};

/// Copies as many bytes from the start as fit, at most `most`, and says how many.
pub fn copy_prefix(bytes: &[u8], most: usize, buf: &mut [u8]) -> usize
    ensures count { result ≡ min (min (length bytes.now) (length buf.old)) most }
    ensures prefix { take result buf.new ≡ take result bytes.now }
    ensures same { length buf.new ≡ length buf.old }
{
    let count = bytes.len().min(buf.len()).min(most);
    buf[..count].copy_from_slice(&bytes[..count]);
    count
}
