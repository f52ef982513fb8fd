ghost use Rattle.std.specs.Prelude.{◌≡◌, ◌++◌, length, min, take, drop};

/// Copies the first bytes into the front of the buffer, as many as there are and fit, but no more
/// than `most`, and answers how many.
pub fn copy_front(bytes: &[u8], buffer: &mut [u8], most: usize) -> usize
    ensures count { result ≡ min (min (length buffer.new) most) (length bytes.now) }
    ensures copied { buffer.new ≡ take result bytes.now ++ drop result buffer.old }
{
    let count = buffer.len().min(most).min(bytes.len());
    buffer[..count].copy_from_slice(&bytes[..count]);
    count
}
