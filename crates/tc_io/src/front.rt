//! Bytes that are copied from the front of one slice to the front of another.
ghost use Rattle.std.specs.Prelude.{◌≡◌, ◌++◌, min, length, take, drop};

/// Copies as many bytes as `most`, the source and the buffer allow, and answers how many.
pub fn copy_front(left: &[u8], buf: &mut [u8], most: usize) -> usize
    ensures count { result ≡ min (min most (length buf.old)) (length left.now) }
    ensures filled { buf.new ≡ take result left.now ++ drop result buf.old }
    ensures given { left.now ≡ take result buf.new ++ drop result left.now }
{
    let count = most.min(buf.len()).min(left.len());
    buf[..count].copy_from_slice(&left[..count]);
    count
}
