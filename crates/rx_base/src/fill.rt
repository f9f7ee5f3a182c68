ghost use Rattle.std.specs.Prelude.{◌≡◌, ◌≤◌, ◌+◌, ◌-◌, ◌++◌, min, length, take, drop};

/// Copies the front of the bytes to the front of the buffer, at most `most` of them, and says how many.
pub fn fill(buf: &mut [u8], bytes: &[u8], most: usize) -> usize
    ensures count { result ≡ min most (min (length buf.old) (length bytes.now)) }
    ensures front { take result buf.new ≡ take result bytes.now }
    ensures filled { buf.new ≡ take result bytes.now ++ drop result buf.old }
{
    let count = most.min(buf.len().min(bytes.len()));
    buf[..count].copy_from_slice(&bytes[..count]);
    count
}

/// Copies the front of the bytes to the room after its first `len` bytes, at most `most` of them, and says how many.
pub fn append(room: &mut [u8], len: usize, bytes: &[u8], most: usize) -> usize
    requires { len ≤ length room.old }
    ensures count { result ≡ min most (min (length bytes.now) (length room.old - len)) }
    ensures stored { take (len + result) room.new ≡ take len room.old ++ take result bytes.now }
{
    fill(&mut room[len..], bytes, most)
}
