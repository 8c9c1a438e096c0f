// Bytes copied into a lent buffer.
ghost use Rattle.std.specs.Prelude.{◌≡◌, ◌+◌, ◌≤◌, length};
ghost use Rattle.identifiers.specs.Bytes.{written};

// Writes `bytes` into `buffer` from `at` on; every other byte stays. It asks for room, which no public function may: so it stands here too.
pub fn store(buffer: &mut [u8], at: usize, bytes: &[u8])
    requires { at + length bytes.now ≤ length buffer.old }
    ensures { buffer.new ≡ written buffer.old at bytes.now }
{
    buffer[at..at + bytes.len()].copy_from_slice(bytes);
}

// As `store`, byte by byte. Where the compiler knows neither how many bytes there are nor that they lie outside the buffer, copied at once
// they would be a call of `memmove`; an archive calls `memcpy` and `memset` alone.
pub fn store_each(buffer: &mut [u8], at: usize, bytes: &[u8])
    requires { at + length bytes.now ≤ length buffer.old }
    ensures { buffer.new ≡ written buffer.old at bytes.now }
{
    for i in 0..bytes.len() {
        buffer[at + i] = bytes[i];
    }
}
