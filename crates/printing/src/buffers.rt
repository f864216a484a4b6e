ghost use Rattle.std.specs.Prelude.{◌≡◌, ◌+◌, ◌≤◌, length};
ghost use Rattle.printing.specs.Buffers.{over};

/// Writes the bytes into the buffer from `at` on, and says where they end. By a place and not by what is left of the buffer: what is promised is the whole
/// buffer, of which a part that is lent on says nothing.
pub fn put(out: &mut [u8], at: usize, bytes: &[u8]) -> usize
    requires { at + length bytes.now ≤ length out.old }
    ensures out { out.new ≡ over out.old at bytes.now }
    ensures end { result ≡ at + length bytes.now }
{
    let end = at + bytes.len();
    out[at..end].copy_from_slice(bytes);
    end
}
