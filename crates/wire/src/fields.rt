// Big-endian fields, at places that lie in the bytes.
ghost use Rattle.std.specs.Prelude.{◌≡◌, ◌+◌, ◌≤◌, length};
ghost use Rattle.base.specs.Fields.{be};

// The bytes of a field at a place, for `from_be_bytes`.
pub(crate) fn bytes_at<const N: usize>(bytes: &[u8], at: usize) -> [u8; N]
    requires { at + N ≤ length bytes.now }
    ensures { be N result 0 ≡ be N bytes.now at }
{
    *bytes[at..].first_chunk().unwrap()
}
