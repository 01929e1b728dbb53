ghost use Rattle.std.specs.Prelude.{◌≡◌, ◌≤◌, length};
ghost use Rattle.std.specs.List.{prefix_len, position_or_len};
ghost use Rattle.cap_text.specs.Pieces.{is_space as space_test};
ghost use Rattle.cap_text.specs.Faults.{is_end};

// Whether a byte is white space.
fn is_space(byte: u8) -> bool
    ensures { result ≡ space_test byte }
{
    byte == b' ' || byte == b'\t' || byte == b'\r' || byte == b'\n'
}

/// How many bytes of white space stand first.
pub(crate) fn spaces_in(bytes: &[u8]) -> usize
    ensures count { result ≡ prefix_len space_test bytes.now }
    ensures within { result ≤ length bytes.now }
{
    for i in 0..bytes.len() {
        if !is_space(bytes[i]) {
            return i;
        }
    }
    bytes.len()
}

/// How many bytes stand before the first `>`: all, where there is none.
pub(crate) fn end_in(bytes: &[u8]) -> usize
    ensures count { result ≡ position_or_len is_end bytes.now }
    ensures within { result ≤ length bytes.now }
{
    for i in 0..bytes.len() {
        if bytes[i] == b'>' {
            return i;
        }
    }
    bytes.len()
}
