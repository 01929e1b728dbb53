// Frames as bytes.
ghost use Rattle.std.specs.Prelude.{◌≡◌, ◌≤◌, length, take, IfOk};
ghost use Rattle.std.specs.Int.{w32, to_be_bytes};
ghost use Rattle.cap_frame.specs.Frame.{IsBody, frame_of, stated_length};

use byteorder::{BigEndian, ByteOrder};
use cap_base::Memory;
use std::alloc::Global;

/// The frame of 1 to 65,536 bytes: their number in four bytes, the highest first, and the bytes.
pub fn frame(alloc: Global, bytes: &[u8]) -> Result<Vec<u8>, Memory>
    requires body { IsBody bytes.now }
    ensures { IfOk result (λ framed. framed.items ≡ frame_of bytes.now) }
{
    let mut head = [0u8; 4];
    BigEndian::write_u32(&mut head, bytes.len() as u32);
    let Ok(mut framed) = Vec::from_slice(alloc, &head) else {
        return Err(Memory);
    };
    if framed.extend_from_slice(bytes).is_err() {
        return Err(Memory);
    }
    Ok(framed)
}

// The number that four bytes state.
fn number_of(head: [u8; 4]) -> u32
    ensures back { to_be_bytes w32 result ≡ head }
    ensures stated { result ≡ stated_length head }
{
    u32::from_be_bytes(head)
}

// The length that begins these bytes.
pub(crate) fn length_in(bytes: &[u8]) -> u32
    requires { 4 ≤ length bytes.now }
    ensures stated { result ≡ stated_length bytes.now }
    ensures back { to_be_bytes w32 result ≡ take 4 bytes.now }
{
    let mut head = [0u8; 4];
    head.copy_from_slice(bytes.split_at(4).0);
    number_of(head)
}
