ghost use Rattle.std.specs.Prelude.{◌≡◌, ◌+◌, ◌-◌, ◌≤◌, ◌++◌, length, take, vec_capacity, nat_le};

/// Adds what there is room for, and says whether that was all.
pub(crate) fn add_within(held: &mut Vec<u8>, room: u64, bytes: &[u8]) -> bool
    requires { room ≤ vec_capacity held.old }
    ensures added { held.new.items ≡ held.old.items ++ take (room - length held.old.items) bytes.now }
    ensures all { result ≡ nat_le (length bytes.now) (room - length held.old.items) }
    ensures room { room ≤ vec_capacity held.new }
{
    let left = room.saturating_sub(held.len() as u64);
    if bytes.len() as u64 <= left {
        held.extend_from_slice(bytes).unwrap();
        true
    } else {
        held.extend_from_slice(&bytes[..left as usize]).unwrap();
        false
    }
}

/// The first `limit + 1` bytes, or all of them where there are fewer.
pub(crate) fn front_past(bytes: &[u8], limit: u64) -> &[u8]
    ensures bytes { result.now ≡ take (limit + 1) bytes.now }
    ensures bound { length result.now ≤ limit + 1 }
{
    if limit < bytes.len() as u64 {
        &bytes[..limit as usize + 1]
    } else {
        bytes
    }
}
