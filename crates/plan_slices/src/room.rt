//! The room that a host has for a text.

ghost use Rattle.std.specs.Prelude.{◌≡◌, ◌<◌, ◌≤◌, ◌⊎◌, length, true, false};
ghost use Rattle.plan_slices.specs.Room.{IsCopied};

/// Copies a text to the front of the room for it, and leaves the bytes after it as they were.
/// Returns whether there is room; without it nothing is copied.
pub fn copy_text(text: &[u8], room: &mut [u8]) -> bool
    ensures copied { result ≡ true → IsCopied text.now room.old room.new }
    ensures short { result ≡ false
        → (length room.old < length text.now) × (room.new ≡ room.old) }
{
    if text.len() > room.len() {
        return false;
    }
    put(text, room);
    true
}

/// Copies three texts, each to the front of the room for it, and leaves the bytes after them as they
/// were. Returns whether there is room for all; without it nothing is copied.
pub fn copy_texts(
    first: &[u8],
    second: &[u8],
    third: &[u8],
    first_room: &mut [u8],
    second_room: &mut [u8],
    third_room: &mut [u8],
) -> bool
    ensures first { result ≡ true → IsCopied first.now first_room.old first_room.new }
    ensures second { result ≡ true → IsCopied second.now second_room.old second_room.new }
    ensures third { result ≡ true → IsCopied third.now third_room.old third_room.new }
    ensures kept { result ≡ false → (first_room.new ≡ first_room.old)
        × ((second_room.new ≡ second_room.old) × (third_room.new ≡ third_room.old)) }
    ensures short { result ≡ false → (length first_room.old < length first.now)
        ⊎ ((length second_room.old < length second.now)
        ⊎ (length third_room.old < length third.now)) }
{
    if first.len() > first_room.len()
        || second.len() > second_room.len()
        || third.len() > third_room.len()
    {
        return false;
    }
    put(first, first_room);
    put(second, second_room);
    put(third, third_room);
    true
}

/// Copies a text to the front of the room that there is for it.
fn put(text: &[u8], room: &mut [u8])
    requires { length text.now ≤ length room.old }
    ensures { IsCopied text.now room.old room.new }
{
    room[..text.len()].copy_from_slice(text);
}
