//! The front of a room that a caller gives.
ghost use Rattle.std.specs.Prelude.{◌≡◌, length};
ghost use Rattle.open_sessions.specs.Answers.{shown};

/// Writes the items over the front of the room, as far as it has any, and returns how many there are.
pub fn copy_front<T: Copy>(items: &[T], room: &mut [T]) -> usize
    ensures length { result ≡ length items.now }
    ensures shown { room.new ≡ shown items.now room.old }
{
    let n = items.len().min(room.len());
    room[..n].copy_from_slice(&items[..n]);
    items.len()
}
