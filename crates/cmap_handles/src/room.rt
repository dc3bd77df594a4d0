//! Buffers that C hands in.

ghost use Rattle.std.specs.Prelude.{◌≡◌, ◌≤◌, ◌<◌, ◌++◌, List, MatchOption, Some, drop, length, slice_get, take};
ghost use Rattle.std.specs.Option.{option_copied};
ghost use Rattle.cmap_handles.specs.Rooms.{IsPut};
ghost use Rattle.cmap_handles.specs.Statuses.{number};
ghost use Rattle.cmap_handles.specs.declared.status.Status.TheVariants.{Absent};

use crate::status::Status;

/// A list whose items have a form of their own in C.
pub trait Items {
    /// The C form of an item.
    type Item: Copy;

    /// All items, in order.
    ghost items: { Self → List Self.Item };

    /// The number of items.
    fn count(&self) -> usize
        ensures { result ≡ length (items self.now) };

    /// The item at an index.
    fn item(&self, index: usize) -> Self::Item
        requires { index < length (items self.now) }
        ensures { slice_get (items self.now) index ≡ Some result };
}

/// Writes the items of a list at the head of the buffer `room`, where it is long enough for all of
/// them, and writes the number of items to `needed`. The result is the number of the status.
pub fn put_items<L: Items>(list: &L, room: &mut [L::Item], needed: &mut usize) -> u32
    ensures { IsPut (L.items list.now) room.old room.new needed.new result }
{
    *needed = list.count();
    if list.count() > room.len() {
        return Status::NoRoom.number();
    }
    fill(list, room);
    Status::Done.number()
}

/// Writes the items of a list at the head of the buffer `room`.
pub fn fill<L: Items>(list: &L, room: &mut [L::Item])
    requires { length (L.items list.now) ≤ length room.old }
    ensures { room.new ≡ L.items list.now ++ drop (length (L.items list.now)) room.old }
{
    for index in 0..list.count() {
        room[index] = list.item(index);
    }
}

/// Writes the items at the head of the buffer `room`, where it is long enough for all of them, and
/// writes the number of items to `needed`. The result is the number of the status.
pub fn put<T: Copy>(items: &[T], room: &mut [T], needed: &mut usize) -> u32
    ensures { IsPut items.now room.old room.new needed.new result }
{
    *needed = items.len();
    if items.len() > room.len() {
        return Status::NoRoom.number();
    }
    room[..items.len()].copy_from_slice(items);
    Status::Done.number()
}

/// Writes the first items at the head of the buffer `room`, as many as it can hold.
pub fn put_head<T: Copy>(items: &[T], room: &mut [T])
    ensures { room.new ≡ take (length room.old) items.now ++ drop (length items.now) room.old }
{
    let count = items.len().min(room.len());
    room[..count].copy_from_slice(&items[..count]);
}

/// Writes the items like `put`, if there are items; otherwise the status is `Absent`.
pub fn put_found<T: Copy>(items: Option<&[T]>, room: &mut [T], needed: &mut usize) -> u32
    ensures { MatchOption (option_copied items.entry)
        ((result ≡ number Absent) × (room.new ≡ room.old) × (needed.new ≡ needed.old))
        (λ found. IsPut found room.old room.new needed.new result) }
{
    match items {
        Some(items) => put(items, room, needed),
        None => Status::Absent.number(),
    }
}
