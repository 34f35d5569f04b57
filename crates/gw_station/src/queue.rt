//! Queues with a bound.
ghost use Rattle.std.specs.Prelude.{◌≡◌, ◌<◌, ◌≤◌, [], ◌∷◌, ◌++◌, length};
ghost use Rattle.circular_buffer.specs.Buffer.{buffer};

use circular_buffer::HeapCircularBuffer;

/// One more waits, for which there is room.
pub(crate) fn push<T: Copy>(queue: &mut HeapCircularBuffer<T>, item: T)
    requires { length queue.old.items < queue.old.capacity }
    ensures { queue.new ≡ buffer (queue.old.items ++ item ∷ []) queue.old.capacity }
{
    queue.push_back(item);
}

/// The same items, in the memory of a spare queue that has room for them.
pub(crate) fn refill<T: Copy>(
    mut spare: HeapCircularBuffer<T>,
    items: &HeapCircularBuffer<T>,
) -> HeapCircularBuffer<T>
    requires { length items.now.items ≤ spare.capacity }
    ensures { result ≡ buffer items.now.items spare.capacity }
{
    spare.clear();
    let (front, back) = items.as_slices();
    spare.extend_from_slice(front);
    spare.extend_from_slice(back);
    spare
}
