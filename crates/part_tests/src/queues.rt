//! Queues at their last place and past it.
use expect::equal;
use omega_net::{QUEUE_PLACES, Queue, head, queue_after};
use std::test::Fail;

// A queue takes 16 messages and no more: of two that come as the head leaves, the second finds no place.
#[test]
fn a_queue_has_16_places(rt: HostRuntime) -> Result<(), Fail> {
    let alloc = rt.alloc();
    let mut queue = Queue::new(alloc);
    assert!(rt; queue.is_empty() && head(&queue).is_none());
    for message in 0..17u32 {
        queue.push(message)?;
    }
    assert!(rt; equal(&rt, (QUEUE_PLACES, queue.len()), (16, 16)));
    let next = queue_after(alloc, &queue, true, Some(20), Some(21))?;
    assert!(rt; equal(&rt, (head(&next).copied(), next.len()), (Some(1), 16)));
    assert!(rt; equal(&rt, next.as_slice().last().copied(), Some(20)));
    let same = queue_after(alloc, &queue, false, None, None)?;
    assert!(rt; same == queue && same != next);
    Ok(())
}

// A message in the middle is replaced, and taken out.
#[test]
fn a_message_is_replaced(rt: HostRuntime) -> Result<(), Fail> {
    let mut queue = Queue::holding(rt.alloc(), [1, 2, 3u32].as_slice(), 1)?;
    queue.set(1, 5);
    assert!(rt; equal(&rt, queue.as_slice(), [1, 5, 3].as_slice()));
    assert!(rt; equal(&rt, (queue.remove(1), queue.len()), (5, 2)));
    Ok(())
}
