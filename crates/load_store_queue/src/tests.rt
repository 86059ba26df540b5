use crate::StoreQueue;
use std::test::Fail;

/// Whether the stores older than 5, 6, 8, 9, 10 and 12 are done.
fn seen(queue: &StoreQueue) -> [bool; 6] {
    [5, 6, 8, 9, 10, 12].map(|number| queue.older_done(number))
}

#[test]
fn a_load_waits_for_the_oldest_store_that_is_not_done(rt: HostRuntime) -> Result<(), Fail> {
    let mut queue = StoreQueue::new(rt.alloc(), 3)?;
    assert_eq!(rt; seen(&queue), [true, true, true, true, true, true]);
    queue.put(5);
    queue.put(8);
    queue.put(9);
    assert_eq!(rt; seen(&queue), [true, false, false, false, false, false]);
    queue.done(8);
    assert_eq!(rt; seen(&queue), [true, false, false, false, false, false]);
    queue.done(5);
    assert_eq!(rt; seen(&queue), [true, true, true, true, false, false]);
    queue.pop();
    queue.put(11);
    assert_eq!(rt;
        (queue.len(), seen(&queue)),
        (3, [true, true, true, true, false, false])
    );
    queue.done(9);
    assert_eq!(rt; seen(&queue), [true, true, true, true, true, false]);
    queue.cut_from(9);
    assert_eq!(rt;
        (queue.len(), seen(&queue)),
        (1, [true, true, true, true, true, true])
    );
    queue.put(9);
    assert_eq!(rt; seen(&queue), [true, true, true, true, false, false]);
    Ok(())
}
