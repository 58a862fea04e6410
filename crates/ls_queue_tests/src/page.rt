use crate::testing::check;
use ls_queue::{Core, QueueFault, Take};
use std::alloc::Global;

/// The first job of a queue of two sources and capacity 8, which each put an item.
fn first_job(alloc: Global) -> Result<Take<u64>, QueueFault> {
    let mut queue: Core<u64> = Core::new(alloc, 2, 8)?;
    queue.put(0, 10);
    queue.put(1, 20);
    queue.close(0);
    Ok(queue.take())
}

#[test]
fn the_page_takes_the_first_job_with_ample_memory(rt: HostRuntime) {
    let want = Take::Job(ls_queue::Job {
        source: 0,
        number: 0,
        item: 10,
    });
    check(&rt, "the first job", first_job(rt.alloc()) == Ok(want));
}
