use crate::testing::check;
use ls_queue::QueueFault;

const TEXTS: [(QueueFault, &str); 5] = [
    (QueueFault::Sources, "sources"),
    (QueueFault::Capacity, "capacity"),
    (QueueFault::Workers, "workers"),
    (QueueFault::NoSource(13), "step 13: no such source"),
    (QueueFault::NoMemory, "no memory"),
];

#[test]
fn faults_have_their_texts_with_ample_memory(rt: HostRuntime) {
    for (fault, want) in TEXTS {
        match format!(in rt.alloc(); "{fault}") {
            Ok(text) => check(&rt, want, text.as_str() == want),
            Err(_) => check(&rt, "no memory", false),
        }
    }
}
