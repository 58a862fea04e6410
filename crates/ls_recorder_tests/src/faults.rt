use crate::testing::check_text;
use ls_recorder::RecordFault;

/// Faults, and their messages.
const TEXTS: &[(RecordFault, &str)] = &[
    (RecordFault::Sources, "sources"),
    (RecordFault::Workers, "workers"),
    (RecordFault::Capacity, "capacity"),
    (RecordFault::Window, "window"),
    (RecordFault::NoMemory, "no memory"),
    (RecordFault::NotStarted, "not started"),
];

#[test]
fn faults_have_their_texts(rt: HostRuntime) {
    for (fault, text) in TEXTS {
        check_text(&rt, *fault, text);
    }
}
