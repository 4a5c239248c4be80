// A queue of three.
use crate::{LockEntry, LockKind, granted};

#[test]
fn granted_in_a_queue_of_three(rt: HostRuntime) {
    let queue = [
        LockEntry {
            number: 1,
            kind: LockKind::Read,
            tid: 5,
        },
        LockEntry {
            number: 2,
            kind: LockKind::Write,
            tid: 6,
        },
        LockEntry {
            number: 3,
            kind: LockKind::Read,
            tid: 7,
        },
    ];
    assert_eq!(rt; granted(&queue, 5), None);
    assert_eq!(rt; granted(&queue, 6), Some(5));
    assert_eq!(rt; granted(&queue, 7), Some(6));
}
