// What no clause says: worked examples, and that a queue has its room.
use queue_pairs::{Outstanding, Queue, Queued, SendCause, Stage, TakeCause};
use std::test::Fail;

#[test]
fn one_command_goes_its_way(rt: HostRuntime) {
    let mut queue = Queue::new(rt.alloc(), 1).ok().expect(&rt, "room");
    assert_eq!(rt; queue.send(7, 0), Ok(()));
    assert_eq!(rt; queue.send(7, 1), Err(SendCause::QueueFull));
    assert_eq!(rt; queue.take(7), Err(TakeCause::NotYet));
    assert_eq!(rt; queue.next(0), Some(Queued { cid: 7, sent: 0 }));
    queue.pick(7);
    assert_eq!(rt; queue.next(0), None);
    queue.post(7, 5);
    assert_eq!(rt;
        queue.get(7),
        Some(Outstanding {
            cid: 7,
            sent: 0,
            stage: Stage::Posted(5)
        })
    );
    assert_eq!(rt; queue.take(7), Ok(5));
    assert_eq!(rt; queue.take(7), Err(TakeCause::NotOutstanding));
}

#[test]
fn identifiers_are_used_once(rt: HostRuntime) {
    let mut queue = Queue::new(rt.alloc(), 2).ok().expect(&rt, "room");
    assert_eq!(rt; queue.send(7, 0), Ok(()));
    assert_eq!(rt; queue.send(7, 1), Err(SendCause::CidBusy));
    assert_eq!(rt; queue.send(8, 1), Ok(()));
    assert_eq!(rt; queue.send(7, 2), Err(SendCause::QueueFull));
    assert_eq!(rt; queue.next(1), Some(Queued { cid: 8, sent: 1 }));
}
