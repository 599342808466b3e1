//! A queue of the notes of two recipients.

use alert_queue::{Kind, Mark, Queue, Taken};
use std::test::Fail;
use zbx_types::Moment;

/// A moment of whole seconds.
fn at(sec: u32) -> Moment {
    Moment { sec, ns: 0 }
}

#[test]
fn a_note_that_failed_waits_for_its_moment_and_holds_up_its_recipient_alone(
    rt: HostRuntime,
) -> Result<(), Fail> {
    let kind = Kind {
        limit: 3,
        interval: 10,
    };
    let mut queue = Queue::new(
        rt.alloc(),
        &[0, 1, 0],
        &[false, false, false],
        &[kind, kind],
    )?;
    assert_eq!(rt; queue.take(at(100)), Taken::Try { note: 1 });
    assert_eq!(rt; queue.done(1, false, at(100)), None);
    assert_eq!(rt; queue.take(at(100)), Taken::Try { note: 2 });
    assert_eq!(rt; queue.done(2, true, at(100)), Some(Mark::Done));
    assert_eq!(rt; queue.take(at(100)), Taken::Later { at: at(110) });
    assert_eq!(rt; queue.take(at(110)), Taken::Try { note: 1 });
    assert_eq!(rt; queue.done(1, true, at(110)), Some(Mark::Done));
    assert_eq!(rt; queue.take(at(110)), Taken::Try { note: 3 });
    assert_eq!(rt; queue.take(at(110)), Taken::Busy);
    assert_eq!(rt; queue.done(3, true, at(110)), Some(Mark::Done));
    assert_eq!(rt; queue.take(at(110)), Taken::Nothing);
    Ok(())
}
