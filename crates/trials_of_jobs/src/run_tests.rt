//! The job of two items, evaluated on one thread.
use crate::two_regions::job;
use core_machine::run_one;
use lido_base::{Desc, Memory, Value};

#[test]
fn sum_in_digits(rt: HostRuntime) -> Result<(), Memory> {
    let (finished, _job) = run_one(rt.alloc(), job(rt.alloc())?)?;
    let sum = Desc {
        room: 0,
        node: 1,
        len: 2,
    };
    assert_eq!(rt; finished.output, Value::Text(sum));
    assert!(rt; finished.bad.is_none());
    assert_eq!(rt; finished.notes.len(), 0);
    assert_eq!(rt; finished.rooms.len(), 2);
    Ok(())
}
