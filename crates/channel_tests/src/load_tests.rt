// A load without the policy that it wants.
use crate::program::run_with;
use gate_io::{MemSink, MemSource};
use lb_kinds::PickFirst;
use lb_policy::Policy;
use std::test::Fail;

#[test]
fn a_load_wants_round_robin(rt: HostRuntime) -> Result<(), Fail> {
    let alloc = rt.alloc();
    let mut boxes: Vec<Box<dyn Policy>> = Vec::new(alloc);
    boxes.push(Box::new(alloc, PickFirst::new())?)?;
    let mut source = MemSource::new(Vec::new(alloc), 64, Vec::new(alloc));
    let mut report = MemSink::new(alloc, 65_536, Vec::new(alloc));
    let words = b"load --seed 0 --calls 1";
    assert_eq!(rt;
        run_with(&rt, alloc, words, &mut source, &mut report, boxes)?,
        2
    );
    assert_eq!(rt; report.taken(), b"fault words\n".as_slice());
    Ok(())
}
