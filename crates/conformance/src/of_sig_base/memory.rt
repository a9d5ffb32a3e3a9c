use sig_base::{MemoryShelf, MemorySink, Shelf, ShelfFault, Sink, SinkFault};
use std::test::Fail;

#[test]
fn a_shelf_fails_at_its_number(rt: HostRuntime) -> Result<(), Fail> {
    let alloc = rt.alloc();
    let mut shelf = MemoryShelf::new(alloc);
    shelf.set("plan", b"old")?;
    shelf.fail_at(2)?;
    let fetched = shelf.fetch(alloc, "plan", 3)?;
    assert_eq!(rt; fetched.as_slice(), b"old".as_slice());
    assert_eq!(rt; shelf.put("plan", b"new"), Err(ShelfFault::Failed));
    assert_eq!(rt; shelf.held("plan").ok_or("gone")?, b"old".as_slice());
    shelf.put("plan", b"new")?;
    assert_eq!(rt; shelf.held("plan").ok_or("gone")?, b"new".as_slice());
    Ok(())
}

#[test]
fn a_sink_keeps_a_part(rt: HostRuntime) -> Result<(), Fail> {
    let mut sink = MemorySink::new(rt.alloc());
    sink.fail_at(1, 4)?;
    assert_eq!(rt; sink.push(b"junction"), Err(SinkFault::Failed));
    assert_eq!(rt; sink.bytes(), b"junc".as_slice());
    sink.push(b"!")?;
    assert_eq!(rt; sink.bytes(), b"junc!".as_slice());
    Ok(())
}
