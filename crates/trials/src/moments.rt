// The trial of the moments at which a store can be read.
use database::snapshots::Snapshots;
use terms::Fault;

#[test]
fn moments_of_a_store(rt: HostRuntime) -> Result<(), Fault> {
    let mut snapshots = Snapshots::new(rt.alloc(), 10)?;
    assert_eq!(rt; snapshots.pin(), Ok(10));
    snapshots.advance();
    assert_eq!(rt; (snapshots.latest(), snapshots.lowest()), (11, 10));
    assert!(rt; snapshots.holds(10) && snapshots.holds(11));
    snapshots.unpin_all();
    assert!(rt; !snapshots.holds(10));
    Ok(())
}
