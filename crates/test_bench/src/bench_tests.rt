use crate::ticks::none;
use bench_story::{Run, measure};
use std::test::Fail;

#[test]
fn three_hosts_lead_to_three_batches(rt: HostRuntime) -> Result<(), Fail> {
    let made = measure(rt.alloc(), 3, &mut none())?;
    assert!(rt; made.hosts == 3);
    assert!(rt; made.batches == 3);
    assert!(rt; made.commands == 9);
    assert!(rt; made.sum == 789_026);
    Ok(())
}

#[test]
fn a_thousand_hosts_lead_to_a_thousand_batches(rt: HostRuntime) -> Result<(), Fail> {
    let made = measure(rt.alloc(), 1_000, &mut none())?;
    assert!(rt; made.hosts == 1_000);
    assert!(rt; made.batches == 1_000);
    assert!(rt; made.commands == 3_000);
    assert!(rt; made.sum == 14_563_117);
    Ok(())
}

#[test]
fn ten_thousand_hosts_lead_to_ten_thousand_batches(rt: HostRuntime) -> Result<(), Fail> {
    let made = measure(rt.alloc(), 10_000, &mut none())?;
    assert!(rt; made.hosts == 10_000);
    assert!(rt; made.batches == 10_000);
    assert!(rt; made.commands == 30_000);
    assert!(rt; made.sum == 142_307_689);
    Ok(())
}

// Behind the reply to the barrier of the opening batch each host reaches its own unit and that of its port, at three ticks
// each.
#[test]
fn a_thousand_hosts_compile_six_thousand_units_at_most(rt: HostRuntime) -> Result<(), Fail> {
    let alloc = rt.alloc();
    let mut run = Run::open(alloc, &mut none())?;
    let mut units = none();
    run.bring_hosts(alloc, 1_000, &mut units)?;
    assert!(rt; units.count <= 6_000);
    Ok(())
}
