//! Nobody is forgotten and nobody given up early, and what is wrong is found.
use crate::fault::{Fault, Finding};
use crate::simulation::Simulation;

/// How many schedules are run.
const SCHEDULES: u64 = 100_000;

/// In how many of them at most each fault is found.
const FAULTY: u64 = 10_000;

#[test]
fn nobody_is_forgotten_or_given_up_early(rt: HostRuntime) {
    for seed in 0..SCHEDULES {
        let found = Simulation::run(rt.alloc(), seed, Fault::Nothing);
        assert!(&rt; found.is_none(), "{seed}: {found:?}");
    }
}

#[test]
fn each_fault_is_found(rt: HostRuntime) {
    for fault in [
        Fault::MarkLost,
        Fault::WordReadLate,
        Fault::WrongMoment,
        Fault::ChangePassedOver,
        Fault::WakeupPassedOver,
    ] {
        let is_found = (0..FAULTY).any(|seed| Simulation::run(rt.alloc(), seed, fault).is_some());
        assert!(&rt; is_found, "{fault:?}");
    }
}
