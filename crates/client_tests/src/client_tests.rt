//! A client in random exchanges.
use crate::walk::Walk;

/// How many exchanges are run, from as many seeds.
const EXCHANGES: u64 = 100_000;

/// Of how many of them at least frames go on.
const GO_ON: u64 = 10_000;

#[test]
fn each_exchange_is_as_the_table_says(rt: HostRuntime) {
    let mut go_on: u64 = 0;
    for seed in 0..EXCHANGES {
        let outcome = Walk::run(rt.alloc(), seed).expect(&rt, "memory");
        let finding = outcome.finding;
        assert!(&rt; finding.is_none(), "{seed}: {finding:?}");
        if outcome.gone_on > 0 {
            go_on = go_on.saturating_add(1);
        }
    }
    assert!(&rt; go_on >= GO_ON, "frames go on in {go_on}");
}
