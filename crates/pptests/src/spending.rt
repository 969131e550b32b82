//! Tests of meters: what is left of a budget, and the number of the next `__COUNTER__`.
use ppexpand::Meter;

#[test]
fn spends_one(rt: HostRuntime) {
    for (remaining, spent, less) in [
        (Some(u64::MAX), false, Some(u64::MAX - 1)),
        (Some(1), false, Some(0)),
        (Some(0), true, Some(0)),
        (None, false, None),
    ] {
        let meter = Meter::new(remaining);
        assert!(rt;
            meter.is_exhausted() == spent && meter.spend_one() == Meter::new(less),
            "{remaining:?}"
        );
    }
}

#[test]
fn counts_on(rt: HostRuntime) {
    for (counter, after) in [(0, 1), (7, 8), (u32::MAX, 0)] {
        let meter = Meter {
            remaining: Some(2),
            counter,
        };
        let counted = meter.count_on();
        assert!(rt;
            counted.counter == after
                && counted
                    == Meter {
                        counter: after,
                        ..meter.spend_one()
                    },
            "{counter}"
        );
    }
}
