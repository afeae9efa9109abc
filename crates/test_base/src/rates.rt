//! Worked rates.

use rate_window::Meter;

/// Over 10 s, five counts at 1000 and two at 12000.
fn few() -> Meter {
    let mut meter = Meter::new(10_000);
    for _ in 0..5usize {
        meter.count(1000, 1);
    }
    meter.count(12_000, 1);
    meter.count(12_000, 1);
    meter
}

/// Over a minute, bytes that pass the greatest value of a rate, which stay at it, and then fade.
fn many() -> Meter {
    let mut meter = Meter::new(60_000);
    meter.count(59_999, 18_446_744_073_709_551_615);
    meter
}

/// A moment in ms, and the rate at it.
type Shown = (u64, u32);

const OF_FEW: &[Shown] = &[(12_000, 6), (20_000, 2), (29_999, 0), (30_000, 0)];

const OF_MANY: &[Shown] = &[
    (59_999, 4_294_967_295),
    (60_000, 4_294_967_295),
    (90_000, 2_147_483_647),
    (120_000, 0),
];

#[test]
fn worked_rates(rt: HostRuntime) {
    for (meter, shown) in [(few(), OF_FEW), (many(), OF_MANY)] {
        for (now, rate) in shown {
            assert!(rt; meter.rate(*now) == *rate, "at {now}");
        }
    }
}
