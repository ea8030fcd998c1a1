use book::{Argument, Mark, Refusal, Row};
use sets::{BidderSet, Bundle};
use std::test::Fail;

#[test]
fn members(rt: HostRuntime) {
    let bundle = Bundle::single(0).with(5).with(63);
    assert_eq!(rt; bundle.word(), 0x8000_0000_0000_0021);
    assert_eq!(rt; bundle.len(), 3);
    assert!(rt; bundle.has(63) && !bundle.has(62) && !bundle.has(64));
    assert_eq!(rt; bundle.lowest(), Some(0));
    assert_eq!(rt; bundle.without(0).lowest(), Some(5));
    assert_eq!(rt; bundle.without(1), bundle);
    assert_eq!(rt; bundle.with(64), bundle);
    assert_eq!(rt; Bundle::single(64), Bundle::empty());
    assert_eq!(rt; bundle.without(63).word(), 0x21);
}

#[test]
fn bounds(rt: HostRuntime) {
    assert!(rt; Bundle::empty().is_empty() && !Bundle::single(63).is_empty());
    assert!(rt; Bundle::empty().is_within(0) && !Bundle::single(0).is_within(0));
    assert!(rt; Bundle::single(62).is_within(63) && !Bundle::single(63).is_within(63));
    assert!(rt; Bundle::single(63).is_within(64) && Bundle::single(63).is_within(65));
    assert_eq!(rt; Bundle::all_below(4).word(), 15);
    assert_eq!(rt; Bundle::all_below(63).len(), 63);
    assert_eq!(rt; BidderSet::all_below(64).word(), u64::MAX);
    assert_eq!(rt; BidderSet::all_below(65).len(), 64);
}

#[test]
fn shared_items(rt: HostRuntime) {
    let high = Bundle::single(3).with(63);
    assert!(rt; high.shares(Bundle::all_below(4)) && !high.shares(Bundle::all_below(3)));
    assert_eq!(rt; high.lowest_shared(Bundle::all_below(64)), Some(3));
    assert_eq!(rt; high.lowest_shared(Bundle::single(63).with(1)), Some(63));
    assert_eq!(rt; high.lowest_shared(Bundle::all_below(3)), None);
    assert_eq!(rt; Bundle::empty().lowest(), None);
}

#[test]
fn defaults(rt: HostRuntime) {
    let row = Row {
        bundle: Bundle::empty(),
        value: 0,
        mark: Mark::Standing,
    };
    assert_eq!(rt; Row::default(), row);
    assert_eq!(rt; Bundle::default(), Bundle::empty());
}

#[test]
fn arguments(rt: HostRuntime) -> Result<(), Fail> {
    for (number, is_allowed) in [(0, false), (1, true), (3, true), (4, false)] {
        assert_eq!(rt; Argument::<1, 3>::try_from(number).is_ok(), is_allowed);
    }
    assert_eq!(rt; Argument::<1, 3>::try_from(2)?.get(), 2);
    assert_eq!(rt;
        Argument::<1, 3>::try_from(4).err(),
        Some(Refusal::ArgumentOutOfRange)
    );
    Ok(())
}
