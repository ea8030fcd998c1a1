use crate::books::small_book;
use crate::own_limits::{item_count, other_value, revised, signed_value};
use book::Refusal;
use std::test::Fail;

#[test]
fn limits_are_told(rt: HostRuntime) -> Result<(), Fail> {
    let mut open = small_book()?;
    assert_eq!(rt; revised(&mut open, 3, 45), Ok(()));
    assert_eq!(rt;
        revised(&mut open, 3, 100_000_001),
        Err(Refusal::ValueAboveLimit)
    );
    let book = open.close();
    assert_eq!(rt; item_count(&book), 64);
    assert_eq!(rt; signed_value(&book, 3), Ok(45));
    assert_eq!(rt; signed_value(&book, 4), Err(Refusal::NoSuchBidder));
    let copy = other_value(&book, 3, 100_000_000)?;
    assert_eq!(rt; signed_value(&copy, 3), Ok(100_000_000));
    Ok(())
}
