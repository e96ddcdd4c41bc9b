use crate::{Digits, decimal};

#[test]
fn words(rt: HostRuntime) {
    assert_eq!(rt; decimal(b"0"), Some(0));
    assert_eq!(rt; decimal(b"007"), Some(7));
    assert_eq!(rt;
        decimal(b"18446744073709551615"),
        Some(18_446_744_073_709_551_615)
    );
    assert_eq!(rt; decimal(b"18446744073709551616"), None);
    assert_eq!(rt; decimal(b"184467440737095516150"), None);
    assert_eq!(rt; decimal(b""), None);
    assert_eq!(rt; decimal(b"12a"), None);
    assert_eq!(rt; decimal(b"+1"), None);
}

#[test]
fn digits_in_two_parts(rt: HostRuntime) {
    let (front, count) = Digits::new().read(b"000120.5");
    assert_eq!(rt; count, 6);
    assert_eq!(rt; front.value(), Some(120));
    let (both, count) = front.read(b"50000000000000000000000000000000000000000");
    assert_eq!(rt; count, 41);
    assert_eq!(rt; both.value(), None);
    assert!(rt; both.more > 0 && !both.tail);
    assert!(rt; !both.is_zero());
    assert!(rt; Digits::new().read(b"0000").0.is_zero());
}
