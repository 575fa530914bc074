//! Names with numbers, once with ample memory.

use elan_numbers::Numbers;
use std::test::Fail;

#[test]
fn names_are_numbered_in_their_order(rt: HostRuntime) -> Result<(), Fail> {
    let alloc = rt.alloc();
    let mut numbers = Numbers::new(alloc);
    for name in [b"int".as_slice(), b"list[int]", b"int", b"", b"bool"] {
        numbers.add(alloc, name)?;
    }
    assert_eq!(rt; numbers.len(), 4);
    assert_eq!(rt; numbers.number_of(b"list[int]"), Some(1));
    assert_eq!(rt; numbers.number_of(b""), Some(2));
    assert_eq!(rt; numbers.number_of(b"list"), None);
    let names = numbers.names(alloc)?;
    assert_eq!(rt; names.len(), 4);
    assert_eq!(rt; names.as_slice()[3].as_bytes(), b"bool".as_slice());
    Ok(())
}
