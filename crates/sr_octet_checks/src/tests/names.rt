//! System ids as text.

use super::fixtures::id;
use sr_model::SystemId;
use std::test::Fail;

#[test]
fn system_ids_are_read_and_written(rt: HostRuntime) -> Result<(), Fail> {
    for (text, value) in [
        (b"0000.0000.00ff", 255),
        (b"0000.0000.00FF", 255),
        (b"1921.6800.1001", 0x1921_6800_1001),
    ] {
        assert!(rt; SystemId::read(text) == SystemId::new(value));
    }
    let mut out = Vec::new(rt.alloc());
    id(255).put(&mut out)?;
    assert_eq!(rt; out.as_slice(), b"0000.0000.00ff".as_slice());
    Ok(())
}
