use crate::{Link, least_closed};
use std::test::Fail;

#[test]
fn finds_what_is_linked(rt: HostRuntime) -> Result<(), Fail> {
    let links = [
        Link { from: 3, to: 1 },
        Link { from: 1, to: 4 },
        Link { from: 4, to: 3 },
        Link { from: 0, to: 2 },
    ];
    let found = least_closed(rt.alloc(), 6, &[1, 5], &links)?;
    assert_eq!(rt; found.as_slice(), [1, 3, 4, 5].as_slice());
    Ok(())
}
