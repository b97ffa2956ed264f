// The largest inputs: 4,194,304 bytes.
use super::examples::diamond::{OPERATIONS, SMALL};
use super::{Fail, Global, answers};

const LIMIT: usize = 4_194_304;

#[test]
fn inputs_of_one_byte_more(rt: HostRuntime) -> Result<(), Fail> {
    let long = vec![in rt.alloc(); b'#'; LIMIT + 1]?;
    for words in [
        "star 0,1/2,0",
        "small 0,1/2,0",
        "full 0,1/2,0",
        "product 0,1/2,0 0,1/2,0",
        "compat 0,0,0 0,1/2,0",
        "square 0,1/2,0",
        "tensor 1",
        "site 1/8,0,0 0,1/2,0",
        "real 0,1/2,0",
        "check",
    ] {
        assert!(rt;
            answers(rt.alloc(), words, &long, 4, "too large: bytes\n")?,
            "at {words}"
        );
    }
    Ok(())
}

// The 192 operations of the diamond group, each in quotes as a database has them, as often as they fit.
#[test]
fn a_list_of_operations_again_and_again(rt: HostRuntime) -> Result<(), Fail> {
    let mut input = Vec::new(rt.alloc());
    for _ in 0..1065 {
        input.extend_from_slice(OPERATIONS.as_bytes())?;
    }
    assert!(rt; input.len() <= LIMIT);
    assert!(rt; input.len().saturating_add(OPERATIONS.len()) > LIMIT);
    assert!(rt; answers(rt.alloc(), "small 0,1,0", &input, 0, SMALL)?);
    Ok(())
}
