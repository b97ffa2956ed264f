// Writes that fail: each write of a run once, and the run tells of it, with what was taken before in the sink.
use super::*;

// Whether a run has status 6 where the write of this number fails, and the sink then holds the bytes before it; and whether
// a further run, by other streams, then gives the usual answer.
fn is_told(
    alloc: Global,
    words: &str,
    input: &str,
    code: u8,
    text: &str,
    number: usize,
) -> Result<bool, Fail> {
    let source = slow_source(alloc, input, Vec::new(alloc))?;
    let sink = MemSink::new(alloc, 1 << 16, 1, vec![in alloc; number as u64]?)?;
    let (status, held) = ran(alloc, words, source, sink)?;
    if status.code() != 6 || held.len() != number || !text.as_bytes().starts_with(&held) {
        return Ok(false);
    }
    answers(alloc, words, input.as_bytes(), code, text)
}

// Whether it is so for the write of each byte of the text.
fn are_told(alloc: Global, words: &str, input: &str, code: u8, text: &str) -> Result<bool, Fail> {
    for number in 0..text.len() {
        if !is_told(alloc, words, input, code, text, number)? {
            return Ok(false);
        }
    }
    Ok(true)
}

#[test]
fn writes_that_fail(rt: HostRuntime) -> Result<(), Fail> {
    for (words, input, code, text) in [
        ("star 0,1/2,0", SCREW, 0, STAR),
        ("small 0,1/2,0", SCREW, 0, SMALL),
        ("full 0,1/2,0", SCREW, 0, FULL),
        ("product 0,1/2,0 0,1/2,0", SCREW, 0, PRODUCT),
        ("compat 0,0,0 0,1/2,0", SCREW, 0, COMPAT),
        ("square 0,1/2,0", SCREW, 0, SQUARE),
        ("tensor 1", SCREW, 0, TENSOR),
        ("site 1/8,0,0 0,1/2,0", SCREW, 0, SITE),
        ("real 0,1/2,0", SCREW, 0, REAL),
        ("check", JUDGED, 0, "yes\n"),
        ("check", SCREW, 3, "bad input line 2: missing\n"),
        ("smal 0,0,0", SCREW, 2, "usage 1\n"),
        ("small 0,0,0", "x,y\n", 3, "bad input line 1: shape 4\n"),
        ("small 1/12001,0,0", "", 4, "too large: order 12001\n"),
    ] {
        assert!(rt;
            are_told(rt.alloc(), words, input, code, text)?,
            "at {words}"
        );
    }
    Ok(())
}

// The first write of a summary of a made input, one on the way, and the last.
#[test]
fn writes_of_a_summary_that_fail(rt: HostRuntime) -> Result<(), Fail> {
    for number in [0, 40, 74] {
        assert!(rt;
            is_told(rt.alloc(), "gen 0", "", 0, SUMMARY, number)?,
            "at {number}"
        );
    }
    Ok(())
}
