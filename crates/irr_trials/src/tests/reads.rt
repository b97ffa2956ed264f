// Reads that fail: each read of a run once, and the run tells of it and writes nothing.
use super::*;

// Whether a run has status 5 and writes nothing where one read fails, be it any of those that hand out a byte of the input
// or the one that finds its end; and whether a further run, by other streams, then gives the usual answer.
fn are_told(alloc: Global, words: &str, input: &str, code: u8, text: &str) -> Result<bool, Fail> {
    for number in 0..=input.len() as u64 {
        let source = slow_source(alloc, input, vec![in alloc; number]?)?;
        let sink = MemSink::new(alloc, 1 << 16, 1, Vec::new(alloc))?;
        let (status, held) = ran(alloc, words, source, sink)?;
        if status.code() != 5 || !held.is_empty() {
            return Ok(false);
        }
        if !answers(alloc, words, input.as_bytes(), code, text)? {
            return Ok(false);
        }
    }
    Ok(true)
}

#[test]
fn reads_that_fail(rt: HostRuntime) -> Result<(), Fail> {
    for (words, input, code, text) in [
        ("star 0,1/2,0", SCREW, 0, STAR),
        ("small 0,1/2,0", SCREW, 0, SMALL),
        ("full 0,1/2,0", SCREW, 0, FULL),
        ("product 0,1/2,0 0,1/2,0", SCREW, 0, PRODUCT),
        ("compat 0,0,0 0,1/2,0", SCREW, 0, COMPAT),
        ("square 0,1/2,0", SCREW, 0, SQUARE),
        ("tensor 1", SCREW, 0, TENSOR),
        ("site 1/8,0,0 0,1/2,0", SCREW, 0, SITE),
        ("real 0,1/2,0", SCREW, 0, REAL),
        ("check", JUDGED, 0, "yes\n"),
        ("small 0,0,0", "x,y\n", 3, "bad input line 1: shape 4\n"),
        ("small 1/12001,0,0", "", 4, "too large: order 12001\n"),
    ] {
        assert!(rt;
            are_told(rt.alloc(), words, input, code, text)?,
            "at {words}"
        );
    }
    Ok(())
}

// A summary of a made input is written, though each read of the source would fail: there is none.
#[test]
fn a_summary_takes_no_read(rt: HostRuntime) -> Result<(), Fail> {
    let source = slow_source(rt.alloc(), SCREW, vec![in rt.alloc(); 0]?)?;
    let sink = MemSink::new(rt.alloc(), 1 << 16, 1, Vec::new(rt.alloc()))?;
    let (status, held) = ran(rt.alloc(), "gen 0", source, sink)?;
    assert_eq!(rt; status.code(), 0);
    assert_eq!(rt; held.as_slice(), SUMMARY.as_bytes());
    Ok(())
}
