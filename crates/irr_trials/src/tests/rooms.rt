// Room that runs out: with room for any number of bytes below that of the text, the run tells of it, and the sink is full of
// the text's first bytes; with room for all it is done.
use super::*;

// Whether a run has status 6 and fills the sink with the first bytes of the text where there is less room than the text
// takes, and gives the usual answer where there is just enough; and whether a further run, by other streams, then gives it.
fn is_told(
    alloc: Global,
    words: &str,
    input: &str,
    code: u8,
    text: &str,
    room: usize,
) -> Result<bool, Fail> {
    let source = slow_source(alloc, input, Vec::new(alloc))?;
    let sink = MemSink::new(alloc, room, 7, Vec::new(alloc))?;
    let (status, held) = ran(alloc, words, source, sink)?;
    let wanted = if room < text.len() { 6 } else { code };
    if status.code() != wanted || held.len() != room || !text.as_bytes().starts_with(&held) {
        return Ok(false);
    }
    answers(alloc, words, input.as_bytes(), code, text)
}

// Whether it is so for room for each number of bytes, from none to all of the text.
fn are_told(alloc: Global, words: &str, input: &str, code: u8, text: &str) -> Result<bool, Fail> {
    for room in 0..=text.len() {
        if !is_told(alloc, words, input, code, text, room)? {
            return Ok(false);
        }
    }
    Ok(true)
}

#[test]
fn room_that_runs_out(rt: HostRuntime) -> Result<(), Fail> {
    for (words, input, code, text) in [
        ("star 0,1/2,0", SCREW, 0, STAR),
        ("small 0,1/2,0", SCREW, 0, SMALL),
        ("full 0,1/2,0", SCREW, 0, FULL),
        ("product 0,1/2,0 0,1/2,0", SCREW, 0, PRODUCT),
        ("compat 0,0,0 0,1/2,0", SCREW, 0, COMPAT),
        ("square 0,1/2,0", SCREW, 0, SQUARE),
        ("tensor 1", SCREW, 0, TENSOR),
        ("site 1/8,0,0 0,1/2,0", SCREW, 0, SITE),
        ("real 0,1/2,0", SCREW, 0, REAL),
        ("check", JUDGED, 0, "yes\n"),
        ("check", SCREW, 3, "bad input line 2: missing\n"),
        ("smal 0,0,0", SCREW, 2, "usage 1\n"),
        ("small 0,0,0", "x,y\n", 3, "bad input line 1: shape 4\n"),
        ("small 1/12001,0,0", "", 4, "too large: order 12001\n"),
    ] {
        assert!(rt;
            are_told(rt.alloc(), words, input, code, text)?,
            "at {words}"
        );
    }
    Ok(())
}

// Room for no byte of a summary of a made input, for some, for all but one, and for all.
#[test]
fn room_of_a_summary_that_runs_out(rt: HostRuntime) -> Result<(), Fail> {
    for room in [0, 40, 74, 75] {
        assert!(rt;
            is_told(rt.alloc(), "gen 0", "", 0, SUMMARY, room)?,
            "at {room}"
        );
    }
    Ok(())
}
