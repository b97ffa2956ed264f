// Forged reports: one change in a right report, and the verdict on it or the refusal.
use super::*;

// The answer on the right report where a part of it, the first that reads so, is written otherwise.
fn is_answered(
    alloc: Global,
    words: &str,
    part: &str,
    other: &str,
    code: u8,
    text: &str,
) -> Result<bool, Fail> {
    let Some((front, behind)) = JUDGED.split_once(part) else {
        return Ok(false);
    };
    let input = format!(in alloc; "{front}{other}{behind}")?;
    answers(alloc, words, input.as_bytes(), code, text)
}

// The number of representations and all that follows.
const MEMBERS: &str = "reps 2\n\
    rep S1 dim 1\nchar 1 1*z^1\nmat 1 1\nmat 2 1*z^1\n\
    rep S2 dim 1\nchar 1 -1*z^1\nmat 1 1\nmat 2 -1*z^1\nend\n";

#[test]
fn reports_with_one_change(rt: HostRuntime) -> Result<(), Fail> {
    for (part, other, code, text) in [
        // as it stands
        ("order 4\n", "order 4\n", 0, "yes\n"),
        // past a limit
        ("ops 2\n", "ops 49\n", 4, "too large: report line 5\n"),
        (
            "order 4\n",
            "order 12001\n",
            4,
            "too large: report line 4\n",
        ),
        ("S1 dim 1\n", "S1 dim 49\n", 4, "too large: report line 9\n"),
        (
            "char 1 1*z^1\n",
            "char 1 1*z^4\n",
            4,
            "too large: report line 10\n",
        ),
        (
            "char 1 1*z^1\n",
            "char 1 1073741825*z^1\n",
            4,
            "too large: report line 10\n",
        ),
        (
            "mat 2 1*z^1\n",
            "mat 2 1/4097*z^1\n",
            4,
            "too large: report line 12\n",
        ),
        // outside the grammar
        ("S1 dim 1\n", "S1 dim 2\n", 3, "bad input line 11: report\n"),
        (
            "wave 0,1/2,0\n",
            "wave 0,1/0,0\n",
            3,
            "bad input line 3: report\n",
        ),
        // wrong
        ("order 4\n", "order 241\n", 1, "no order 4\n"),
        (
            "char 1 1*z^1\n",
            "char 1 16777217*z^1\n",
            1,
            "no char S1 2\n",
        ),
        ("op 2 -x,y+1/2,-z\n", "op 2 -x,y,-z\n", 1, "no ops 2\n"),
        ("mat 1 1\n", "mat 1 -1\n", 1, "no unit S1\n"),
        (MEMBERS, "reps 0\nend\n", 1, "no missing\n"),
        // right: the wave vector need not be reduced, and fractions need not be in lowest terms
        ("wave 0,1/2,0\n", "wave 1,1/2,0\n", 0, "yes\n"),
        ("char 1 1*z^1\n", "char 1 2/2*z^1\n", 0, "yes\n"),
    ] {
        assert!(rt;
            is_answered(rt.alloc(), "check", part, other, code, text)?,
            "at {other}"
        );
    }
    Ok(())
}

// Each command reads a report behind the generators, and refuses what `check` refuses; what the report says it does not
// judge.
#[test]
fn reports_that_a_command_does_not_use(rt: HostRuntime) -> Result<(), Fail> {
    for (words, text) in [
        ("star 0,1/2,0", STAR),
        ("small 0,1/2,0", SMALL),
        ("full 0,1/2,0", FULL),
        ("product 0,1/2,0 0,1/2,0", PRODUCT),
        ("compat 0,0,0 0,1/2,0", COMPAT),
        ("square 0,1/2,0", SQUARE),
        ("tensor 1", TENSOR),
        ("site 1/8,0,0 0,1/2,0", SITE),
        ("real 0,1/2,0", REAL),
    ] {
        let alloc = rt.alloc();
        let (fault, limit) = ("bad input line 11: report\n", "too large: report line 5\n");
        assert!(rt;
            is_answered(alloc, words, "mat 1 1\n", "mat 1 -1\n", 0, text)?,
            "at {words}"
        );
        assert!(rt;
            is_answered(alloc, words, "S1 dim 1\n", "S1 dim 2\n", 3, fault)?,
            "at {words}"
        );
        assert!(rt;
            is_answered(alloc, words, "ops 2\n", "ops 49\n", 4, limit)?,
            "at {words}"
        );
    }
    Ok(())
}
