// Cut inputs: the first bytes of an input, for each number of bytes.
use super::*;

// Whether the first bytes of an input, so many of them, have this answer.
fn is_answered(
    alloc: Global,
    words: &str,
    input: &str,
    count: usize,
    code: u8,
    text: &str,
) -> Result<bool, Fail> {
    let Some(front) = input.as_bytes().get(..count) else {
        return Ok(false);
    };
    answers(alloc, words, front, code, text)
}

// The answer on no generators, where the translation by y alone is -1.
const NO_STAR: &str =
    "star 1\nwave 0,1/2,0\norder 2\narms 1\narm 1 0,1/2,0 x,y,z\nops 1\nop 1 x,y,z\nfactor 1 1:0\nend\n";

const NO_SMALL: &str =
    "report 1\nwave 0,1/2,0\norder 2\nops 1\nop 1 x,y,z\nreps 1\nrep S1 dim 1\nchar 1\nmat 1 1\nend\n";

const NO_FULL: &str =
    "full 1\nwave 0,1/2,0\norder 2\narms 1\narm 1 0,1/2,0 x,y,z\nops 1\nop 1 x,y,z\n\
    gens 3\ngen 1 x+1,y,z\ngen 2 x,y+1,z\ngen 3 x,y,z+1\nreps 1\nrep S1 dim 1\nchar 1\nmat 1 1\nmat 2 -1\nmat 3 1\nend\n";

const NO_PRODUCT: &str =
    "product 1\norder 2\nwaves 0,1/2,0 0,1/2,0\npair S1 S1 dim 1\npart 0,0,0 S1 1 1\nend\n";

const NO_COMPAT: &str =
    "compat 1\norder 2\npoint 0 0,0,0\npoint 1 0,1/2,0\nops 1\nop 1 x,y,z\nreps 1\nrep L1 dim 1\nchar 1\n\
    from 0 S1 dim 1\npart L1 1 1\nfrom 1 S1 dim 1\npart L1 1 1\nend\n";

const NO_SQUARE: &str =
    "square 1\norder 2\nwave 0,1/2,0\nsym S1 dim 1\npart 0,0,0 S1 1 1\nanti S1 dim 0\nend\n";

const NO_TENSOR: &str = "tensor 1\nform 1\norder 1\ndim 3\npart 0,0,0 S1 3 1\nend\n";

const NO_SITE: &str =
    "site 1\norder 2\nwave 0,1/2,0\npoint 1/8,0,0\nops 1\nop 1 x,y,z\nsites 1\nsite 1 1/8,0,0\n\
    reps 1\nrep T1 dim 1\npart S1 1 1\ndisplace dim 3\npart S1 3 1\nend\n";

const NO_REAL: &str = "real 1\nwave 0,1/2,0\norder 2\nreps 1\nrep S1 dim 1 type 1\nend\n";

// Whether the cut generator is refused at the column behind it, as long as it is no triplet; without any byte, and as soon
// as it is a triplet, it is answered.
fn is_told(alloc: Global, words: &str, none: &str, whole: &str) -> Result<bool, Fail> {
    for count in 1..11 {
        let column = count + 1;
        let line = format!(in alloc; "bad input line 1: shape {column}\n")?;
        if !is_answered(alloc, words, SCREW, count, 3, &line)? {
            return Ok(false);
        }
    }
    let empty = is_answered(alloc, words, SCREW, 0, 0, none)?;
    let unended = is_answered(alloc, words, SCREW, 11, 0, whole)?;
    let ended = is_answered(alloc, words, SCREW, 12, 0, whole)?;
    Ok(empty && unended && ended)
}

#[test]
fn generators_cut_at_every_byte(rt: HostRuntime) -> Result<(), Fail> {
    for (words, none, whole) in [
        ("star 0,1/2,0", NO_STAR, STAR),
        ("small 0,1/2,0", NO_SMALL, SMALL),
        ("full 0,1/2,0", NO_FULL, FULL),
        ("product 0,1/2,0 0,1/2,0", NO_PRODUCT, PRODUCT),
        ("compat 0,0,0 0,1/2,0", NO_COMPAT, COMPAT),
        ("square 0,1/2,0", NO_SQUARE, SQUARE),
        ("tensor 1", NO_TENSOR, TENSOR),
        ("site 1/8,0,0 0,1/2,0", NO_SITE, SITE),
        ("real 0,1/2,0", NO_REAL, REAL),
    ] {
        assert!(rt; is_told(rt.alloc(), words, none, whole)?, "at {words}");
    }
    Ok(())
}

// Whether each cut of the generator and its report from one number of bytes on, and below another, has this answer.
fn are_answered(
    alloc: Global,
    first: usize,
    behind: usize,
    code: u8,
    text: &str,
) -> Result<bool, Fail> {
    for count in first..behind {
        if !is_answered(alloc, "check", JUDGED, count, code, text)? {
            return Ok(false);
        }
    }
    Ok(true)
}

// A report begins with the word `report`; from there on the first line that is missing or outside the grammar is faulty.
// Where a value loses `*z^1` it is still one, so the line is whole, and the next one is missing.
#[test]
fn reports_cut_at_every_byte(rt: HostRuntime) -> Result<(), Fail> {
    for (first, behind, code, text) in [
        (0, 1, 3, "bad input line 1: missing\n"),
        (1, 2, 3, "bad input line 1: shape 2\n"),
        (2, 3, 3, "bad input line 1: shape 3\n"),
        (3, 4, 3, "bad input line 1: shape 4\n"),
        (4, 5, 3, "bad input line 1: shape 5\n"),
        (5, 6, 3, "bad input line 1: shape 6\n"),
        (6, 7, 3, "bad input line 1: shape 7\n"),
        (7, 8, 3, "bad input line 1: shape 8\n"),
        (8, 9, 3, "bad input line 1: shape 9\n"),
        (9, 10, 3, "bad input line 1: shape 10\n"),
        (10, 11, 3, "bad input line 1: shape 11\n"),
        (11, 13, 3, "bad input line 2: missing\n"),
        (13, 18, 3, "bad input line 2: shape 1\n"),
        // report 1
        (18, 20, 3, "bad input line 2: report\n"),
        (20, 33, 3, "bad input line 3: report\n"),
        (33, 41, 3, "bad input line 4: report\n"),
        (41, 47, 3, "bad input line 5: report\n"),
        (47, 58, 3, "bad input line 6: report\n"),
        (58, 75, 3, "bad input line 7: report\n"),
        (75, 82, 3, "bad input line 8: report\n"),
        // rep S1 dim 1
        (82, 95, 3, "bad input line 9: report\n"),
        // char 1 1*z^1
        (95, 104, 3, "bad input line 10: report\n"),
        (104, 105, 3, "bad input line 11: report\n"),
        (105, 108, 3, "bad input line 10: report\n"),
        (108, 116, 3, "bad input line 11: report\n"),
        // mat 2 1*z^1
        (116, 124, 3, "bad input line 12: report\n"),
        (124, 125, 3, "bad input line 13: report\n"),
        (125, 128, 3, "bad input line 12: report\n"),
        // rep S2 dim 1
        (128, 141, 3, "bad input line 13: report\n"),
        // char 1 -1*z^1
        (141, 151, 3, "bad input line 14: report\n"),
        (151, 152, 3, "bad input line 15: report\n"),
        (152, 155, 3, "bad input line 14: report\n"),
        (155, 163, 3, "bad input line 15: report\n"),
        // mat 2 -1*z^1
        (163, 172, 3, "bad input line 16: report\n"),
        (172, 173, 3, "bad input line 17: report\n"),
        (173, 176, 3, "bad input line 16: report\n"),
        // end
        (176, 180, 3, "bad input line 17: report\n"),
        (180, 182, 0, "yes\n"),
    ] {
        assert!(rt;
            are_answered(rt.alloc(), first, behind, code, text)?,
            "from {first}"
        );
    }
    Ok(())
}
