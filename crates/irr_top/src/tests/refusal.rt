// Words and inputs that are refused, and how.
use super::*;

#[test]
fn words_are_refused(rt: HostRuntime) -> Result<(), Fail> {
    for (words, line) in [
        (&[][..], "usage 1\n"),
        (&["smal", "0,0,0"], "usage 1\n"),
        (&["small"], "usage 2\n"),
        (&["small", "1/2,0"], "usage 2\n"),
        (&["small", "0,0,0", "0"], "usage 3\n"),
        (&["small", " 0,0,0"], "usage 2\n"),
        (&["star"], "usage 2\n"),
        (&["star", "1/2,0"], "usage 2\n"),
        (&["star", "1/0,0,0"], "usage 2\n"),
        (&["star", "0,0,0", "0"], "usage 3\n"),
        (&["full"], "usage 2\n"),
        (&["full", "0,0,0", "0"], "usage 3\n"),
        (&["real"], "usage 2\n"),
        (&["real", "0,0,0", "0"], "usage 3\n"),
        (&["product", "0,0,0"], "usage 3\n"),
        (&["product", "0,0,0", "1/0,0,0"], "usage 3\n"),
        (&["product", "0,0,0", "0,0,0", "0"], "usage 4\n"),
        (&["square"], "usage 2\n"),
        (&["square", "0,0,0", "0"], "usage 3\n"),
        (&["tensor"], "usage 2\n"),
        (&["tensor", "5"], "usage 2\n"),
        (&["tensor", "sym2", "0"], "usage 3\n"),
        (&["compat", "0,0,0"], "usage 3\n"),
        (&["compat", "0,0,0", "0,0,0", "1/0,0,0"], "usage 4\n"),
        (&["compat", "0,0,0", "0,0,0", "0,0,0", "0"], "usage 5\n"),
        (&["site", "0,0,0"], "usage 3\n"),
        (&["site", "1001,0,0", "0,0,0"], "usage 2\n"),
        (&["site", "0,0,0", "0,0,0", "0"], "usage 4\n"),
        (&["subduce"], "usage 2\n"),
        (&["subduce", "0,0,0", "0"], "usage 3\n"),
        (&["check", "0"], "usage 2\n"),
        (&["gen"], "usage 2\n"),
        (&["gen", "4294967296"], "usage 2\n"),
        (&["gen", "-1"], "usage 2\n"),
        (&["gen", "7", "0"], "usage 3\n"),
    ] {
        let (status, text) = ran(
            rt.alloc(),
            words,
            Vec::new(rt.alloc()),
            Vec::new(rt.alloc()),
            1000,
        )?;
        assert_eq!(rt; status.code(), 2, "at {line}");
        assert_eq!(rt; text.as_slice(), line.as_bytes(), "at {line}");
    }
    Ok(())
}

#[test]
fn inputs_are_refused(rt: HostRuntime) -> Result<(), Fail> {
    for (input, wave, code, line) in [
        ("-x,-y,-z\nx,y\n", "0,0,0", 3, "bad input line 2: shape 4\n"),
        (
            "-x,-y,-z\nx,x,z\n",
            "0,0,0",
            3,
            "bad input line 2: determinant\n",
        ),
        (
            "-x,-y,-z\nx+1/0,y,z\n",
            "0,0,0",
            3,
            "bad input line 2: zero 5\n",
        ),
        (
            "-x,-y,-z\nx+100001,y,z",
            "0,0,0",
            3,
            "bad input line 2: range 3\n",
        ),
        (
            "#\n\n\t \nx+1/400,y+1/401,z \n",
            "0,0,0",
            3,
            "bad input line 4: range 19\n",
        ),
        ("\n'x,y,z\"\r\n", "0,0,0", 3, "bad input line 2: shape 7\n"),
        ("-x,-y,-z\r", "0,0,0", 3, "bad input line 1: shape 9\n"),
        ("-10X,y,z\n", "0,0,0", 3, "bad input line 1: range 2\n"),
        ("  subgroup\n", "0,0,0", 3, "bad input line 2: missing\n"),
        (CUBIC, "1/1001,0,0", 4, "too large: order 12012\n"),
        ("x+y,y,z\n", "0,0,0", 4, "too large: rotations\n"),
        (
            "-x+1/401,y,z\nx,-y+1/409,z\n",
            "0,0,0",
            4,
            "too large: denominator\n",
        ),
        ("x+1/33,y,z\n", "0,0,0", 4, "too large: centrings\n"),
        ("", "1/12001,0,0", 4, "too large: order 12001\n"),
    ] {
        let (status, text) = small_at(rt.alloc(), input, wave)?;
        assert_eq!(rt; status.code(), code, "at {line}");
        assert_eq!(rt; text.as_slice(), line.as_bytes(), "at {line}");
    }
    Ok(())
}

#[test]
fn input_is_limited_and_faults_are_told(rt: HostRuntime) -> Result<(), Fail> {
    let long = vec![in rt.alloc(); b'#'; 4_194_305]?;
    let (status, text) = ran(
        rt.alloc(),
        &["small", "0,0,0"],
        long,
        Vec::new(rt.alloc()),
        1000,
    )?;
    assert_eq!(rt; status.code(), 4);
    assert_eq!(rt; text.as_slice(), b"too large: bytes\n".as_slice());

    let comment = vec![in rt.alloc(); b'#'; 4_194_304]?;
    let (status, text) = ran(
        rt.alloc(),
        &["small", "0,0,0"],
        comment,
        Vec::new(rt.alloc()),
        1000,
    )?;
    assert_eq!(rt; status, Status::Done);
    assert_eq!(rt; text.as_slice(), report(rt.alloc(), "0,0,0", 1)?.as_bytes());

    let fails = vec![in rt.alloc(); 0]?;
    let (status, text) = ran(
        rt.alloc(),
        &["small", "0,0,0"],
        Vec::new(rt.alloc()),
        fails,
        1000,
    )?;
    assert_eq!(rt; status.code(), 5);
    assert_eq!(rt; text.len(), 0);

    let (status, text) = ran(
        rt.alloc(),
        &["small", "0,0,0"],
        Vec::new(rt.alloc()),
        Vec::new(rt.alloc()),
        20,
    )?;
    assert_eq!(rt; status.code(), 6);
    assert_eq!(rt; text.as_slice(), b"report 1\nwave 0,0,0\n".as_slice());
    Ok(())
}

#[test]
fn a_line_of_a_refusal_is_made(rt: HostRuntime) -> Result<(), Fail> {
    one_status_is_asked_for();
    for (reason, expected) in [
        (Reason::Shape(3), "bad input line 2: shape 4\n"),
        (Reason::Zero(4), "bad input line 2: zero 5\n"),
        (Reason::Range(2), "bad input line 2: range 3\n"),
        (Reason::Determinant, "bad input line 2: determinant\n"),
        (Reason::Missing, "bad input line 2: missing\n"),
        (Reason::Report, "bad input line 2: report\n"),
        (Reason::Singular, "bad input line 2: singular\n"),
        (Reason::NotInGroup, "bad input line 2: not in group\n"),
    ] {
        let status = Status::BadInput { line: 2, reason };
        let line = text_refusal(rt.alloc(), &status)?;
        assert_eq!(rt; line.as_slice(), expected.as_bytes());
    }
    assert_eq!(rt; Status::TooLarge(Kind::Bytes).code(), 4);
    assert_eq!(rt; Status::Memory.code(), 7);
    Ok(())
}
