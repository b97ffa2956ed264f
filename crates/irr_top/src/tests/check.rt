// Verdicts on reports.
use super::*;

#[test]
fn a_report_of_a_screw_axis_is_right(rt: HostRuntime) -> Result<(), Fail> {
    let (axis, report) = (SCREW, SCREW_REPORT);
    let input = format!(in rt.alloc(); "{axis}{report}")?;
    let (status, text) = checked(rt.alloc(), input.as_bytes())?;
    assert_eq!(rt; status, Status::Done);
    assert_eq!(rt; text.as_slice(), b"yes\n".as_slice());
    Ok(())
}

// The real representation of two rows has an invariant subspace over the numbers of order 3.
const REAL_REPORT: &str =
    "-y,x-y,z\nreport 1\nwave 0,0,0\norder 3\nops 3\nop 1 x,y,z\nop 2 -x+y,-x,z\nop 3 -y,x-y,z\nreps 2\n\
    rep S1 dim 1\nchar 1 1 1\nmat 1 1\nmat 2 1\nmat 3 1\n\
    rep S2 dim 2\nchar 2 -1 -1\nmat 1 1 0 0 1\nmat 2 -1 1 -1 0\nmat 3 0 -1 1 -1\nend\n";

// The character and the matrices of the first representation of the screw axis, and what follows.
const SCREW_FIRST: &str = "char 1 1*z^1\nmat 1 1\nmat 2 1*z^1\n";

const SCREW_REST: &str = "rep S2 dim 1\nchar 1 -1*z^1\nmat 1 1\nmat 2 -1*z^1\nend\n";

// Whether `check` answers a report of the screw axis at the zone face, of this order and with these lines, so.
fn is_answered(
    alloc: Global,
    order: u32,
    count: u32,
    first: &str,
    rest: &str,
    code: u8,
    line: &str,
) -> Result<bool, Fail> {
    let axis = SCREW;
    let input = format!(in alloc;
        "{axis}report 1\nwave 0,1/2,0\norder {order}\nops 2\nop 1 x,y,z\nop 2 -x,y+1/2,-z\n\
        reps {count}\nrep S1 dim 1\n{first}{rest}"
    )?;
    let (status, text) = checked(alloc, input.as_bytes())?;
    Ok(status.code() == code && text.as_slice() == line.as_bytes())
}

#[test]
fn reports_of_a_screw_axis_are_judged(rt: HostRuntime) -> Result<(), Fail> {
    let (alloc, first, rest) = (rt.alloc(), SCREW_FIRST, SCREW_REST);
    let unit = "char 1 1*z^1\nmat 1 1\nmat 2 1\n";
    assert!(rt; is_answered(alloc, 4, 2, unit, rest, 1, "no multiply S1 2 2\n")?);
    let opposite = "char 1 1*z^1\nmat 1 1\nmat 2 -1*z^1\n";
    assert!(rt; is_answered(alloc, 4, 2, opposite, rest, 1, "no char S1 2\n")?);
    let again = "rep S2 dim 1\nchar 1 1*z^1\nmat 1 1\nmat 2 1*z^1\nend\n";
    assert!(rt; is_answered(alloc, 4, 2, first, again, 1, "no equivalent S1 S2\n")?);
    assert!(rt; is_answered(alloc, 4, 1, first, "end\n", 1, "no missing\n")?);
    assert!(rt; is_answered(alloc, 8, 2, first, rest, 1, "no order 4\n")?);
    let unended = "rep S2 dim 1\nchar 1 -1*z^1\nmat 1 1\nmat 2 -1*z^1\n";
    assert!(rt;
        is_answered(
            alloc,
            4,
            2,
            first,
            unended,
            3,
            "bad input line 17: report\n"
        )?
    );
    Ok(())
}

#[test]
fn reports_are_judged_or_refused(rt: HostRuntime) -> Result<(), Fail> {
    let other_order = report(rt.alloc(), "0,0,0", 241)?;
    let large_order = report(rt.alloc(), "0,0,0", 12001)?;
    for (input, code, line) in [
        (REAL_REPORT, 1, "no reducible S2\n"),
        (other_order.as_str(), 1, "no order 1\n"),
        (large_order.as_str(), 4, "too large: report line 3\n"),
        ("", 3, "bad input line 1: missing\n"),
        (SCREW, 3, "bad input line 2: missing\n"),
        (
            "-x,-y,-z\nreport 1\nwave 0,0\n",
            3,
            "bad input line 3: report\n",
        ),
    ] {
        let (status, text) = checked(rt.alloc(), input.as_bytes())?;
        assert_eq!(rt; status.code(), code, "at {line}");
        assert_eq!(rt; text.as_slice(), line.as_bytes(), "at {line}");
    }
    Ok(())
}

#[test]
fn a_line_of_a_verdict_is_made(rt: HostRuntime) -> Result<(), Fail> {
    for (clause, expected) in [
        (Clause::Order, "no order 5\n"),
        (Clause::Ops, "no ops 5\n"),
        (Clause::Unit, "no unit S12\n"),
        (Clause::Multiply, "no multiply S12 5 7\n"),
        (Clause::Char, "no char S12 5\n"),
        (Clause::Reducible, "no reducible S12\n"),
        (Clause::Equivalent, "no equivalent S12 S5\n"),
        (Clause::Missing, "no missing\n"),
    ] {
        let verdict = Verdict::No {
            clause,
            rep: 12,
            i: 5,
            j: 7,
        };
        let line = text_verdict(rt.alloc(), &verdict)?;
        assert_eq!(rt; line.as_slice(), expected.as_bytes());
    }
    let line = text_verdict(rt.alloc(), &Verdict::Yes)?;
    assert_eq!(rt; line.as_slice(), b"yes\n".as_slice());
    Ok(())
}
