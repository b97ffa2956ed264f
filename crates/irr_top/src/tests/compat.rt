// Compatibility relations along lines and in a plane, as they are written.
use super::*;

// What these words write on this input, and the status.
fn related(alloc: Global, input: &str, words: &[&str]) -> Result<(Status, Vec<u8>), Fail> {
    let bytes = Vec::from_slice(alloc, input.as_bytes())?;
    ran(alloc, words, bytes, Vec::new(alloc), 1 << 20)
}

// Whether the lines of a text have these lines among them, one after another.
fn has_lines(text: &[u8], lines: &str) -> bool {
    let mut rest = text;
    while !rest.is_empty() {
        if rest.starts_with(lines.as_bytes()) {
            return true;
        }
        let (_, behind) = next_line(rest);
        rest = behind;
    }
    false
}

// The phase of the screw's vector exchanges the labels of the second point.
const SCREW_LINE: &str = "compat 1\norder 4\npoint 0 0,0,0\npoint 1 0,1/2,0\nops 2\nop 1 x,y,z\n\
    op 2 -x,y+1/2,-z\nreps 2\nrep L1 dim 1\nchar 1 1\nrep L2 dim 1\nchar 1 -1\n\
    from 0 S1 dim 1\npart L1 1 1\nfrom 0 S2 dim 1\npart L2 1 1\n\
    from 1 S1 dim 1\npart L2 1 1\nfrom 1 S2 dim 1\npart L1 1 1\nend\n";

#[test]
fn along_a_screw_axis(rt: HostRuntime) -> Result<(), Fail> {
    let (status, text) = related(rt.alloc(), SCREW, &["compat", "0,0,0", "0,1/2,0"])?;
    assert_eq!(rt; status, Status::Done);
    assert_eq!(rt; text.as_slice(), SCREW_LINE.as_bytes());
    Ok(())
}

#[test]
fn from_a_point_to_itself(rt: HostRuntime) -> Result<(), Fail> {
    let (status, text) = related(rt.alloc(), SCREW, &["compat", "0,0,0", "0,0,0"])?;
    assert_eq!(rt; status, Status::Done);
    assert!(rt; has_lines(&text, "order 2\n"));
    let rows = "from 0 S1 dim 1\npart L1 1 1\nfrom 0 S2 dim 1\npart L2 1 1\n\
        from 1 S1 dim 1\npart L1 1 1\nfrom 1 S2 dim 1\npart L2 1 1\nend\n";
    assert!(rt; has_lines(&text, rows));
    Ok(())
}

// A1g goes to the unit representation of 4mm, and T1u to that and the one of two rows.
#[test]
fn along_a_fourfold_axis(rt: HostRuntime) -> Result<(), Fail> {
    let (status, text) = related(rt.alloc(), CUBIC, &["compat", "0,0,0", "0,0,1/2"])?;
    assert_eq!(rt; status, Status::Done);
    assert!(rt; has_lines(&text, "order 24\npoint 0 0,0,0\npoint 1 0,0,1/2\nops 8\n"));
    let members = [
        "rep L1 dim 1",
        "rep L2 dim 1",
        "rep L3 dim 1",
        "rep L4 dim 1",
        "rep L5 dim 2",
    ];
    assert!(rt; lines_are(&text, "rep ", &members, true));
    assert!(rt; has_lines(&text, "from 0 S1 dim 1\npart L1 1 1\nfrom 0 S2 dim 1\n"));
    let last = "from 0 S10 dim 3\npart L1 1 1\npart L5 1 2\nfrom 1 S1 dim 1\n";
    assert!(rt; has_lines(&text, last));
    Ok(())
}

// Of the three components of a vector two lie in the mirror plane.
#[test]
fn in_a_mirror_plane(rt: HostRuntime) -> Result<(), Fail> {
    let words = ["compat", "0,0,0", "1/2,0,0", "0,1/2,0"];
    let (status, text) = related(rt.alloc(), CUBIC, &words)?;
    assert_eq!(rt; status, Status::Done);
    let head = "order 24\npoint 0 0,0,0\npoint 1 1/2,0,0\npoint 2 0,1/2,0\n\
        ops 2\nop 1 x,y,z\nop 2 x,y,-z\nreps 2\n";
    assert!(rt; has_lines(&text, head));
    let last = "from 0 S10 dim 3\npart L1 2 1\npart L2 1 1\nfrom 1 S1 dim 1\n";
    assert!(rt; has_lines(&text, last));
    Ok(())
}

// From the zone centre of diamond to the point X: there two of the four representations of two rows stay whole on the
// line, and so does one of two rows in each of three rows at the centre.
#[test]
fn from_the_centre_to_a_face_of_the_zone_of_diamond(rt: HostRuntime) -> Result<(), Fail> {
    let (status, text) = related(rt.alloc(), DIAMOND, &["compat", "0,0,0", "0,1,0"])?;
    assert_eq!(rt; status, Status::Done);
    assert!(rt; has_lines(&text, "order 24\npoint 0 0,0,0\npoint 1 0,1,0\nops 8\n"));
    let ends = [
        "from 1 S1 dim 2",
        "from 1 S2 dim 2",
        "from 1 S3 dim 2",
        "from 1 S4 dim 2",
    ];
    assert!(rt; lines_are(&text, "from 1 ", &ends, true));
    assert!(rt; lines_are(&text, "part L5 ", &["part L5 1 2"; 6], true));
    Ok(())
}

// Points are written as they are given, in lowest terms.
#[test]
fn points_are_not_reduced(rt: HostRuntime) -> Result<(), Fail> {
    let (status, text) = related(rt.alloc(), "", &["compat", "-2/4,0,0", "3/2,0,1"])?;
    assert_eq!(rt; status, Status::Done);
    assert!(rt; has_lines(&text, "order 2\npoint 0 -1/2,0,0\npoint 1 3/2,0,1\nops 1\n"));
    Ok(())
}

#[test]
fn a_short_line_has_a_great_order(rt: HostRuntime) -> Result<(), Fail> {
    let (status, text) = related(rt.alloc(), CUBIC, &["compat", "0,0,0", "1/21,0,0"])?;
    assert_eq!(rt; status, Status::Done);
    assert!(rt; has_lines(&text, "order 252\n"));
    Ok(())
}

// The first order of some points in front that is too large is named.
#[test]
fn orders_of_lines_are_refused(rt: HostRuntime) -> Result<(), Fail> {
    for (input, words, line) in [
        (
            CUBIC,
            &["compat", "0,0,0", "1/1001,0,0"][..],
            "too large: order 12012\n",
        ),
        (
            "",
            &["compat", "1/12001,0,0", "0,0,0"],
            "too large: order 12001\n",
        ),
        (
            INVERSION,
            &["compat", "0,0,0", "1/120,0,0", "1/121,0,0"],
            "too large: order 29040\n",
        ),
    ] {
        let (status, text) = related(rt.alloc(), input, words)?;
        assert_eq!(rt; status.code(), 4, "at {line}");
        assert_eq!(rt; text.as_slice(), line.as_bytes(), "at {line}");
    }
    Ok(())
}
