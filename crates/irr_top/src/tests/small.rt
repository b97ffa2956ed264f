// Small representations: orders, operations, dimensions and characters.
use super::*;

#[test]
fn the_small_representation_is_reported(rt: HostRuntime) -> Result<(), Fail> {
    for (input, word, wave, order) in [
        ("", "0,0,0", "0,0,0", 1),
        ("", "1/2,1/3,1/5", "1/2,1/3,1/5", 30),
        ("", "-1/8,0,0", "7/8,0,0", 8),
        ("", "1/241,0,0", "1/241,0,0", 241),
        ("", "5/2,-7/3,4", "1/2,2/3,0", 6),
        ("", "+15/30, 2/6\t,03/15", "1/2,1/3,1/5", 30),
        (INVERSION, "1/8,0,0", "1/8,0,0", 16),
        (INVERSION, "-1/8,0,0", "7/8,0,0", 16),
        ("-x,-y,-z\r\n", "1/8,0,0", "1/8,0,0", 16),
        ("-x,-y,-z", "1/8,0,0", "1/8,0,0", 16),
        (
            "# P-1\n\n \t\n\t# again\n -x , - y,-1Z \r\n\r\n",
            "1/8,0,0",
            "1/8,0,0",
            16,
        ),
        ("'-x,-y,-z'\n\"x,y,z\"\n", "1/8,0,0", "1/8,0,0", 16),
        (SCREW, "1/21,0,0", "1/21,0,0", 42),
        ("x+1/32,y,z\n", "0,0,0", "0,0,0", 1),
        ("x+50000/100000,y+1/3,z\n", "0,0,0", "0,0,0", 1),
        ("1 x,y,z\n", "0,0,0", "0,0,0", 1),
        ("x+1/32,y,z\n", "-32/11999,0,0", "383936/11999,0,0", 11999),
    ] {
        let (status, text) = small_at(rt.alloc(), input, word)?;
        assert_eq!(rt; status, Status::Done, "at {word}");
        assert_eq!(rt;
            text.as_slice(),
            report(rt.alloc(), wave, order)?.as_bytes(),
            "at {word}"
        );
        assert!(rt; is_accepted(rt.alloc(), input, &text)?, "at {word}");
    }
    Ok(())
}

#[test]
fn a_screw_axis_at_the_zone_face(rt: HostRuntime) -> Result<(), Fail> {
    let (status, text) = small_at(rt.alloc(), SCREW, "0,1/2,0")?;
    assert_eq!(rt; status, Status::Done);
    assert_eq!(rt; text.as_slice(), SCREW_REPORT.as_bytes());

    let bytes = Vec::from_slice(rt.alloc(), SCREW.as_bytes())?;
    let words = ["small", "0,1/2,0"];
    let (status, text) = ran(rt.alloc(), &words, bytes, Vec::new(rt.alloc()), 100)?;
    assert_eq!(rt; status.code(), 6);
    assert!(rt; SCREW_REPORT.as_bytes().starts_with(text.as_slice()));
    assert_eq!(rt; text.len(), 100);
    Ok(())
}

#[test]
fn a_triplet_is_read_as_a_database_writes_it(rt: HostRuntime) -> Result<(), Fail> {
    let (_, text) = small_at(rt.alloc(), "' 1/2-X , +y, Z+1/2 '\n", "0,0,0")?;
    let ops = ["op 1 x,y,z", "op 2 -x+1/2,y,z+1/2"];
    assert!(rt; lines_are(&text, "op ", &ops, true));
    Ok(())
}

// Whether `small` at a wave vector is done, with a report of this order and number of operations, and these lines
// that begin with a word, which `check` finds right and complete.
fn has_report(
    alloc: Global,
    input: &str,
    wave: &str,
    head: [&str; 2],
    word: &str,
    lines: &[&str],
) -> Result<bool, Fail> {
    let (status, text) = small_at(alloc, input, wave)?;
    if status.code() != 0 {
        return Ok(false);
    }
    if !is_accepted(alloc, input, &text)? {
        return Ok(false);
    }
    if !lines_are(&text, "order ", &head[..1], true) {
        return Ok(false);
    }
    if !lines_are(&text, "ops ", &head[1..], true) {
        return Ok(false);
    }
    Ok(lines_are(&text, word, lines, true))
}

#[test]
fn the_inversion_at_the_zone_centre(rt: HostRuntime) -> Result<(), Fail> {
    let chars = ["char 1 1", "char 1 -1"];
    assert!(rt;
        has_report(
            rt.alloc(),
            INVERSION,
            "0,0,0",
            ["order 2", "ops 2"],
            "char ",
            &chars
        )?
    );
    Ok(())
}

#[test]
fn three_screw_axes_at_a_corner_of_the_zone(rt: HostRuntime) -> Result<(), Fail> {
    let chars = ["char 2 0 0 0"];
    let wave = "1/2,1/2,1/2";
    assert!(rt;
        has_report(
            rt.alloc(),
            ORTHORHOMBIC,
            wave,
            ["order 4", "ops 4"],
            "char ",
            &chars
        )?
    );
    Ok(())
}

#[test]
fn three_screw_axes_at_an_edge_of_the_zone(rt: HostRuntime) -> Result<(), Fail> {
    let chars = [
        "char 1 1 1*z^1 -1*z^1",
        "char 1 1 -1*z^1 1*z^1",
        "char 1 -1 1*z^1 1*z^1",
        "char 1 -1 -1*z^1 -1*z^1",
    ];
    let wave = "1/2,1/2,0";
    assert!(rt;
        has_report(
            rt.alloc(),
            ORTHORHOMBIC,
            wave,
            ["order 4", "ops 4"],
            "char ",
            &chars
        )?
    );
    Ok(())
}

#[test]
fn a_fourfold_screw_axis_inside_the_zone(rt: HostRuntime) -> Result<(), Fail> {
    let chars = [
        "char 1 1*z^6 1*z^3 -1*z^1",
        "char 1 1*z^6 -1*z^3 1*z^1",
        "char 1 -1*z^6 1*z^7 1*z^5",
        "char 1 -1*z^6 -1*z^7 -1*z^5",
    ];
    let head = ["order 16", "ops 4"];
    assert!(rt; has_report(rt.alloc(), "-y,x,z+1/4\n", "0,0,1/4", head, "char ", &chars)?);
    let reps = [
        "rep S1 dim 1",
        "rep S2 dim 1",
        "rep S3 dim 1",
        "rep S4 dim 1",
    ];
    let head = ["order 12000", "ops 4"];
    assert!(rt;
        has_report(
            rt.alloc(),
            "-y,x,z+1/4\n",
            "0,0,1/3000",
            head,
            "rep ",
            &reps
        )?
    );
    Ok(())
}

#[test]
fn a_threefold_axis_at_the_zone_centre(rt: HostRuntime) -> Result<(), Fail> {
    let chars = [
        "char 1 1 1",
        "char 1 1*z^1 -1-1*z^1",
        "char 1 -1-1*z^1 1*z^1",
    ];
    let head = ["order 3", "ops 3"];
    assert!(rt; has_report(rt.alloc(), "-y,x-y,z\n", "0,0,0", head, "char ", &chars)?);
    Ok(())
}

#[test]
fn operations_of_a_little_group_are_numbered(rt: HostRuntime) -> Result<(), Fail> {
    let (_, text) = small_at(rt.alloc(), ORTHORHOMBIC, "1/2,1/2,1/2")?;
    let ops = [
        "op 1 x,y,z",
        "op 2 -x+1/2,-y,z+1/2",
        "op 3 -x,y+1/2,-z+1/2",
        "op 4 x+1/2,-y+1/2,-z",
    ];
    assert!(rt; lines_are(&text, "op ", &ops, true));
    let (_, text) = small_at(rt.alloc(), "-y,x,z+1/4\n", "0,0,1/4")?;
    let ops = [
        "op 1 x,y,z",
        "op 2 -x,-y,z+1/2",
        "op 3 -y,x,z+1/4",
        "op 4 y,-x,z+3/4",
    ];
    assert!(rt; lines_are(&text, "op ", &ops, true));
    Ok(())
}

#[test]
fn a_cubic_group_at_the_zone_centre(rt: HostRuntime) -> Result<(), Fail> {
    let (status, text) = small_at(rt.alloc(), CUBIC, "0,0,0")?;
    assert_eq!(rt; status, Status::Done);
    assert!(rt; lines_are(&text, "order ", &["order 12"], true));
    assert!(rt; lines_are(&text, "ops ", &["ops 48"], true));
    assert!(rt; lines_are(&text, "op 2 ", &["op 2 -x,-y,-z"], true));
    assert!(rt; lines_are(&text, "op 3 ", &["op 3 -x,-y,z"], true));
    assert!(rt; lines_are(&text, "op 4 ", &["op 4 -x,-z,-y"], true));
    let reps = [
        "rep S1 dim 1",
        "rep S2 dim 1",
        "rep S3 dim 1",
        "rep S4 dim 1",
        "rep S5 dim 2",
        "rep S6 dim 2",
        "rep S7 dim 3",
        "rep S8 dim 3",
        "rep S9 dim 3",
        "rep S10 dim 3",
    ];
    assert!(rt; lines_are(&text, "rep ", &reps, true));
    let chars = [
        "char 1 1 1 1 ",
        "char 1 1 1 -1 ",
        "char 1 -1 1 1 ",
        "char 1 -1 1 -1 ",
        "char 2 2 2 0 ",
        "char 2 -2 2 0 ",
        "char 3 3 -1 1 ",
        "char 3 3 -1 -1 ",
        "char 3 -3 -1 1 ",
        "char 3 -3 -1 -1 ",
    ];
    assert!(rt; lines_are(&text, "char ", &chars, false));
    Ok(())
}

#[test]
fn three_representations_of_two_rows(rt: HostRuntime) -> Result<(), Fail> {
    let reps = ["rep S1 dim 2", "rep S2 dim 2", "rep S3 dim 2"];
    let head = ["order 24", "ops 12"];
    assert!(rt; has_report(rt.alloc(), BODY_CENTRED, "1/2,1/2,1/2", head, "rep ", &reps)?);
    Ok(())
}

#[test]
fn four_representations_of_two_rows(rt: HostRuntime) -> Result<(), Fail> {
    let reps = [
        "rep S1 dim 2",
        "rep S2 dim 2",
        "rep S3 dim 2",
        "rep S4 dim 2",
    ];
    let head = ["order 24", "ops 16"];
    assert!(rt; has_report(rt.alloc(), DIAMOND, "0,1,0", head, "rep ", &reps)?);
    Ok(())
}

// The little co-group 4mm.
#[test]
fn a_line_of_a_cubic_group(rt: HostRuntime) -> Result<(), Fail> {
    let reps = [
        "rep S1 dim 1",
        "rep S2 dim 1",
        "rep S3 dim 1",
        "rep S4 dim 1",
        "rep S5 dim 2",
    ];
    let head = ["order 240", "ops 8"];
    assert!(rt; has_report(rt.alloc(), CUBIC, "1/20,0,0", head, "rep ", &reps)?);
    let head = ["order 252", "ops 8"];
    assert!(rt; has_report(rt.alloc(), CUBIC, "1/21,0,0", head, "rep ", &reps)?);
    let head = ["order 12000", "ops 8"];
    assert!(rt; has_report(rt.alloc(), CUBIC, "1/1000,0,0", head, "rep ", &reps)?);
    Ok(())
}
