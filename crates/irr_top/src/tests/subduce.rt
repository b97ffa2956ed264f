// Restrictions to subgroups, and why a section gives none, as they are written.
use super::*;

// Whether `subduce` at a wave vector ends with this code on this input, and writes this.
fn is_answered(
    alloc: Global,
    input: &str,
    wave: &str,
    code: u8,
    expected: &str,
) -> Result<bool, Fail> {
    let (status, text) = at(alloc, "subduce", input, wave)?;
    Ok(status.code() == code && text.as_slice() == expected.as_bytes())
}

// A group, and a section behind it with these lines.
fn with_section(alloc: Global, group: &str, section: &str) -> Result<String, Fail> {
    Ok(format!(in alloc; "{group}subgroup\n{section}")?)
}

// Whether `subduce` is answered so on a group and a section with these lines.
fn is_restricted(
    alloc: Global,
    group: &str,
    section: &str,
    wave: &str,
    code: u8,
    expected: &str,
) -> Result<bool, Fail> {
    let input = with_section(alloc, group, section)?;
    is_answered(alloc, input.as_str(), wave, code, expected)
}

// From m-3m to 4/m, with the labels of both groups.
const CUBIC_TO_TETRAGONAL: &str =
    "subduce 1\norder 12\nwave 0,0,0\nrep S1 dim 1\npart 0,0,0 S1 1 1\nrep S2 dim 1\n\
    part 0,0,0 S2 1 1\nrep S3 dim 1\npart 0,0,0 S6 1 1\nrep S4 dim 1\npart 0,0,0 S5 1 1\n\
    rep S5 dim 2\npart 0,0,0 S1 1 1\npart 0,0,0 S2 1 1\nrep S6 dim 2\npart 0,0,0 S5 1 1\n\
    part 0,0,0 S6 1 1\nrep S7 dim 3\npart 0,0,0 S2 1 1\npart 0,0,0 S3 1 1\n\
    part 0,0,0 S4 1 1\nrep S8 dim 3\npart 0,0,0 S1 1 1\npart 0,0,0 S3 1 1\n\
    part 0,0,0 S4 1 1\nrep S9 dim 3\npart 0,0,0 S5 1 1\npart 0,0,0 S7 1 1\n\
    part 0,0,0 S8 1 1\nrep S10 dim 3\npart 0,0,0 S6 1 1\npart 0,0,0 S7 1 1\n\
    part 0,0,0 S8 1 1\nend\n";

#[test]
fn from_the_cubic_to_a_tetragonal_group(rt: HostRuntime) -> Result<(), Fail> {
    let section = "basis 1 0 0 0 1 0 0 0 1\norigin 0 0 0\n-y,x,z\n-x,-y,-z\n";
    assert!(rt; is_restricted(rt.alloc(), CUBIC, section, "0,0,0", 0, CUBIC_TO_TETRAGONAL)?);
    Ok(())
}

// The image of the inversion at 1/4,0,0 is -1 times the inversion: the labels are exchanged.
const EXCHANGED: &str =
    "subduce 1\norder 4\nwave 1/2,0,0\nrep S1 dim 1\npart 1/2,0,0 S2 1 1\nrep S2 dim 1\n\
    part 1/2,0,0 S1 1 1\nend\n";

#[test]
fn labels_at_a_shifted_origin(rt: HostRuntime) -> Result<(), Fail> {
    let section = "basis 1 0 0 0 1 0 0 0 1\norigin 1/4 0 0\n-x+1/2,-y,-z\n";
    assert!(rt; is_restricted(rt.alloc(), INVERSION, section, "1/2,0,0", 0, EXCHANGED)?);
    Ok(())
}

// With c doubled, the zone boundary becomes 0,0,0, as 0,0,0 stays.
#[test]
fn zone_boundary_of_a_doubled_axis(rt: HostRuntime) -> Result<(), Fail> {
    let section = "basis 1 0 0 0 1 0 0 0 2\norigin 0 0 0\n";
    let boundary = "subduce 1\norder 2\nwave 0,0,1/2\nrep S1 dim 1\npart 0,0,0 S1 1 1\nend\n";
    assert!(rt; is_restricted(rt.alloc(), "", section, "0,0,1/2", 0, boundary)?);
    let centre = "subduce 1\norder 1\nwave 0,0,0\nrep S1 dim 1\npart 0,0,0 S1 1 1\nend\n";
    assert!(rt; is_restricted(rt.alloc(), "", section, "0,0,0", 0, centre)?);
    Ok(())
}

// From Pm-3m to I4/mcm in the cell of a + b, b - a and 2c: of the representations at R the turns of the octahedra, S8, hold the
// unit representation, and no other does (Howard and Stokes, Acta Cryst. B54 (1998) 782).
const DOUBLED_CELL: &str =
    "subduce 1\norder 24\nwave 1/2,1/2,1/2\nrep S1 dim 1\npart 0,0,0 S4 1 1\nrep S2 dim 1\n\
    part 0,0,0 S2 1 1\nrep S3 dim 1\npart 0,0,0 S8 1 1\nrep S4 dim 1\npart 0,0,0 S6 1 1\n\
    rep S5 dim 2\npart 0,0,0 S2 1 1\npart 0,0,0 S4 1 1\nrep S6 dim 2\npart 0,0,0 S6 1 1\n\
    part 0,0,0 S8 1 1\nrep S7 dim 3\npart 0,0,0 S3 1 1\npart 0,0,0 S9 1 2\nrep S8 dim 3\n\
    part 0,0,0 S1 1 1\npart 0,0,0 S9 1 2\nrep S9 dim 3\npart 0,0,0 S7 1 1\n\
    part 0,0,0 S10 1 2\nrep S10 dim 3\npart 0,0,0 S5 1 1\npart 0,0,0 S10 1 2\nend\n";

const TILTED: &str = "basis 1 -1 0 1 1 0 0 0 2\norigin 0 0 0\nx+1/2,y+1/2,z+1/2\n-y,x,z\n\
    -x,y,-z+1/2\n-x,-y,-z\n";

#[test]
fn order_parameter_of_a_doubled_cell(rt: HostRuntime) -> Result<(), Fail> {
    assert!(rt; is_restricted(rt.alloc(), CUBIC, TILTED, "1/2,1/2,1/2", 0, DOUBLED_CELL)?);
    Ok(())
}

// At the centre of the zone the unit representation comes from that of the cubic group and from E_g, the strain of a tetragonal cell.
const STRAINS: &str =
    "subduce 1\norder 12\nwave 0,0,0\nrep S1 dim 1\npart 0,0,0 S1 1 1\nrep S2 dim 1\n\
    part 0,0,0 S3 1 1\nrep S3 dim 1\npart 0,0,0 S5 1 1\nrep S4 dim 1\npart 0,0,0 S7 1 1\n\
    rep S5 dim 2\npart 0,0,0 S1 1 1\npart 0,0,0 S3 1 1\nrep S6 dim 2\npart 0,0,0 S5 1 1\n\
    part 0,0,0 S7 1 1\nrep S7 dim 3\npart 0,0,0 S2 1 1\npart 0,0,0 S9 1 2\nrep S8 dim 3\n\
    part 0,0,0 S4 1 1\npart 0,0,0 S9 1 2\nrep S9 dim 3\npart 0,0,0 S6 1 1\n\
    part 0,0,0 S10 1 2\nrep S10 dim 3\npart 0,0,0 S8 1 1\npart 0,0,0 S10 1 2\nend\n";

#[test]
fn centre_of_the_zone_of_a_doubled_cell(rt: HostRuntime) -> Result<(), Fail> {
    assert!(rt; is_restricted(rt.alloc(), CUBIC, TILTED, "0,0,0", 0, STRAINS)?);
    Ok(())
}

// The three arms at M go to two stars of the subgroup.
const TWO_STARS: &str = "subduce 1\norder 24\nwave 1/2,1/2,0\nrep S1 dim 3\npart 0,0,1 S1 1 1\n\
    part 1/2,1/2,0 S2 1 2\nrep S2 dim 3\npart 0,0,1 S3 1 1\npart 1/2,1/2,0 S2 1 2\n\
    rep S3 dim 3\npart 0,0,1 S2 1 1\npart 1/2,1/2,0 S3 1 2\nrep S4 dim 3\n\
    part 0,0,1 S4 1 1\npart 1/2,1/2,0 S3 1 2\nrep S5 dim 3\npart 0,0,1 S5 1 1\n\
    part 1/2,1/2,0 S6 1 2\nrep S6 dim 3\npart 0,0,1 S7 1 1\npart 1/2,1/2,0 S6 1 2\n\
    rep S7 dim 3\npart 0,0,1 S6 1 1\npart 1/2,1/2,0 S7 1 2\nrep S8 dim 3\n\
    part 0,0,1 S8 1 1\npart 1/2,1/2,0 S7 1 2\nrep S9 dim 6\npart 0,0,1 S9 1 2\n\
    part 1/2,1/2,0 S1 1 2\npart 1/2,1/2,0 S4 1 2\nrep S10 dim 6\npart 0,0,1 S10 1 2\n\
    part 1/2,1/2,0 S5 1 2\npart 1/2,1/2,0 S8 1 2\nend\n";

#[test]
fn arms_that_go_to_two_stars(rt: HostRuntime) -> Result<(), Fail> {
    assert!(rt; is_restricted(rt.alloc(), CUBIC, TILTED, "1/2,1/2,0", 0, TWO_STARS)?);
    Ok(())
}

// The three arms at X are stars of their own in the group of the centrings and the inversion, which has the trace 0 there.
const DIAMOND_FACES: &str =
    "subduce 1\norder 24\nwave 0,1,0\nrep S1 dim 6\npart 0,0,1 S1 1 1\npart 0,0,1 S2 1 1\n\
    part 0,1,0 S1 1 1\npart 0,1,0 S2 1 1\npart 0,1,1 S1 1 1\npart 0,1,1 S2 1 1\n\
    rep S2 dim 6\npart 0,0,1 S1 1 1\npart 0,0,1 S2 1 1\npart 0,1,0 S1 1 1\n\
    part 0,1,0 S2 1 1\npart 0,1,1 S1 1 1\npart 0,1,1 S2 1 1\nrep S3 dim 6\n\
    part 0,0,1 S1 1 1\npart 0,0,1 S2 1 1\npart 0,1,0 S1 1 1\npart 0,1,0 S2 1 1\n\
    part 0,1,1 S1 1 1\npart 0,1,1 S2 1 1\nrep S4 dim 6\npart 0,0,1 S1 1 1\n\
    part 0,0,1 S2 1 1\npart 0,1,0 S1 1 1\npart 0,1,0 S2 1 1\npart 0,1,1 S1 1 1\n\
    part 0,1,1 S2 1 1\nend\n";

#[test]
fn faces_of_the_zone_of_diamond(rt: HostRuntime) -> Result<(), Fail> {
    let section = "basis 1 0 0 0 1 0 0 0 1\norigin 0 0 0\nx,y+1/2,z+1/2\nx+1/2,y,z+1/2\n-x,-y,-z\n";
    assert!(rt; is_restricted(rt.alloc(), DIAMOND, section, "0,1,0", 0, DIAMOND_FACES)?);
    Ok(())
}

// The screw axis's own group, and the translations of twice its period, where its square is no longer -1.
#[test]
fn screw_axis_and_twice_its_period(rt: HostRuntime) -> Result<(), Fail> {
    let own = "subduce 1\norder 4\nwave 0,1/2,0\n\
        rep S1 dim 1\npart 0,1/2,0 S1 1 1\nrep S2 dim 1\npart 0,1/2,0 S2 1 1\nend\n";
    let section = "basis 1 0 0 0 1 0 0 0 1\norigin 0 0 0\n-x,y+1/2,-z\n";
    assert!(rt; is_restricted(rt.alloc(), SCREW, section, "0,1/2,0", 0, own)?);
    let doubled = "subduce 1\norder 4\nwave 0,1/2,0\n\
        rep S1 dim 1\npart 0,0,0 S1 1 1\nrep S2 dim 1\npart 0,0,0 S1 1 1\nend\n";
    let section = "basis 1 0 0 0 2 0 0 0 1\norigin 0 0 0\n";
    assert!(rt; is_restricted(rt.alloc(), SCREW, section, "0,1/2,0", 0, doubled)?);
    Ok(())
}

// In the basis (b, c, a) the wave vector is that of another axis, and labels stay.
#[test]
fn axes_exchanged(rt: HostRuntime) -> Result<(), Fail> {
    let section = "basis 0 0 1 1 0 0 0 1 0\norigin 0 0 0\n-y,x,z\nz,x,y\n-x,-y,-z\n";
    let input = with_section(rt.alloc(), CUBIC, section)?;
    let (status, text) = at(rt.alloc(), "subduce", input.as_str(), "1/2,0,0")?;
    assert_eq!(rt; status, Status::Done);
    let parts = [
        "part 0,0,1/2 S1 1 3",
        "part 0,0,1/2 S2 1 3",
        "part 0,0,1/2 S3 1 3",
        "part 0,0,1/2 S4 1 3",
        "part 0,0,1/2 S5 1 3",
        "part 0,0,1/2 S6 1 3",
        "part 0,0,1/2 S7 1 3",
        "part 0,0,1/2 S8 1 3",
        "part 0,0,1/2 S9 1 6",
        "part 0,0,1/2 S10 1 6",
    ];
    assert!(rt; lines_are(&text, "part ", &parts, true));
    Ok(())
}

// Each of the 48 arms of a general wave vector is a part of the group of whole translations.
#[test]
fn arms_of_a_general_wave_vector(rt: HostRuntime) -> Result<(), Fail> {
    let section = "basis 1 0 0 0 1 0 0 0 1\norigin 0 0 0\n";
    let input = with_section(rt.alloc(), CUBIC, section)?;
    let (status, text) = at(rt.alloc(), "subduce", input.as_str(), "1/20,1/3,1/7")?;
    assert_eq!(rt; status, Status::Done);
    let head = "subduce 1\norder 5040\nwave 1/20,1/3,1/7\nrep S1 dim 48\n\
        part 1/20,1/7,1/3 S1 1 1\npart 1/20,1/7,2/3 S1 1 1\npart 1/20,1/3,1/7 S1 1 1\n";
    assert!(rt; text.starts_with(head.as_bytes()));
    assert!(rt; text.ends_with(b"part 19/20,6/7,2/3 S1 1 1\nend\n".as_slice()));
    assert!(rt; lines_are(&text, "part ", &["part "; 48], false));
    Ok(())
}

// A generator, a column of the basis, or the whole basis is refused at its line.
#[test]
fn sections_that_give_no_subgroup(rt: HostRuntime) -> Result<(), Fail> {
    let turn = "basis 1 0 0 0 1 0 0 0 1\norigin 0 0 0\n-x,y,-z\n";
    let line = "bad input line 5: not in group\n";
    assert!(rt; is_restricted(rt.alloc(), INVERSION, turn, "0,0,0", 3, line)?);
    let half = "basis 1/2 0 0 0 1 0 0 0 1\norigin 0 0 0\n-x,y,-z\n";
    let line = "bad input line 3: not in group\n";
    assert!(rt; is_restricted(rt.alloc(), INVERSION, half, "0,0,0", 3, line)?);
    let none = "basis 0 0 0 0 0 0 0 0 0\norigin 0 0 0\n-x,y,-z\n";
    let line = "bad input line 3: singular\n";
    assert!(rt; is_restricted(rt.alloc(), INVERSION, none, "0,0,0", 3, line)?);
    Ok(())
}

// A basis with a column of 0 is singular, though its other columns are no translations.
#[test]
fn singular_stands_before_not_in_group(rt: HostRuntime) -> Result<(), Fail> {
    let section = "basis 1/2 0 0 0 1/2 0 0 0 0\norigin 0 0 0\n-x,y,-z\n";
    let line = "bad input line 3: singular\n";
    assert!(rt; is_restricted(rt.alloc(), INVERSION, section, "0,0,0", 3, line)?);
    Ok(())
}

// Lines are counted with those that are skipped; the first generator outside is told, and the line is that of the basis, which
// need not follow `subgroup` at once.
#[test]
fn lines_of_sections(rt: HostRuntime) -> Result<(), Fail> {
    let section =
        "# cell\n\nbasis 1 0 0 0 1 0 0 0 1\n\norigin 0 0 0\n-x,-y,-z\n# axes\n-x,y,-z\nx,-y,z\n";
    let line = "bad input line 10: not in group\n";
    assert!(rt; is_restricted(rt.alloc(), INVERSION, section, "0,0,0", 3, line)?);
    let section = "# cell\n\nbasis 1/2 0 0 0 1 0 0 0 1\norigin 0 0 0\n";
    let line = "bad input line 5: not in group\n";
    assert!(rt; is_restricted(rt.alloc(), INVERSION, section, "0,0,0", 3, line)?);
    Ok(())
}

// A vector that differs by half a translation is outside, also where the rotation is inside.
#[test]
fn vectors_outside(rt: HostRuntime) -> Result<(), Fail> {
    let section = "basis 1 0 0 0 1 0 0 0 1\norigin 0 0 0\n-x+1/2,-y,-z\n";
    let line = "bad input line 5: not in group\n";
    assert!(rt; is_restricted(rt.alloc(), INVERSION, section, "0,0,0", 3, line)?);
    Ok(())
}

// `subduce` needs a section.
#[test]
fn sections_are_missing(rt: HostRuntime) -> Result<(), Fail> {
    assert!(rt;
        is_answered(
            rt.alloc(),
            INVERSION,
            "0,0,0",
            3,
            "bad input line 2: missing\n"
        )?
    );
    assert!(rt; is_answered(rt.alloc(), "", "0,0,0", 3, "bad input line 1: missing\n")?);
    assert!(rt;
        is_answered(
            rt.alloc(),
            "subgroup\n",
            "0,0,0",
            3,
            "bad input line 2: missing\n"
        )?
    );
    Ok(())
}

// The limits of the group come before the subgroup, and those of the subgroup before the order.
#[test]
fn refusals_come_in_order(rt: HostRuntime) -> Result<(), Fail> {
    let none = "basis 0 0 0 0 0 0 0 0 0\norigin 0 0 0\n";
    let line = "too large: centrings\n";
    assert!(rt; is_restricted(rt.alloc(), "x+1/33,y,z\n", none, "0,0,0", 4, line)?);
    let line = "bad input line 3: singular\n";
    assert!(rt; is_restricted(rt.alloc(), INVERSION, none, "1/12001,0,0", 3, line)?);
    let own = "basis 1 0 0 0 1 0 0 0 1\norigin 0 0 0\n-x,-y,-z\n";
    let line = "too large: order 24002\n";
    assert!(rt; is_restricted(rt.alloc(), INVERSION, own, "1/12001,0,0", 4, line)?);
    Ok(())
}

// A shear makes an entry of 10 of two operations with entries of at most 8; a great cell makes a great denominator; a cell of two makes 64
// centrings of the 32 of the group.
#[test]
fn limits_of_the_subgroup(rt: HostRuntime) -> Result<(), Fail> {
    let shear = "basis 1 0 0 -2 1 0 0 -2 1\norigin 0 0 0\nx,4x-y,8x-4y+z\n-2x+y,-3x+2y,-6x+6y-z\n";
    let line = "too large: rotations\n";
    assert!(rt; is_restricted(rt.alloc(), CUBIC, shear, "0,0,0", 4, line)?);
    let great = "basis 89 0 0 0 97 0 0 0 83\norigin 0 0 0\nx+1/89,y,z\nx,y+1/97,z\nx,y,z+1/83\n";
    let line = "too large: denominator\n";
    assert!(rt; is_restricted(rt.alloc(), "", great, "0,0,0", 4, line)?);
    let fine = "x+1/8,y,z\nx,y+1/4,z\n";
    let pair = "basis 2 0 0 0 1 0 0 0 1\norigin 0 0 0\nx+1/16,y,z\nx,y+1/4,z\n";
    let line = "too large: centrings\n";
    assert!(rt; is_restricted(rt.alloc(), fine, pair, "0,0,0", 4, line)?);
    Ok(())
}

// Other commands read the section and do not use it; a report may follow it.
#[test]
fn sections_that_are_not_used(rt: HostRuntime) -> Result<(), Fail> {
    let none = with_section(
        rt.alloc(),
        INVERSION,
        "basis 0 0 0 0 0 0 0 0 0\norigin 0 0 0\n",
    )?;
    let (status, _) = small_at(rt.alloc(), none.as_str(), "0,0,0")?;
    assert_eq!(rt; status, Status::Done);
    let own = with_section(
        rt.alloc(),
        SCREW,
        "basis 1 0 0 0 1 0 0 0 1\norigin 0 0 0\n-x,y+1/2,-z",
    )?;
    assert!(rt; is_accepted(rt.alloc(), own.as_str(), SCREW_REPORT.as_bytes())?);
    Ok(())
}
