// Sites in P-1, P2_1 and Pm-3m.
use super::*;

// What `site` at a point and a wave vector writes on this input, and its status.
fn site_at(alloc: Global, input: &str, point: &str, wave: &str) -> Result<(Status, Vec<u8>), Fail> {
    let bytes = Vec::from_slice(alloc, input.as_bytes())?;
    ran(
        alloc,
        &["site", point, wave],
        bytes,
        Vec::new(alloc),
        1 << 20,
    )
}

// The displacements of an atom at the centre are odd.
const CENTRE: &str = "site 1\norder 2\nwave 0,0,0\npoint 0,0,0\nops 2\nop 1 x,y,z\nop 2 -x,-y,-z\n\
    sites 1\nsite 1 0,0,0\nreps 2\nrep T1 dim 1\npart S1 1 1\nrep T2 dim 1\npart S2 1 1\n\
    displace dim 3\npart S2 3 1\nend\n";

// The screw exchanges two sites, and its square is -1.
const SCREW_SITES: &str = "site 1\norder 4\nwave 0,1/2,0\npoint 1/8,0,0\nops 1\nop 1 x,y,z\n\
    sites 2\nsite 1 1/8,0,0\nsite 2 7/8,1/2,0\nreps 1\nrep T1 dim 2\npart S1 1 1\npart S2 1 1\n\
    displace dim 6\npart S1 3 1\npart S2 3 1\nend\n";

#[test]
fn sites_are_written_whole(rt: HostRuntime) -> Result<(), Fail> {
    for (input, point, wave, expected) in [
        (INVERSION, "0,0,0", "0,0,0", CENTRE),
        (SCREW, "1/8,0,0", "0,1/2,0", SCREW_SITES),
    ] {
        let (status, text) = site_at(rt.alloc(), input, point, wave)?;
        assert_eq!(rt; status, Status::Done, "at {point}");
        assert_eq!(rt; text.as_slice(), expected.as_bytes(), "at {point}");
    }
    Ok(())
}

// The middle of an edge of the cubic cell: two polar modes and one other of three dimensions.
#[test]
fn sites_of_an_edge(rt: HostRuntime) -> Result<(), Fail> {
    let (status, text) = site_at(rt.alloc(), CUBIC, "1/2,0,0", "0,0,0")?;
    let sites = [
        "site 1",
        "site 1 1/2,0,0",
        "site 2 0,1/2,0",
        "site 3 0,0,1/2",
    ];
    assert_eq!(rt; status, Status::Done);
    assert!(rt; lines_are(&text, "order ", &["order 12"], true));
    assert!(rt; lines_are(&text, "ops ", &["ops 16"], true));
    assert!(rt; lines_are(&text, "site ", &sites, true));
    assert!(rt; lines_are(&text, "displace ", &["displace dim 9"], true));
    assert!(rt; lines_are(&text, "part S10 2 ", &["part S10 2 3"], true));
    Ok(())
}

#[test]
fn orders_of_sites_are_refused(rt: HostRuntime) -> Result<(), Fail> {
    let (status, text) = site_at(rt.alloc(), "", "1/8,0,0", "1/12001,0,0")?;
    assert_eq!(rt; status.code(), 4);
    assert_eq!(rt; text.as_slice(), b"too large: order 12001\n".as_slice());
    Ok(())
}
