// Summaries of made inputs.
use super::*;
use irr_gen::make;

// What `gen` writes for a number, and its status. Each read of the source fails.
fn made(alloc: Global, number: &str) -> Result<(Status, Vec<u8>), Fail> {
    let fails = vec![in alloc; 0]?;
    ran(alloc, &["gen", number], Vec::new(alloc), fails, 1 << 20)
}

#[test]
fn made_inputs_are_summed_up_and_the_source_is_not_read(rt: HostRuntime) -> Result<(), Fail> {
    for (number, summary) in [
        (
            "0",
            "gen 1\nnumber 0\nlines 2002\nwave 0,0,0\norder 2\nops 4\nreps 4\ndims 1 1 1 1\nend\n",
        ),
        (
            "5",
            "gen 1\nnumber 5\nlines 2004\nwave 1/2,1/2,1/2\norder 24\nops 12\nreps 3\ndims 2 2 2\nend\n",
        ),
        (
            "7",
            "gen 1\nnumber 7\nlines 2007\nwave 0,1,0\norder 24\nops 16\nreps 4\ndims 2 2 2 2\nend\n",
        ),
        (
            "007",
            "gen 1\nnumber 7\nlines 2007\nwave 0,1,0\norder 24\nops 16\nreps 4\ndims 2 2 2 2\nend\n",
        ),
        (
            "10",
            "gen 1\nnumber 10\nlines 2003\nwave 1/20,0,0\norder 240\nops 8\nreps 5\ndims 1 1 1 1 2\nend\n",
        ),
    ] {
        let (status, text) = made(rt.alloc(), number)?;
        assert_eq!(rt; status, Status::Done, "at {number}");
        assert_eq!(rt; text.as_slice(), summary.as_bytes(), "at {number}");
    }
    Ok(())
}

#[test]
fn the_made_input_of_seven_is_diamond(rt: HostRuntime) -> Result<(), Fail> {
    let made = make(rt.alloc(), 7)?;
    let input = Vec::from_slice(rt.alloc(), &made.text)?;
    let fails = Vec::new(rt.alloc());
    let (status, text) = ran(rt.alloc(), &["small", "0,1,0"], input, fails, 1 << 20)?;
    assert_eq!(rt; status, Status::Done);
    assert!(rt; lines_are(&text, "wave", &["wave 0,1,0"], true));
    assert!(rt; lines_are(&text, "order", &["order 24"], true));
    assert!(rt; lines_are(&text, "ops", &["ops 16"], true));
    let dimensions = [
        "rep S1 dim 2",
        "rep S2 dim 2",
        "rep S3 dim 2",
        "rep S4 dim 2",
    ];
    assert!(rt; lines_are(&text, "rep ", &dimensions, true));
    Ok(())
}
