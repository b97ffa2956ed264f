// The characters do not depend on the type of the numbers: those of `small` are the same with all coefficients and with
// the terms alone.
ghost use Rattle.std.specs.Prelude.{IfSome};
ghost use Rattle.std.specs.List.{All};
ghost use Rattle.irr_seitz.specs.OperationMeaning.{operation};
ghost use Rattle.irr_triplet.specs.Readable.{IsReadable};
ghost use Rattle.irr_top.specs.GroupOf.{IsGroupOf};

use super::{BODY_CENTRED, CUBIC, DIAMOND};
use crate::answer::operations;
use crate::small::small_text;
use irr_close::{Group, close};
use irr_cyc::{Dense, Lift};
use irr_input::{GenLine, read_input};
use irr_kvec::read_wave;
use irr_lines::next_line;
use irr_seitz::{Op, Phase};
use irr_sparse::Sparse;
use std::alloc::Global;
use std::test::Fail;

// The operations on these lines; none where there is no memory.
fn listed(alloc: Global, lines: &[GenLine]) -> Option<Vec<Op>>
    requires readable { All (λ g. IsReadable (operation g.op)) lines.now }
    ensures { IfSome result (λ ops. All (λ g. IsReadable (operation g)) ops.items) }
{
    match operations(alloc, lines) {
        Ok(ops) => Some(ops),
        Err(_error) => None,
    }
}

// The generators of an input, read with numbers of this type; none where it is refused.
fn generators<S: Lift>(alloc: Global, input: &[u8]) -> Option<Vec<Op>>
    ensures { IfSome result (λ ops. All (λ g. IsReadable (operation g)) ops.items) }
{
    match read_input::<S>(alloc, input) {
        Ok(read) => listed(alloc, &read.gens),
        Err(_error) => None,
    }
}

// The group that these generate; none where they are refused.
fn closed(alloc: Global, gens: &[Op]) -> Option<Group>
    requires readable { All (λ g. IsReadable (operation g)) gens.now }
    ensures { IfSome result (λ group. IsGroupOf group gens.now) }
{
    match close(alloc, gens, Phase::Minus) {
        Ok(group) => Some(group),
        Err(_error) => None,
    }
}

// The lines of a text that begin with `char`.
fn char_lines(alloc: Global, text: &[u8]) -> Result<Vec<u8>, Fail> {
    let mut chars = Vec::new(alloc);
    let mut rest = text;
    while !rest.is_empty() {
        let (line, behind) = next_line(rest);
        if line.starts_with(b"char ".as_slice()) {
            chars.extend_from_slice(line)?;
            chars.push(b'\n')?;
        }
        rest = behind;
    }
    Ok(chars)
}

// The lines of `small` at a wave vector that begin with `char`, made with numbers of this type; empty where there is no
// report.
fn characters<S: Lift>(alloc: Global, input: &str, wave: &str) -> Result<Vec<u8>, Fail> {
    let Some(gens) = generators::<S>(alloc, input.as_bytes()) else {
        return Ok(Vec::new(alloc));
    };
    let Some(group) = closed(alloc, &gens) else {
        return Ok(Vec::new(alloc));
    };
    let Ok(k) = read_wave(wave.as_bytes(), 100_000) else {
        return Ok(Vec::new(alloc));
    };
    let Ok(text) = small_text::<S>(alloc, &group, &k) else {
        return Ok(Vec::new(alloc));
    };
    char_lines(alloc, &text)
}

// Whether `small` on this input, at this wave vector, has characters, the same with both types of numbers.
fn are_same(alloc: Global, input: &str, wave: &str) -> Result<bool, Fail> {
    let dense = characters::<Dense>(alloc, input, wave)?;
    let sparse = characters::<Sparse>(alloc, input, wave)?;
    if dense.is_empty() {
        return Ok(false);
    }
    Ok(dense.as_slice() == sparse.as_slice())
}

#[test]
fn two_types_of_numbers_give_the_same_characters(rt: HostRuntime) -> Result<(), Fail> {
    assert!(rt; are_same(rt.alloc(), BODY_CENTRED, "1/2,1/2,1/2")?);
    assert!(rt; are_same(rt.alloc(), CUBIC, "0,0,0")?);
    assert!(rt; are_same(rt.alloc(), DIAMOND, "0,1,0")?);
    assert!(rt; are_same(rt.alloc(), CUBIC, "1/20,0,0")?);
    Ok(())
}
