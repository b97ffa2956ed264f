use crate::{made_wave, make, one_made_input};
use irr_kvec::Wave;
use std::test::Fail;

// What is told of a made input: how its text begins and ends, its length, and its check sum.
#[derive(Drop)]
struct Told {
    begin: &'static [u8],
    end: &'static [u8],
    len: usize,
    sum: u32,
    wave: ([i64; 3], u32),
}

// The sum of bytes times powers of 31, modulo 2^32.
fn check_sum(text: &[u8]) -> u32 {
    let mut sum = 0u32;
    for byte in text {
        sum = sum.wrapping_mul(31).wrapping_add(u32::from(*byte));
    }
    sum
}

fn parts(wave: &Wave) -> ([i64; 3], u32) {
    let num = wave.num;
    (num, wave.den)
}

fn is_as_told(rt: HostRuntime, n: u32, told: &Told) -> Result<bool, Fail> {
    let made = make(rt.alloc(), n)?;
    if !made.text.starts_with(told.begin) {
        return Ok(false);
    }
    if !made.text.ends_with(told.end) {
        return Ok(false);
    }
    if made.text.len() != told.len {
        return Ok(false);
    }
    if check_sum(&made.text) != told.sum {
        return Ok(false);
    }
    Ok(parts(&made.wave) == told.wave)
}

#[test]
fn input_of_0(rt: HostRuntime) -> Result<(), Fail> {
    one_made_input();
    let told = Told {
        begin: b"x+1/2,-y+1/2,-z\n-x,y+1/2,-z+1/2\nx,y,z\nx,y,z\nx,y,z\n-x+1/2,-y,z+1/2\n",
        end: b"\n-x+1/2,-y,z+1/2\n",
        len: 26_802,
        sum: 1_823_795_486,
        wave: ([0, 0, 0], 1),
    };
    assert!(rt; is_as_told(rt, 0, &told)?);
    Ok(())
}

#[test]
fn input_of_5(rt: HostRuntime) -> Result<(), Fail> {
    let told = Told {
        begin: b"x+1/2,y+1/2,z+1/2\n-x+1/2,-y,z+1/2\n-x,y+1/2,-z+1/2\nz,x,y\nz+1/2,-x+1/2,-y\n",
        end: b"\n-z+1/2,-x,y+1/2\n",
        len: 27_250,
        sum: 1_607_587_773,
        wave: ([1, 1, 1], 2),
    };
    assert!(rt; is_as_told(rt, 5, &told)?);
    Ok(())
}

#[test]
fn input_of_7(rt: HostRuntime) -> Result<(), Fail> {
    let told = Told {
        begin: b"x,y+1/2,z+1/2\nx+1/2,y,z+1/2\n-x+3/4,-y+1/4,z+1/2\n-x+1/4,y+1/2,-z+3/4\nz,x,y\ny+3/4,x+1/4,-z+1/2\n-x,-y,-z\nx,y,z\nz+1/2,-x+3/4,-y+1/4\n",
        end: b"\n-y+1/4,-z+3/4,x+1/2\n",
        len: 33_021,
        sum: 3_863_108_192,
        wave: ([0, 1, 0], 1),
    };
    assert!(rt; is_as_told(rt, 7, &told)?);
    Ok(())
}

#[test]
fn input_of_10(rt: HostRuntime) -> Result<(), Fail> {
    let told = Told {
        begin: b"-y,x,z\nz,x,y\n-x,-y,-z\n-z,-x,-y\n-z,-x,-y\nz,x,y\nz,x,y\n",
        end: b"\nz,-x,y\n",
        len: 15_028,
        sum: 3_882_537_005,
        wave: ([1, 0, 0], 20),
    };
    assert!(rt; is_as_told(rt, 10, &told)?);
    Ok(())
}

#[test]
fn input_of_the_greatest_number(rt: HostRuntime) -> Result<(), Fail> {
    let told = Told {
        begin: b"x,y+1/2,z+1/2\nx+1/2,y,z+1/2\n-x+3/4,-y+1/4,z+1/2\n-x+1/4,y+1/2,-z+3/4\nz,x,y\ny+3/4,x+1/4,-z+1/2\n-x,-y,-z\n-z,-x,-y\nx,y,z\n",
        end: b"\ny+3/4,-x+1/2,z+1/4\n",
        len: 33_079,
        sum: 3_175_233_463,
        wave: ([0, 0, 0], 1),
    };
    assert!(rt; is_as_told(rt, 4_294_967_295, &told)?);
    Ok(())
}

#[test]
fn wave_vectors_of_the_table(rt: HostRuntime) {
    for (n, num, den) in [
        (0, [0, 0, 0], 1),
        (1, [0, 0, 0], 1),
        (2, [0, 0, 0], 1),
        (3, [0, 0, 0], 1),
        (4, [1, 1, 1], 2),
        (5, [1, 1, 1], 2),
        (6, [1, 1, 0], 2),
        (7, [0, 1, 0], 1),
        (8, [1, 0, 0], 20),
        (9, [1, 0, 0], 10),
        (10, [1, 0, 0], 20),
        (11, [1, 0, 0], 10),
        (12, [0, 0, 0], 1),
    ] {
        assert!(rt; parts(&made_wave(n)) == (num, den), "at {n}");
    }
}
