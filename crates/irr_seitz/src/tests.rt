ghost use Rattle.std.specs.Prelude.{◌<◌};

use crate::{Op, Phase};
use irr_rat::Vec3;
use std::cmp::Ordering;

fn operation(rot: [[i16; 3]; 3], num: [i64; 3], den: u32) -> Op
    requires { 0 < den }
{
    let shift = Vec3::new(num, den);
    let num = shift.num;
    Op {
        rot,
        num,
        den: shift.den,
    }
}

const TWOFOLD: [[i16; 3]; 3] = [[-1, 0, 0], [0, 1, 0], [0, 0, -1]];

#[test]
fn the_screw_axis_in_its_cell(rt: HostRuntime) {
    let screw = operation(TWOFOLD, [0, 1, 0], 2);
    assert!(rt; screw.det() == 1);
    let back = operation(TWOFOLD, [2, -3, 0], 2);
    assert!(rt; back.reduce() == screw);
    assert!(rt; back.cmp(&screw) == Ordering::Greater);
    assert!(rt;
        screw.cmp(&operation([[1, 0, 0], [0, 1, 0], [0, 0, 1]], [0, 0, 0], 1)) == Ordering::Less
    );
}

#[test]
fn determinants_of_generators(rt: HostRuntime) {
    assert!(rt; operation([[0, 0, 1], [1, 0, 0], [0, 1, 0]], [0, 0, 0], 1).det() == 1);
    assert!(rt; operation([[-1, 0, 0], [0, -1, 0], [0, 0, -1]], [0, 0, 0], 1).det() == -1);
    assert!(rt; Phase::Minus != Phase::Plus);
}
