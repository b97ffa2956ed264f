use crate::{TripletError, print_triplet, printed_triplets_are_read, read_triplet};
use irr_rat::Vec3;
use irr_seitz::Op;
use std::test::Fail;

// Operations of worked inputs, and their printed forms.
fn operations() -> [(Op, &'static str); 4] {
    [
        (
            operation([[0, -1, 0], [1, 0, 0], [0, 0, 1]], [0, 0, 1]),
            "-y,x,z+1/4",
        ),
        (
            operation([[0, 1, 0], [1, 0, 0], [0, 0, -1]], [3, 1, 2]),
            "y+3/4,x+1/4,-z+1/2",
        ),
        (
            operation([[-1, 1, 0], [-1, 0, 0], [0, 0, 1]], [0, 0, 0]),
            "-x+y,-x,z",
        ),
        (
            operation([[1, 0, 0], [0, -1, 0], [0, 0, -1]], [2, 2, 0]),
            "x+1/2,-y+1/2,-z",
        ),
    ]
}

// A rotation, and a vector in quarters.
fn operation(rot: [[i16; 3]; 3], quarters: [i64; 3]) -> Op {
    let shift = Vec3::new(quarters, 4);
    let num = shift.num;
    Op {
        rot,
        num,
        den: shift.den,
    }
}

#[test]
fn operations_print_as_triplets(rt: HostRuntime) -> Result<(), Fail> {
    for (op, text) in operations() {
        let printed = print_triplet(rt.alloc(), &op)?;
        assert_eq!(rt; printed.as_slice(), text.as_bytes(), "at {text}");
    }
    Ok(())
}

#[test]
fn triplets_are_read_as_they_are_written(rt: HostRuntime) {
    printed_triplets_are_read();
    for (op, text) in operations() {
        assert!(rt; read_triplet(text.as_bytes()) == Ok(op), "at {text}");
    }
    let unit = [[1, 0, 0], [0, 1, 0], [0, 0, 1]];
    for (text, rot, quarters) in [
        (
            "' 1/2-X , +y, Z+1/2 '",
            [[-1, 0, 0], [0, 1, 0], [0, 0, 1]],
            [2, 0, 2],
        ),
        (
            "\"\t-Y , X ,001 / 4+z\"\t",
            [[0, -1, 0], [1, 0, 0], [0, 0, 1]],
            [0, 0, 1],
        ),
        ("1 x,y,z", unit, [0, 0, 0]),
        (
            "1 -x,-y,-z",
            [[-1, 0, 0], [0, -1, 0], [0, 0, -1]],
            [4, 0, 0],
        ),
        (
            "0x+y,x-0/7,-1z",
            [[0, 1, 0], [1, 0, 0], [0, 0, -1]],
            [0, 0, 0],
        ),
        ("8y+9x,x+y,z", [[9, 8, 0], [1, 1, 0], [0, 0, 1]], [0, 0, 0]),
        ("x-100000,y,z", unit, [-400_000, 0, 0]),
        ("+x,y+x,z", [[1, 0, 0], [1, 1, 0], [0, 0, 1]], [0, 0, 0]),
        ("x+1/1,y+0,z+2/4", unit, [4, 0, 2]),
    ] {
        assert!(rt;
            read_triplet(text.as_bytes()) == Ok(operation(rot, quarters)),
            "at {text}"
        );
    }
}

// 50,000/100,000 and 1/3 have the common denominator 6.
#[test]
fn the_common_denominator_is_that_of_lowest_terms(rt: HostRuntime) {
    let shift = Vec3::new([3, 2, 0], 6);
    let num = shift.num;
    let op = Op {
        rot: [[1, 0, 0], [0, 1, 0], [0, 0, 1]],
        num,
        den: shift.den,
    };
    assert!(rt; read_triplet(b"x+50000/100000,y+1/3,z") == Ok(op));
}

// 1,000 and 1,001 have no common divisor.
#[test]
fn texts_that_write_no_operation_have_a_first_fault(rt: HostRuntime) {
    for (text, error) in [
        ("", TripletError::Shape(0)),
        ("w,y,z", TripletError::Shape(0)),
        ("-+x,y,z", TripletError::Shape(1)),
        ("x/2,y,z", TripletError::Shape(1)),
        ("1 2,y,z", TripletError::Shape(2)),
        ("X+x,y,z", TripletError::Shape(2)),
        ("1+2,y,z", TripletError::Shape(3)),
        ("x,y", TripletError::Shape(3)),
        ("x,y,z,", TripletError::Shape(5)),
        ("x,y,z'", TripletError::Shape(5)),
        ("'x,y,z", TripletError::Shape(6)),
        ("'x,y,z\"", TripletError::Shape(6)),
        ("1/0,y,z'", TripletError::Shape(7)),
        ("1/0+x,y,z", TripletError::Zero(2)),
        ("'\t1/0,y,z'", TripletError::Zero(4)),
        ("x,y+1/0,z+1/0", TripletError::Zero(6)),
        ("x,y+1/ 00,z", TripletError::Zero(7)),
        ("10x,y+1/0,z", TripletError::Zero(8)),
        ("x,y,z-1/0", TripletError::Zero(8)),
        ("x+100001/0,y,z", TripletError::Zero(9)),
        ("10x,y,z", TripletError::Range(0)),
        ("x+100001,y,z", TripletError::Range(2)),
        ("x,y+1/100001,z", TripletError::Range(6)),
        ("x,y,z-10 X", TripletError::Range(6)),
        ("x+1/1000,y+1/1001,z", TripletError::Range(19)),
        ("x,x,z", TripletError::Determinant),
        ("2x,y,z", TripletError::Determinant),
        ("0,y,z", TripletError::Determinant),
        ("x+y,y-x,z", TripletError::Determinant),
        ("0,0,0", TripletError::Determinant),
    ] {
        assert!(rt; read_triplet(text.as_bytes()) == Err(error), "at {text}");
    }
}
