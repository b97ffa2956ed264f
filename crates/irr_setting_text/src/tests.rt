use crate::{Basis, SettingError, read_basis, read_origin, setting_lines_mean_one};

fn origin_of(text: &str) -> Result<([i64; 3], u32), SettingError> {
    let vector = read_origin(text.as_bytes())?;
    let num = vector.num;
    Ok((num, vector.den))
}

// Primitive cells of centred lattices among them (International Tables A, section 1.5.1).
#[test]
fn bases_are_read_row_by_row(rt: HostRuntime) {
    setting_lines_mean_one();
    for (text, num, den) in [
        (
            "basis 1 2 3 4 5 6 7 8 9",
            [[1, 2, 3], [4, 5, 6], [7, 8, 9]],
            1,
        ),
        (
            " \tbasis\t1/2 1/2 0 -1/2  1/2 0 0 0 1",
            [[1, 1, 0], [-1, 1, 0], [0, 0, 2]],
            2,
        ),
        (
            "basis 2/3 -1/3 -1/3 1/3 1/3 -2/3 1/3 1/3 1/3\t ",
            [[2, -1, -1], [1, 1, -2], [1, 1, 1]],
            3,
        ),
        (
            "basis -0 2/4 50/100 +1 0 0 0 0 007",
            [[0, 1, 1], [2, 0, 0], [0, 0, 14]],
            2,
        ),
        (
            "basis 33/99 1/2 0 0 1 0 0 0 1",
            [[2, 3, 0], [0, 6, 0], [0, 0, 6]],
            6,
        ),
        (
            "basis 1/4 1/25 0 0 -100 0 0 0 100",
            [[25, 4, 0], [0, -10000, 0], [0, 0, 10000]],
            100,
        ),
    ] {
        assert!(rt;
            read_basis(text.as_bytes()) == Ok(Basis { num, den }),
            "{text}"
        );
    }
}

// 99 and 98 have no common divisor.
#[test]
fn lines_that_write_no_basis_have_a_first_fault(rt: HostRuntime) {
    for (text, error) in [
        ("", SettingError::Shape(0)),
        ("  ", SettingError::Shape(2)),
        ("base 1", SettingError::Shape(3)),
        ("Basis", SettingError::Shape(0)),
        ("basis", SettingError::Shape(5)),
        ("basis,1", SettingError::Shape(5)),
        ("basis1 0 0 0 1 0 0 0 1", SettingError::Shape(5)),
        ("basis 1 0 0 0 1 0 0 0", SettingError::Shape(21)),
        ("basis 1 0 0 0 1 0 0 0 ", SettingError::Shape(22)),
        ("basis 1 0 0 0 1 0 0 0 1 0", SettingError::Shape(24)),
        ("basis 1 /2 0 0 0 1 0 0 0 1", SettingError::Shape(8)),
        ("basis 1/ 2 0 0 0 1 0 0 0 1", SettingError::Shape(8)),
        ("basis 1-1 0 0 0 1 0 0 0 1", SettingError::Shape(7)),
        ("basis +-1", SettingError::Shape(7)),
        ("basis - 1", SettingError::Shape(7)),
        ("basis 1/0 101 x", SettingError::Shape(14)),
        ("basis 1/0 0 0 0 1 0 0 0 1", SettingError::Zero(8)),
        ("basis 101 1/00 0 0 1 0 0 0 1/0", SettingError::Zero(12)),
        ("basis 101 0 0 0 101 0 0 0 1", SettingError::Range(6)),
        ("basis 1 1/101 101 0 1 0 0 0 1", SettingError::Range(10)),
        (" basis 1/99 1/98 0 0 1 0 0 0 1 ", SettingError::Range(31)),
        ("basis 1/99 0 0 0 1/2 0 0 0 1", SettingError::Range(28)),
        ("basis 1/99 0 0 0 1 0 0 0 50/100", SettingError::Range(31)),
    ] {
        assert!(rt; read_basis(text.as_bytes()) == Err(error), "{text}");
    }
}

#[test]
fn origins_are_read(rt: HostRuntime) {
    for (text, num, den) in [
        ("origin 0 0 0", [0, 0, 0], 1),
        ("\torigin 1/4 -1/3  1000 ", [3, -4, 12000], 12),
        ("origin 101 1/1000 -0", [101000, 1, 0], 1000),
        ("origin 1/8 0 +1/125", [125, 0, 8], 1000),
    ] {
        assert!(rt; origin_of(text) == Ok((num, den)), "{text}");
    }
}

#[test]
fn lines_that_write_no_origin_have_a_first_fault(rt: HostRuntime) {
    for (text, error) in [
        ("origins 0 0 0", SettingError::Shape(6)),
        ("origin 0 0", SettingError::Shape(10)),
        ("origin 0 0 0 0", SettingError::Shape(13)),
        ("origin 0 0 1/0", SettingError::Zero(13)),
        ("origin 1001 0 0", SettingError::Range(7)),
        ("origin 0 1/1001 0", SettingError::Range(11)),
        ("origin 1/1000 1/999 0", SettingError::Range(21)),
    ] {
        assert!(rt; origin_of(text) == Err(error), "{text}");
    }
}
