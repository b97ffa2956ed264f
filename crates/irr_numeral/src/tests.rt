use crate::read::read_terms;
use crate::{
    NumberError, print_number, printed_numbers_are_read, read_measured, read_number,
    texts_read_in_one_way,
};
use irr_cyc::{Dense, ORDER_LIMIT, Order, Scalar};
use std::alloc::Global;
use std::test::Fail;

// Sums of powers of z in the basis: of order 3, z^2 is -1 - z, of order 6 z is -z^4, of order 12 z^2 is 1 + z^4.
#[test]
fn numbers_print_in_the_basis(rt: HostRuntime) -> Result<(), Fail> {
    let rows: [(u32, u64, u32, i64, &str); 8] = [
        (3, 1, 2, 1, "-1-1*z^1"),
        (6, 1, 1, 1, "-1*z^4"),
        (6, 1, 5, 1, "1+1*z^4"),
        (12, 1, 2, 1, "1+1*z^4"),
        (4, 4, 3, 2, "-1/2*z^1"),
        (1, 1, 0, 16_777_217, "16777217"),
        (3, 1, 1, 0, "0"),
        (3, 1, 1, 1, "1*z^1"),
    ];
    for (n, den, exponent, coefficient, text) in rows {
        assert!(rt; 0 < n && n <= ORDER_LIMIT && exponent < n && 0 < den && den <= 4);
        assert!(rt; -20_000_000 < coefficient && coefficient < 20_000_000);
        let order = Order::new(rt.alloc(), n)?;
        let number = Dense::from_terms(rt.alloc(), &order, den, &[(exponent, coefficient)])?;
        let printed = print_number(rt.alloc(), &number)?;
        assert!(rt; printed.as_slice() == text.as_bytes(), "{text}");
    }
    Ok(())
}

#[test]
fn texts_leave_the_grammar_at_one_place(rt: HostRuntime) {
    for (text, error) in [
        ("", NumberError::Shape(0)),
        ("z", NumberError::Shape(0)),
        ("01", NumberError::Shape(1)),
        ("1*z^1+1", NumberError::Shape(7)),
        ("1*z^2+1*z^1", NumberError::Shape(10)),
        ("1*z^10-1*z^9/0", NumberError::Shape(12)),
        ("1*z^3", NumberError::Range(4)),
        ("1073741825", NumberError::Range(0)),
        ("1073741824/4097", NumberError::Range(11)),
        ("1/0", NumberError::Zero(2)),
        ("-1/2+3/0*z^1-1/0*z^2", NumberError::Zero(7)),
    ] {
        let read = read_terms(rt.alloc(), 3, text.as_bytes());
        assert!(rt; read.err() == Some(error), "{text}");
    }
    for (text, count) in [("0", 0), ("-1/2-3*z^2", 2), ("1073741824/4096*z^1", 1)] {
        let read = read_terms(rt.alloc(), 3, text.as_bytes());
        assert!(rt; read.ok().map(|terms| terms.len()) == Some(count), "{text}");
    }
}

// Of order 3, 1 + z + z^2 is 0; of order 6, z and z^5 are -z^4 and 1 + z^4, whose sum is 1; of order 4, z^3 is -z.
#[test]
fn numbers_are_read_and_printed_in_the_basis(rt: HostRuntime) -> Result<(), Fail> {
    texts_read_in_one_way();
    printed_numbers_are_read();
    let rows: [(u32, &str, &str); 12] = [
        (3, "1*z^2", "-1-1*z^1"),
        (3, "1+1*z^1+1*z^2", "0"),
        (6, "1*z^1", "-1*z^4"),
        (6, "1*z^5", "1+1*z^4"),
        (6, "1*z^1+1*z^5", "1"),
        (12, "1*z^2", "1+1*z^4"),
        (4, "2/4*z^3", "-1/2*z^1"),
        (4, "-2/4*z^3", "1/2*z^1"),
        (1, "16777217", "16777217"),
        (1, "1073741824", "1073741824"),
        (1, "1/4096", "1/4096"),
        (5, "0", "0"),
    ];
    for (n, text, printed) in rows {
        assert!(rt; 0 < n && n <= ORDER_LIMIT);
        let order = Order::new(rt.alloc(), n)?;
        let number: Dense = match read_number(rt.alloc(), &order, text.as_bytes()) {
            Ok(number) => number,
            Err(_) => return Err(Fail::new("no number")),
        };
        let again = print_number(rt.alloc(), &number)?;
        assert!(rt; again.as_slice() == printed.as_bytes(), "{text}");
    }
    Ok(())
}

// 4,096 and 4,095 have no common divisor; 2/4 counts 4, and 4 times 1,025 is 4,100; 1 and 536870912 * 4,096 are over 4,096.
#[test]
fn texts_that_pass_the_limits_together_are_refused(rt: HostRuntime) -> Result<(), Fail> {
    let order = Order::new(rt.alloc(), 12)?;
    for (text, error) in [
        ("1/4096+1/4095*z^1", NumberError::Range(17)),
        ("2/4+1/1025*z^1", NumberError::Range(14)),
        ("1073741824+1*z^1", NumberError::Range(16)),
        ("1/4096+536870912*z^1", NumberError::Range(20)),
        ("1/2+1/0*z^12", NumberError::Zero(6)),
        ("1*z^12", NumberError::Range(4)),
        ("1*z^2+1*z^1", NumberError::Shape(10)),
    ] {
        let read: Result<Dense, NumberError> = read_number(rt.alloc(), &order, text.as_bytes());
        assert!(rt; read.err() == Some(error), "{text}");
    }
    Ok(())
}

// 1/2 and 1/3 are 3 and 2 over 6; 2/4 is not brought to lowest terms.
#[test]
fn coefficients_are_measured_as_they_are_written(rt: HostRuntime) -> Result<(), Fail> {
    let order = Order::new(rt.alloc(), 12)?;
    for (text, denominator, size) in [
        ("1/2+1/3*z^1", 6, 5),
        ("2/4", 4, 2),
        ("-2/4*z^3", 4, 2),
        ("0", 1, 0),
        ("1073741824", 1, 1_073_741_824),
    ] {
        let Ok(measured) = read_measured::<Dense>(rt.alloc(), &order, text.as_bytes()) else {
            return Err(Fail::new("no number"));
        };
        assert!(rt;
            measured.denominator == denominator && measured.size == size,
            "{text}"
        );
    }
    Ok(())
}

// The product of the numbers that two texts write.
fn product(alloc: Global, order: &Order, a: &str, b: &str) -> Result<Dense, NumberError> {
    let x: Dense = read_number(alloc, order, a.as_bytes())?;
    let y: Dense = read_number(alloc, order, b.as_bytes())?;
    let product = x.mul(alloc, &y)?;
    Ok(product)
}

// Of order 6, z times z^5 is 1; of order 4, z is a root of -1.
#[test]
fn numbers_that_are_read_multiply(rt: HostRuntime) -> Result<(), Fail> {
    let rows: [(u32, &str, &str, &str); 3] = [
        (6, "1*z^1", "1*z^5", "1"),
        (4, "1/2*z^1", "2*z^1", "-1"),
        (3, "1*z^1", "-1-1*z^1", "1"),
    ];
    for (n, a, b, text) in rows {
        assert!(rt; 0 < n && n <= ORDER_LIMIT);
        let order = Order::new(rt.alloc(), n)?;
        let Ok(number) = product(rt.alloc(), &order, a, b) else {
            return Err(Fail::new("no number"));
        };
        let printed = print_number(rt.alloc(), &number)?;
        assert!(rt; printed.as_slice() == text.as_bytes(), "{a} times {b}");
    }
    Ok(())
}
