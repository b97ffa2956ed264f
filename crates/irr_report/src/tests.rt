ghost use Rattle.std.specs.Prelude.{◌≡◌, ◌<◌, All, IsTrue, ◌↔◌, length};
ghost use Rattle.irr_mat.specs.Entries.{first_order};
ghost use Rattle.irr_report.specs.Content.{FitsTogether, HasPlaces};

use crate::values::{Scale, ValuesError, read_values};
use crate::{
    Memory, RepText, Report, ReportError, print_report, printed_reports_have_lines, read_report,
};
use irr_cyc::{Dense, Order, Scalar};
use irr_kvec::Wave;
use irr_mat::Mat;
use irr_rat::Vec3;
use irr_rep::Family;
use irr_seitz::Op;
use std::alloc::Global;
use std::test::Fail;

fn have_order<S: Scalar>(chars: &[S], order: u32) -> bool
    ensures { IsTrue result ↔ All (λ x. S.order_of x ≡ order) chars.now }
{
    chars.iter().all(|x| x.order() == order)
}

fn have_rows<S: Scalar>(mats: &[Mat<S>], dim: u32) -> bool
    ensures { IsTrue result ↔ All (λ m. m.rows ≡ dim) mats.now }
{
    mats.iter().all(|m| m.rows() == dim)
}

fn have_cols<S: Scalar>(mats: &[Mat<S>], dim: u32) -> bool
    ensures { IsTrue result ↔ All (λ m. m.cols ≡ dim) mats.now }
{
    mats.iter().all(|m| m.cols() == dim)
}

fn order_of<S: Scalar>(m: &Mat<S>) -> u32
    ensures { result ≡ first_order S.order_of m.now.entries.items }
{
    m.at(0, 0).order()
}

fn have_orders<S: Scalar>(mats: &[Mat<S>], order: u32) -> bool
    ensures { IsTrue result ↔ All (λ m. first_order S.order_of m.entries.items ≡ order) mats.now }
{
    mats.iter().all(|m| order_of(m) == order)
}

// Whether a representation has characters and matrices of an order for so many operations.
fn has_places<S: Scalar>(t: &RepText<S>, order: u32, places: usize) -> bool
    ensures { IsTrue result → HasPlaces order places t.now }
{
    if t.chars.len() != places || t.family.mats.len() != places || t.family.dim == 0 {
        return false;
    }
    if !have_order(&t.chars, order) {
        return false;
    }
    if !have_rows(&t.family.mats, t.family.dim) {
        return false;
    }
    if !have_cols(&t.family.mats, t.family.dim) {
        return false;
    }
    have_orders(&t.family.mats, order)
}

fn have_places<S: Scalar>(reps: &[RepText<S>], order: u32, places: usize) -> bool
    ensures { IsTrue result → All (HasPlaces order places) reps.now }
{
    for t in reps {
        if !has_places(t, order, places) {
            return false;
        }
    }
    true
}

fn fits_together<S: Scalar>(r: &Report<S>) -> bool
    ensures { IsTrue result → FitsTogether r.now }
{
    have_places(&r.reps, r.order, r.ops.len())
}

fn operation(rot: [[i16; 3]; 3], num: [i64; 3], den: u32) -> Op
    requires { 0 < den }
{
    let shift = Vec3::new(num, den);
    let num = shift.num;
    Op {
        rot,
        num,
        den: shift.den,
    }
}

fn wave(num: [i64; 3], den: u32) -> Wave
    requires { 0 < den }
{
    let lowest = Vec3::new(num, den);
    let num = lowest.num;
    Wave {
        num,
        den: lowest.den,
    }
}

// The representation of one row with the entries z^e, for each exponent e.
fn powers<S: Scalar>(alloc: Global, order: &Order, exponents: &[u32]) -> Result<RepText<S>, Memory>
    requires admitted { S.admits order.now.n }
{
    let mut chars = Vec::new(alloc);
    let mut mats = Vec::new(alloc);
    for e in exponents {
        let trace = S::root(alloc, order, *e % order.n())?;
        chars.push(trace)?;
        let matrix = single::<S>(alloc, order, *e % order.n())?;
        mats.push(matrix)?;
    }
    let family = Family { dim: 1, mats };
    Ok(RepText { family, chars })
}

// The matrix of one row with the entry z^e.
fn single<S: Scalar>(alloc: Global, order: &Order, e: u32) -> Result<Mat<S>, Memory>
    requires admitted { S.admits order.now.n }
    requires below { e < order.now.n }
{
    let mut entries = Vec::new(alloc);
    let entry = S::root(alloc, order, e)?;
    entries.push(entry)?;
    Ok(Mat::from_entries(1, 1, entries))
}

// The report of representations of one row, whose entries are powers of z.
fn report_of_powers<S: Scalar>(
    alloc: Global,
    wave: Wave,
    order: &Order,
    operations: &[Op],
    exponents: &[&[u32]],
) -> Result<Report<S>, Memory>
    requires admitted { S.admits order.now.n }
{
    let mut ops = Vec::new(alloc);
    for op in operations {
        ops.push(*op)?;
    }
    let mut reps = Vec::new(alloc);
    for e in exponents {
        let rep = powers::<S>(alloc, order, e)?;
        reps.push(rep)?;
    }
    Ok(Report {
        wave,
        order: order.n(),
        ops,
        reps,
    })
}

const UNIT: [[i16; 3]; 3] = [[1, 0, 0], [0, 1, 0], [0, 0, 1]];

// The group of no generators at 0,0,0.
#[test]
fn one_operation(rt: HostRuntime) -> Result<(), Fail> {
    printed_reports_have_lines();
    let order = Order::new(rt.alloc(), 1)?;
    let ops = [operation(UNIT, [0, 0, 0], 1)];
    let report = report_of_powers::<Dense>(rt.alloc(), wave([0, 0, 0], 1), &order, &ops, &[&[0]])?;
    assert!(rt; fits_together(&report));
    let text = print_report(rt.alloc(), &report)?;
    let expected =
        "report 1\nwave 0,0,0\norder 1\nops 1\nop 1 x,y,z\nreps 1\nrep S1 dim 1\nchar 1\nmat 1 1\nend\n";
    assert!(rt; text.as_slice() == expected.as_bytes());
    Ok(())
}

// P2_1 at 0,1/2,0: the screw has the matrix i or -i.
#[test]
fn screw_axis(rt: HostRuntime) -> Result<(), Fail> {
    let order = Order::new(rt.alloc(), 4)?;
    let screw = [[-1, 0, 0], [0, 1, 0], [0, 0, -1]];
    let ops = [
        operation(UNIT, [0, 0, 0], 1),
        operation(screw, [0, 1, 0], 2),
    ];
    let exponents: [&[u32]; 2] = [&[0, 1], &[0, 3]];
    let report = report_of_powers::<Dense>(
        rt.alloc(),
        wave([0, 1, 0], 2),
        &order,
        &ops,
        &exponents,
    )?;
    assert!(rt; fits_together(&report));
    let text = print_report(rt.alloc(), &report)?;
    let expected = "report 1\nwave 0,1/2,0\norder 4\nops 2\nop 1 x,y,z\nop 2 -x,y+1/2,-z\nreps 2\n\
        rep S1 dim 1\nchar 1 1*z^1\nmat 1 1\nmat 2 1*z^1\n\
        rep S2 dim 1\nchar 1 -1*z^1\nmat 1 1\nmat 2 -1*z^1\nend\n";
    assert!(rt; text.as_slice() == expected.as_bytes());
    Ok(())
}

// Whether a line of so many values has this fault, or none.
fn has_fault(
    alloc: Global,
    order: &Order,
    count: usize,
    text: &str,
    scale: &mut Scale,
    fault: Option<ValuesError>,
) -> bool {
    let read: Result<Vec<Dense>, ValuesError> = read_values(
        alloc,
        order,
        count,
        text.as_bytes(),
        scale,
    );
    read.err() == fault
}

// Of order 12, z^12 passes the limit on exponents; 4,096 and 4,095 have no common divisor; over 2, 1,073,741,824 is
// 2,147,483,648.
#[test]
fn values_are_read_within_the_limits_of_all(rt: HostRuntime) -> Result<(), Fail> {
    let order = Order::new(rt.alloc(), 12)?;
    for (count, text, fault) in [
        (2, " 1 -1/2*z^3", None),
        (0, "", None),
        (1, "", Some(ValuesError::Line)),
        (1, "1", Some(ValuesError::Line)),
        (1, " 1 ", Some(ValuesError::Line)),
        (2, " 1  2", Some(ValuesError::Line)),
        (1, " 1/0", Some(ValuesError::Line)),
        (2, " 1*z^12 x", Some(ValuesError::Line)),
        (2, " 1*z^12 1", Some(ValuesError::Range)),
        (2, " 1/4096 1/4095", Some(ValuesError::Range)),
        (2, " 1073741824 1/2", Some(ValuesError::Range)),
        (2, " 536870912 1/2", None),
    ] {
        let mut scale = Scale::new();
        assert!(rt;
            has_fault(rt.alloc(), &order, count, text, &mut scale, fault),
            "{text}"
        );
    }
    let mut scale = Scale::new();
    assert!(rt; has_fault(rt.alloc(), &order, 1, " 1073741824", &mut scale, None));
    assert!(rt;
        has_fault(
            rt.alloc(),
            &order,
            1,
            " 1/2",
            &mut scale,
            Some(ValuesError::Range)
        )
    );
    Ok(())
}

// Whether a text is a report with these numbers of operations and representations, of this order.
fn is_read(alloc: Global, text: &str, order: u32, ops: usize, reps: usize) -> bool {
    let read: Result<Report<Dense>, ReportError> = read_report(alloc, text.as_bytes());
    match read {
        Ok(report) => report.order == order && report.ops.len() == ops && report.reps.len() == reps,
        Err(_) => false,
    }
}

// Whether a text has this error.
fn is_refused(alloc: Global, text: &str, error: ReportError) -> bool {
    let read: Result<Report<Dense>, ReportError> = read_report(alloc, text.as_bytes());
    read.err() == Some(error)
}

const SCREW: &str = "report 1\nwave 0,1/2,0\norder 4\nops 2\nop 1 x,y,z\nop 2 -x,y+1/2,-z\nreps 2\n\
    rep S1 dim 1\nchar 1 1*z^1\nmat 1 1\nmat 2 1*z^1\n\
    rep S2 dim 1\nchar 1 -1*z^1\nmat 1 1\nmat 2 -1*z^1\nend\n";

// Whether a text is a report that prints as the same text.
fn is_printed_again(alloc: Global, text: &str) -> Result<bool, Fail> {
    let read: Result<Report<Dense>, ReportError> = read_report(alloc, text.as_bytes());
    match read {
        Ok(report) => {
            let printed = print_report(alloc, &report)?;
            Ok(printed.as_slice() == text.as_bytes())
        }
        Err(_) => Ok(false),
    }
}

const EMPTY: &str =
    "report 1\nwave 0,0,0\norder 1\nops 1\nop 1 x,y,z\nreps 1\nrep S1 dim 1\nchar 1\nmat 1 1\nend\n";

// No sum of squares of dimensions is asked for in a report.
const THREEFOLD: &str =
    "report 1\nwave 0,0,0\norder 3\nops 3\nop 1 x,y,z\nop 2 -x+y,-x,z\nop 3 -y,x-y,z\nreps 2\n\
    rep S1 dim 1\nchar 1 1 1\nmat 1 1\nmat 2 1\nmat 3 1\n\
    rep S2 dim 2\nchar 2 -1 -1\nmat 1 1 0 0 1\nmat 2 -1 1 -1 0\nmat 3 0 -1 1 -1\nend\n";

#[test]
fn reports_are_read_and_printed_again(rt: HostRuntime) -> Result<(), Fail> {
    assert!(rt; is_read(rt.alloc(), SCREW, 4, 2, 2));
    for text in [EMPTY, SCREW, THREEFOLD] {
        assert!(rt; is_printed_again(rt.alloc(), text)?, "{text}");
    }
    Ok(())
}

#[test]
fn ends_of_lines_may_differ(rt: HostRuntime) {
    let text = "report 1\r\nwave 0,0,0\r\norder 1\nops 1\nop 1 x,y,z\nreps 0\nend\n\n\r\n";
    assert!(rt; is_read(rt.alloc(), text, 1, 1, 0));
    assert!(rt;
        is_read(
            rt.alloc(),
            "report 1\nwave 0,0,0\norder 1\nops 1\nop 1 x,y,z\nreps 0\nend",
            1,
            1,
            0
        )
    );
}

#[test]
fn a_report_that_is_cut_off_lacks_a_line(rt: HostRuntime) {
    assert!(rt; is_refused(rt.alloc(), "report 1\nwave 0,0,0\n", ReportError::Line(3)));
    assert!(rt; is_refused(rt.alloc(), "", ReportError::Line(1)));
}

#[test]
fn the_first_line_past_a_limit_is_told(rt: HostRuntime) {
    assert!(rt;
        is_refused(
            rt.alloc(),
            "report 1\nwave 0,0,0\norder 12001\nops 0\n",
            ReportError::Range(3)
        )
    );
    assert!(rt;
        is_refused(
            rt.alloc(),
            "report 1\nwave 0,0,0\norder 1\nops 49\n",
            ReportError::Range(4)
        )
    );
    let text =
        "report 1\nwave 0,0,0\norder 2\nops 1\nop 1 x,y,z\nreps 1\nrep S1 dim 1\nchar 1073741825*z^1\n";
    assert!(rt; is_refused(rt.alloc(), text, ReportError::Range(8)));
}
