ghost use Rattle.std.specs.Prelude.{◌≡◌, ◌<◌, length, IfOk};
ghost use Rattle.irr_mat.specs.Entries.{first_order, matrix_of};
ghost use Rattle.irr_mat.specs.Size.{IsWithin};
ghost use Rattle.irr_rep.specs.Twisted.{phase_table, place_count};

use super::*;
use crate::table::tests::screw_axis;
use irr_cyc::Dense;
use std::test::Fail;

// The matrix of one row with the entry z^e.
fn single<S: Scalar>(alloc: Global, order: &Order, e: u32) -> Result<Mat<S>, Memory>
    requires admitted { S.admits order.now.n }
    requires below { e < order.now.n }
    ensures rows { IfOk result (λ m. m.rows ≡ 1) }
    ensures cols { IfOk result (λ m. m.cols ≡ 1) }
    ensures order { IfOk result (λ m. first_order S.order_of m.entries.items ≡ order.now.n) }
    ensures within { let n = order.now.n in IfOk result (λ m. IsWithin n 1 1 (matrix_of S.value n 1 1 m.entries.items)) }
{
    let mut entries = Vec::new(alloc);
    let entry = S::root(alloc, order, e)?;
    entries.push(entry)?;
    Ok(Mat::from_entries(1, 1, entries))
}

// The first defect of the matrices of one row with the entries z^e, for each exponent e, over the table's order.
fn tried<S: Scalar>(
    alloc: Global,
    order: &Order,
    t: &Twisted,
    exponents: &[u32],
) -> Result<Option<Defect>, Memory>
    requires admitted { S.admits order.now.n }
    requires order { order.now.n ≡ (phase_table t.now).order }
    requires count { length exponents.now ≡ place_count t.now }
{
    let mut mats = Vec::new(alloc);
    for e in exponents {
        let matrix = single::<S>(alloc, order, *e % order.n())?;
        mats.push(matrix)?;
    }
    first_defect(alloc, t, &Family { dim: 1, mats })
}

// The screw of P2_1 at 0,1/2,0 has the matrix i or -i: its square is a translation with the phase -1.
#[test]
fn screw_axis_with_right_and_wrong_matrices(rt: HostRuntime) -> Result<(), Fail> {
    let t = screw_axis(rt.alloc())?;
    let order = Order::new(rt.alloc(), t.order())?;
    let rows: [(&[u32], Option<Defect>); 4] = [
        (&[0, 1], None),
        (&[0, 3], None),
        (&[0, 0], Some(Defect::Product { i: 1, j: 1 })),
        (&[1, 1], Some(Defect::Unit)),
    ];
    for (exponents, defect) in rows {
        assert!(rt; exponents.len() == t.len() as usize);
        let found = tried::<Dense>(rt.alloc(), &order, &t, exponents)?;
        assert!(rt; found == defect);
    }
    Ok(())
}
