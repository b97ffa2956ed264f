ghost use Rattle.std.specs.Prelude.{◌≡◌, ◌<◌, IfOk};
ghost use Rattle.irr_mat.specs.Entries.{first_order, matrix_of};
ghost use Rattle.irr_mat.specs.Size.{IsWithin};
ghost use Rattle.irr_rep.specs.Twisted.{phase_table, place_count};

use super::*;
use crate::powers::tests::screw_axis;
use irr_cyc::Dense;
use irr_mat::Mat;
use irr_rep::first_defect;
use std::test::Fail;

// The matrix of one row with the entry z^e.
fn single<S: Scalar>(alloc: Global, order: &Order, e: u32) -> Result<Mat<S>, Memory>
    requires admitted { S.admits order.now.n }
    requires below { e < order.now.n }
    ensures rows { IfOk result (λ m. m.rows ≡ 1) }
    ensures cols { IfOk result (λ m. m.cols ≡ 1) }
    ensures order { IfOk result (λ m. first_order S.order_of m.entries.items ≡ order.now.n) }
    ensures within { let n = order.now.n in IfOk result (λ m. IsWithin n 1 1 (matrix_of S.value n 1 1 m.entries.items)) }
{
    let mut entries = Vec::new(alloc);
    let entry = S::root(alloc, order, e)?;
    entries.push(entry)?;
    Ok(Mat::from_entries(1, 1, entries))
}

// Whether the matrices of one row with the entries 1 and z^e are a small representation, whose eigenvalues at
// place 1 have these exponents.
fn has_exponents<S: Scalar>(
    alloc: Global,
    order: &Order,
    t: &Twisted,
    e: u32,
    exponents: &[u32],
) -> Result<bool, Memory>
    requires admitted { S.admits order.now.n }
    requires order { order.now.n ≡ (phase_table t.now).order }
    requires places { place_count t.now ≡ 2 }
    requires below { e < order.now.n }
{
    let unit = single::<S>(alloc, order, 0)?;
    let screw = single::<S>(alloc, order, e)?;
    let mut mats = Vec::new(alloc);
    mats.push(unit)?;
    mats.push(screw)?;
    let family = Family { dim: 1, mats };
    let defect = first_defect(alloc, t, &family)?;
    match defect {
        Some(_) => Ok(false),
        None => {
            let found = eigen_exponents(alloc, t, &family, 1)?;
            Ok(found.as_slice() == exponents)
        }
    }
}

// The matrix of the screw is z or -z = z^3, and its own eigenvalue: its square is the phase -1.
#[test]
fn eigenvalue_of_a_screw(rt: HostRuntime) -> Result<(), Fail> {
    let t = screw_axis(rt.alloc())?;
    let order = Order::new(rt.alloc(), t.order())?;
    assert!(rt; has_exponents::<Dense>(rt.alloc(), &order, &t, 1, &[1])?);
    assert!(rt; has_exponents::<Dense>(rt.alloc(), &order, &t, 3, &[3])?);
    Ok(())
}
