// What the sites of a point bring to a wave vector.
ghost use Rattle.std.specs.Prelude.{ℕ, ◌≤◌, IfOk, IfErr};
ghost use Rattle.irr_rat.specs.VectorMeaning.{vector};
ghost use Rattle.irr_seitz.specs.PhaseMeaning.{sign_of};
ghost use Rattle.irr_kvec.specs.Centrings.{IsWithinLimits};
ghost use Rattle.irr_kvec.specs.WaveMeaning.{wave_vector};
ghost use Rattle.irr_cyc.specs.declared.orders.TheConstants.{ORDER_LIMIT};
ghost use Rattle.irr_rep.specs.Twisted.{operation_places, phase_table};
ghost use Rattle.irr_little.specs.Table.{IsLittleTable};
ghost use Rattle.irr_close.specs.StandsFor.{stands_for};
ghost use Rattle.irr_site.specs.Content.{IsRefusal, sites_content};
ghost use Rattle.irr_site.specs.Points.{IsPoint};
ghost use Rattle.irr_site.specs.SiteContent.{IsSitesOf};

use crate::characters::table_characters;
use crate::listing::{displaced_parts, induced_parts};
use crate::operations::{site_ops, site_places};
use crate::orbits::{site_numbers, site_points};
use crate::part::Sites;
use crate::products::products;
use crate::rest::Numbers;
use crate::rests::all_rests;
use crate::table::site_table;
use irr_close::Group;
use irr_cyc::{Lift, Order};
use irr_kvec::Wave;
use irr_little::{LittleError, little};
use irr_memory::Memory;
use irr_mult::WorkError;
use irr_rat::Vec3;
use irr_rep::Twisted;
use std::alloc::Global;

/// The site group and the sites of a point, and the small representations of the little group of a wave vector that
/// stand in the families which they bring there (Evarestov and Smirnov, Site Symmetry in Crystals). For each member of
/// a complete list of the site group, in canonical order, these are the parts of the family that it induces; and then
/// those of the displacements of atoms at the sites. How often a part stands in a family is the dimension of the space
/// of intertwiners; the labels increase, and the sizes of the parts add up to the number of rows of the family.
///
/// The numerators of the point are at most 1,000,000 in absolute value, and its denominator is at most 1,000. Where the
/// order of the wave vector is n, above `ORDER_LIMIT`, the error is `OrderTooLarge(n)`.
pub fn site<S: Lift>(alloc: Global, group: &Group, x: &Vec3, k: &Wave) -> Result<Sites, WorkError>
    requires point { IsPoint x.now }
    requires limits { IsWithinLimits k.now }
    ensures sites { IfOk result (λ sites. (n : ℕ) × (n ≤ ORDER_LIMIT) × IsSitesOf (sign_of group.now.phase)
        (stands_for group.now) (vector x.now) (wave_vector k.now) (sites_content n sites)) }
    ensures refused { IfErr result (IsRefusal group.now (wave_vector k.now)) }
{
    match little(alloc, group, k) {
        Ok(t) => {
            let sites = sites_at::<S>(alloc, group, x, k, &t)?;
            Ok(sites)
        }
        Err(LittleError::OrderTooLarge(order)) => Err(WorkError::OrderTooLarge(order)),
        Err(LittleError::Memory) => Err(WorkError::Memory),
    }
}

// The same with the table of the little group of the wave vector. The error is want of memory.
fn sites_at<S: Lift>(
    alloc: Global,
    group: &Group,
    x: &Vec3,
    k: &Wave,
    t: &Twisted,
) -> Result<Sites, Memory>
    requires point { IsPoint x.now }
    requires limits { IsWithinLimits k.now }
    requires table { IsLittleTable group.now (wave_vector k.now) (operation_places t.now) (phase_table t.now) }
    ensures { IfOk result (λ sites. IsSitesOf (sign_of group.now.phase) (stands_for group.now) (vector x.now)
        (wave_vector k.now) (sites_content (phase_table t.now).order sites)) }
{
    let order = Order::new(alloc, t.order())?;
    let small = table_characters::<S>(alloc, &order, t)?;
    let products = products(alloc, group)?;
    let places = site_places(alloc, group, x)?;
    let ops = site_ops(alloc, group, x, places.as_slice())?;
    let sites = site_numbers(alloc, group, products.as_slice(), places.as_slice())?;
    let points = site_points(alloc, group, x, sites.as_slice())?;
    let listed = Vec::from_slice(alloc, &places)?;
    let table = site_table(alloc, group, t.order(), products.as_slice(), listed)?;
    let characters = table_characters::<S>(alloc, &order, &table)?;
    let numbers = Numbers {
        products,
        places,
        sites,
    };
    let rows = all_rests(alloc, group, k, x, t.order(), &numbers, t)?;
    let count = points.len() as u32;
    let induced = induced_parts(
        alloc,
        &order,
        t,
        small.as_slice(),
        rows.as_slice(),
        characters.as_slice(),
        count,
    )?;
    let displace = displaced_parts(
        alloc,
        &order,
        group,
        t,
        small.as_slice(),
        rows.as_slice(),
        ops.len(),
        count,
    )?;
    Ok(Sites {
        ops,
        points,
        induced,
        displace,
    })
}
