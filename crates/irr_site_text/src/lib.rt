//! The text of the sites of a point and of what they bring to a wave vector.
#![tactic(auto)]

ghost use Rattle.std.specs.Prelude.{◌≡◌, ◌++◌, IfOk, OnOk, map};
ghost use Rattle.std.specs.List.{flat_map};
ghost use Rattle.irr_rat.specs.VectorMeaning.{vector};
ghost use Rattle.irr_seitz.specs.OperationMeaning.{operation};
ghost use Rattle.irr_seitz.specs.PhaseMeaning.{sign_of};
ghost use Rattle.irr_kvec.specs.WaveMeaning.{wave_vector};
ghost use Rattle.irr_report.specs.Printed.{numbered};
ghost use Rattle.irr_site.specs.Content.{family_content, sites_content};
ghost use Rattle.irr_site_text.specs.SiteText.{as_row, displacement_lines, family_lines, first_lines, induced_lines, operation_lines, part_line, site_line, site_lines, site_text};

use irr_heading::push_heading;
use irr_kvec::Wave;
pub use irr_memory::Memory;
use irr_rat::Vec3;
use irr_report::push_operations;
use irr_seitz::{Op, Phase};
use irr_site::{SiteParts, Sites, SmallPart};
use std::alloc::Global;

/// The text of the sites of a point and of what they bring to a wave vector: the order of the numbers, the wave vector
/// and the point, the operations of the site group, the sites, and for each representation of the site group, and then
/// for displacements, the number of rows and the parts, each by its label, with its multiplicity and its number of rows.
/// The error is want of memory.
pub fn text_site(
    alloc: Global,
    order: u32,
    wave: &Wave,
    x: &Vec3,
    sites: &Sites,
    version: u32,
    phase: Phase,
) -> Result<Vec<u8>, Memory>
    ensures { IfOk result (λ text. text.items ≡ site_text version (sign_of phase) (wave_vector wave.now) (vector x.now)
        (sites_content order sites.now)) }
{
    let mut text = Vec::new(alloc);
    push_heading(alloc, &mut text, b"site", version, phase)?;
    push_first(alloc, &mut text, order, wave, x)?;
    push_group(alloc, &mut text, &sites.ops)?;
    push_sites(alloc, &mut text, &sites.points)?;
    push_induced(alloc, &mut text, &sites.induced)?;
    push_displacement(alloc, &mut text, &sites.displace)?;
    text.extend_from_slice(b"end\n")?;
    Ok(text)
}

// Appends the lines of the order, the wave vector and the point.
fn push_first(
    alloc: Global,
    text: &mut Vec<u8>,
    order: u32,
    wave: &Wave,
    x: &Vec3,
) -> Result<(), Memory>
    ensures { OnOk result (text.new.items ≡ text.old.items ++ first_lines order (wave_vector wave.now) (vector x.now)) }
{
    let row = row_of(x);
    text.extend_from_slice(format!(in alloc;
        "order {order}\nwave {wave}\npoint {row}\n"
    )?.as_bytes())?;
    Ok(())
}

// A point as a row.
fn row_of(x: &Vec3) -> Wave
    ensures { wave_vector result ≡ as_row (vector x.now) }
{
    let num = x.num;
    let den = x.den;
    Wave { num, den }
}

// Appends the lines of the operations.
fn push_group(alloc: Global, text: &mut Vec<u8>, ops: &[Op]) -> Result<(), Memory>
    ensures { OnOk result (text.new.items ≡ text.old.items ++ operation_lines (map operation ops.now)) }
{
    let count = ops.len();
    text.extend_from_slice(format!(in alloc; "ops {count}\n")?.as_bytes())?;
    push_operations(alloc, text, ops)?;
    Ok(())
}

// Appends the lines of the sites.
fn push_sites(alloc: Global, text: &mut Vec<u8>, points: &[Vec3]) -> Result<(), Memory>
    ensures { OnOk result (text.new.items ≡ text.old.items ++ site_lines (map vector points.now)) }
{
    let count = points.len();
    text.extend_from_slice(format!(in alloc; "sites {count}\n")?.as_bytes())?;
    push_points(alloc, text, points)?;
    Ok(())
}

// Appends a line for each site, with its number, from 1.
fn push_points(alloc: Global, text: &mut Vec<u8>, points: &[Vec3]) -> Result<(), Memory>
    ensures { OnOk result (text.new.items ≡ text.old.items ++ numbered (λ k x. site_line k (vector x)) 1 points.now) }
{
    for (i, point) in points.iter().enumerate() {
        push_point(alloc, text, i + 1, point)?;
    }
    Ok(())
}

// Appends the line of a site.
fn push_point(alloc: Global, text: &mut Vec<u8>, number: usize, point: &Vec3) -> Result<(), Memory>
    ensures { OnOk result (text.new.items ≡ text.old.items ++ site_line number (vector point.now)) }
{
    let row = row_of(point);
    text.extend_from_slice(format!(in alloc; "site {number} {row}\n")?.as_bytes())?;
    Ok(())
}

// Appends the lines of the induced families.
fn push_induced(alloc: Global, text: &mut Vec<u8>, families: &[SiteParts]) -> Result<(), Memory>
    ensures { OnOk result (text.new.items ≡ text.old.items ++ family_lines (map family_content families.now)) }
{
    let count = families.len();
    text.extend_from_slice(format!(in alloc; "reps {count}\n")?.as_bytes())?;
    push_families(alloc, text, families)?;
    Ok(())
}

// Appends the lines of each induced family, with its number, from 1.
fn push_families(alloc: Global, text: &mut Vec<u8>, families: &[SiteParts]) -> Result<(), Memory>
    ensures { OnOk result (text.new.items ≡ text.old.items
        ++ numbered (λ k f. induced_lines k (family_content f)) 1 families.now) }
{
    for (i, family) in families.iter().enumerate() {
        push_family(alloc, text, i + 1, family)?;
    }
    Ok(())
}

// Appends the lines of an induced family.
fn push_family(
    alloc: Global,
    text: &mut Vec<u8>,
    number: usize,
    family: &SiteParts,
) -> Result<(), Memory>
    ensures { OnOk result (text.new.items ≡ text.old.items ++ induced_lines number (family_content family.now)) }
{
    let dim = family.dim;
    text.extend_from_slice(format!(in alloc; "rep T{number} dim {dim}\n")?.as_bytes())?;
    push_parts(alloc, text, &family.parts)?;
    Ok(())
}

// Appends the lines of the family of displacements.
fn push_displacement(alloc: Global, text: &mut Vec<u8>, family: &SiteParts) -> Result<(), Memory>
    ensures { OnOk result (text.new.items ≡ text.old.items ++ displacement_lines (family_content family.now)) }
{
    let dim = family.dim;
    text.extend_from_slice(format!(in alloc; "displace dim {dim}\n")?.as_bytes())?;
    push_parts(alloc, text, &family.parts)?;
    Ok(())
}

// Appends the lines of parts.
fn push_parts(alloc: Global, text: &mut Vec<u8>, parts: &[SmallPart]) -> Result<(), Memory>
    ensures { OnOk result (text.new.items ≡ text.old.items ++ flat_map part_line parts.now) }
{
    for part in parts {
        push_part(alloc, text, part)?;
    }
    Ok(())
}

// Appends the line of a part.
fn push_part(alloc: Global, text: &mut Vec<u8>, part: &SmallPart) -> Result<(), Memory>
    ensures { OnOk result (text.new.items ≡ text.old.items ++ part_line part.now) }
{
    let label = part.label;
    let mult = part.mult;
    let dim = part.dim;
    text.extend_from_slice(format!(in alloc; "part S{label} {mult} {dim}\n")?.as_bytes())?;
    Ok(())
}
