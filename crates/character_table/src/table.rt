// From triplets to characters, by calls of the library.
ghost use Rattle.std.specs.Prelude.{ℕ, ◌↔◌, [], ◌∷◌, IfOk};
ghost use Rattle.irr_space.specs.Operation.{Operation};
ghost use Rattle.irr_space.specs.SpaceGroup.{Generated};
ghost use Rattle.irr_space.specs.Reciprocal.{IsOrder};
ghost use Rattle.irr_triplet.specs.TripletFault.{IsTextOf};
ghost use Rattle.irr_kvec.specs.WaveMeaning.{wave_vector};
ghost use Rattle.irr_close.specs.StandsFor.{stands_for};
ghost use Rattle.irr_mult.specs.Traced.{AreStarCharacters};

use crate::error::TableError;
use irr_close::{Group, close};
use irr_cyc::{Lift, Order, Scalar};
use irr_kvec::read_wave;
use irr_little::{LittleError, little};
use irr_mult::{SmallCharacter, StarCharacters, star_characters};
use irr_numeral::print_number;
use irr_seitz::Phase;
use irr_triplet::read_triplet;
use std::alloc::Global;

// The greatest number in a wave vector.
const LIMIT: u32 = 100_000;

/// The group that two operations generate, which are written as coordinate triplets. It stands for all of the
/// space group, translations included. It is refused where a text is no triplet, where the group passes a limit, and
/// for want of memory.
pub fn group_of(alloc: Global, first: &[u8], second: &[u8]) -> Result<Group, TableError>
    ensures { (g h : Operation) → IsTextOf first.now g → IsTextOf second.now h
        → IfOk result (λ group. (x : Operation) → stands_for group x ↔ Generated (g ∷ h ∷ []) x) }
{
    let Ok(g) = read_triplet(first) else {
        return Err(TableError::Triplet);
    };
    let Ok(h) = read_triplet(second) else {
        return Err(TableError::Triplet);
    };
    match close(alloc, &[g, h], Phase::Minus) {
        Ok(group) => Ok(group),
        Err(_) => Err(TableError::Group),
    }
}

/// The characters of the small representations at a wave vector, which is written as three fractions: of a complete
/// list of irreducible ones, in canonical order. It is refused where the text is no wave vector, where the order of
/// the numbers is too large, and for want of memory.
pub fn characters_at<S: Lift>(
    alloc: Global,
    group: &Group,
    wave: &[u8],
) -> Result<StarCharacters<S>, TableError>
    ensures { IfOk result (λ c. (n : ℕ) × IsOrder (stands_for group.now) (wave_vector c.wave) n
        × AreStarCharacters S.order_of S.value group.now n c) }
{
    let Ok(k) = read_wave(wave, LIMIT) else {
        return Err(TableError::Wave);
    };
    match little(alloc, group, &k) {
        Ok(table) => {
            let order = Order::new(alloc, table.order())?;
            let star = star_characters::<S>(alloc, group, &k, &order)?;
            Ok(star)
        }
        Err(LittleError::OrderTooLarge(order)) => Err(TableError::Order(order)),
        Err(LittleError::Memory) => Err(TableError::Memory),
    }
}

/// A line for each small representation: its dimension, and its character at each operation of the little group.
pub fn print<S: Scalar>(alloc: Global, star: &StarCharacters<S>) -> Result<Vec<u8>, TableError> {
    let mut text = Vec::new(alloc);
    for character in &star.characters {
        let line = line_of(alloc, character)?;
        text.extend_from_slice(&line)?;
    }
    Ok(text)
}

// The line of a small representation.
fn line_of<S: Scalar>(alloc: Global, character: &SmallCharacter<S>) -> Result<Vec<u8>, TableError> {
    let dim = character.dim;
    let head = format!(in alloc; "dimension {dim}:")?;
    let mut line = head.into_bytes();
    for trace in &character.row {
        line.push(b' ')?;
        let number = print_number(alloc, trace)?;
        line.extend_from_slice(&number)?;
    }
    line.push(b'\n')?;
    Ok(line)
}
