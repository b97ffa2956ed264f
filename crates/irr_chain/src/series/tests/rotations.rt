// Point groups as tables of phases that are all one: rotations as signed axes, with the group laws tried.
ghost use Rattle.std.specs.Prelude.{ℕ, ◌≡◌, ◌<◌, ◌≤◌, ◌*◌, true, length, vec_len};
ghost use Rattle.irr_rep.specs.Table.{HasInverses, entry, power_of};

use irr_memory::Memory;
use irr_rep::{PLACES_LIMIT, Twisted};
use std::alloc::Global;
use std::process::Abort;
use std::test::Fail;

// What x, y and z become: twice the number of an axis, and one more where it is turned round.
pub(super) type Rotation = [u8; 3];

// The order of z: a multiple of the orders of all elements of the point groups.
const ORDER: u32 = 12;

// The product of two rotations.
fn times(f: &Rotation, g: &Rotation) -> Rotation {
    [turned(f, g[0]), turned(f, g[1]), turned(f, g[2])]
}

// What a signed axis becomes.
fn turned(f: &Rotation, axis: u8) -> u8 {
    f[usize::from(axis / 2) % 3] ^ (axis % 2)
}

// The rotations that the generators generate, the identity first.
fn generated(alloc: Global, generators: &[Rotation]) -> Result<Vec<Rotation>, Memory> {
    let mut found = Vec::new(alloc);
    found.push([0, 2, 4])?;
    for i in 0..PLACES_LIMIT as usize {
        if i < found.len() {
            let rotation = found[i];
            for generator in generators {
                let product = times(&rotation, generator);
                if !found.contains(&product) {
                    found.push(product)?;
                }
            }
        }
    }
    Ok(found)
}

// Where the products stand, row by row.
fn products_of(alloc: Global, rotations: &[Rotation]) -> Result<Vec<u32>, Memory>
    requires { length rotations.now ≤ PLACES_LIMIT }
{
    let mut products = Vec::new(alloc);
    for f in rotations {
        for g in rotations {
            let product = times(f, g);
            let place = rotations.iter().position(|r| *r == product).unwrap_or(0);
            products.push(place as u32)?;
        }
    }
    Ok(products)
}

// The table of the point group that the generators generate.
pub(super) fn point_group(
    rt: &impl Abort,
    alloc: Global,
    generators: &[Rotation],
) -> Result<Twisted, Fail> {
    let rotations = generated(alloc, generators)?;
    let size = rotations.len();
    assert!(rt; 0 < size && size <= PLACES_LIMIT as usize);
    let products = products_of(alloc, &rotations)?;
    assert_eq!(rt; products.len(), size * size);
    match tried(alloc, products, size)? {
        Some(t) => Ok(t),
        None => Err(Fail::from("no group")),
    }
}

// The table with these products and the phase 1, if they are those of a group.
fn tried(alloc: Global, products: Vec<u32>, size: usize) -> Result<Option<Twisted>, Memory>
    requires positive { 0 < size }
    requires small { size ≤ PLACES_LIMIT }
    requires full { vec_len products ≡ size * size }
{
    if is_closed(&products, size) {
        let unit = has_unit(&products, size);
        let associative = is_associative(&products, size);
        let inverses = has_inverses(&products, size);
        let back = all_return(&products, size);
        if unit && associative && inverses && back {
            return Ok(Some(table_of(alloc, products, size)?));
        }
    }
    Ok(None)
}

// The table with these products and the phase 1.
fn table_of(alloc: Global, products: Vec<u32>, size: usize) -> Result<Twisted, Memory>
    requires positive { 0 < size }
    requires small { size ≤ PLACES_LIMIT }
    requires full { vec_len products ≡ size * size }
    requires closed { (a b : ℕ) → a < size → b < size → entry size products.items a b < size }
    requires unit { (i : ℕ) → i < size → (entry size products.items 0 i ≡ i) × (entry size products.items i 0 ≡ i) }
    requires associative { (i : ℕ) → i < size → (j : ℕ) → j < size → (k : ℕ) → k < size
        → entry size products.items (entry size products.items i j) k ≡ entry size products.items i (entry size products.items j k) }
    requires inverses { HasInverses size (entry size products.items) }
    requires back { (i : ℕ) → i < size → power_of (entry size products.items) i ORDER ≡ 0 }
{
    let phases = Vec::from_elem(alloc, 0, size * size)?;
    let mut places = Vec::new(alloc);
    for i in 0..size as u32 {
        places.push(i)?;
    }
    Twisted::new(alloc, ORDER, products, phases, places)
}

// The product of two places.
fn product(products: &[u32], size: usize, i: u32, j: u32) -> u32
    requires small { size ≤ PLACES_LIMIT }
    requires full { length products.now ≡ size * size }
    requires row { i < size }
    requires column { j < size }
    ensures { result ≡ entry size products.now i j }
{
    products[i as usize * size + j as usize]
}

fn is_closed(products: &[u32], size: usize) -> bool
    requires small { size ≤ PLACES_LIMIT }
    requires full { length products.now ≡ size * size }
    ensures { result ≡ true → (i j : ℕ) → i < size → j < size → entry size products.now i j < size }
{
    products.iter().all(|entry| (*entry as usize) < size)
}

fn has_unit(products: &[u32], size: usize) -> bool
    requires small { size ≤ PLACES_LIMIT }
    requires full { length products.now ≡ size * size }
    ensures { result ≡ true → (i : ℕ) → i < size → (entry size products.now 0 i ≡ i) × (entry size products.now i 0 ≡ i) }
{
    for i in 0..size as u32 {
        if product(products, size, 0, i) != i || product(products, size, i, 0) != i {
            return false;
        }
    }
    true
}

fn is_associative_at(products: &[u32], size: usize, i: u32, j: u32) -> bool
    requires small { size ≤ PLACES_LIMIT }
    requires full { length products.now ≡ size * size }
    requires closed { (a b : ℕ) → a < size → b < size → entry size products.now a b < size }
    requires row { i < size }
    requires column { j < size }
    ensures { result ≡ true → (k : ℕ) → k < size
        → entry size products.now (entry size products.now i j) k ≡ entry size products.now i (entry size products.now j k) }
{
    let first = product(products, size, i, j);
    for k in 0..size as u32 {
        let second = product(products, size, j, k);
        if product(products, size, first, k) != product(products, size, i, second) {
            return false;
        }
    }
    true
}

fn is_associative_row(products: &[u32], size: usize, i: u32) -> bool
    requires small { size ≤ PLACES_LIMIT }
    requires full { length products.now ≡ size * size }
    requires closed { (a b : ℕ) → a < size → b < size → entry size products.now a b < size }
    requires row { i < size }
    ensures { result ≡ true → (j : ℕ) → j < size → (k : ℕ) → k < size
        → entry size products.now (entry size products.now i j) k ≡ entry size products.now i (entry size products.now j k) }
{
    for j in 0..size as u32 {
        if !is_associative_at(products, size, i, j) {
            return false;
        }
    }
    true
}

fn is_associative(products: &[u32], size: usize) -> bool
    requires small { size ≤ PLACES_LIMIT }
    requires full { length products.now ≡ size * size }
    requires closed { (a b : ℕ) → a < size → b < size → entry size products.now a b < size }
    ensures { result ≡ true → (i : ℕ) → i < size → (j : ℕ) → j < size → (k : ℕ) → k < size
        → entry size products.now (entry size products.now i j) k ≡ entry size products.now i (entry size products.now j k) }
{
    for i in 0..size as u32 {
        if !is_associative_row(products, size, i) {
            return false;
        }
    }
    true
}

fn has_inverse(products: &[u32], size: usize, i: u32) -> bool
    requires small { size ≤ PLACES_LIMIT }
    requires full { length products.now ≡ size * size }
    requires row { i < size }
    ensures { result ≡ true → (j : ℕ) × (j < size) × (entry size products.now i j ≡ 0) }
{
    for j in 0..size as u32 {
        if product(products, size, i, j) == 0 {
            return true;
        }
    }
    false
}

fn has_inverses(products: &[u32], size: usize) -> bool
    requires small { size ≤ PLACES_LIMIT }
    requires full { length products.now ≡ size * size }
    ensures { result ≡ true → HasInverses size (entry size products.now) }
{
    for i in 0..size as u32 {
        if !has_inverse(products, size, i) {
            return false;
        }
    }
    true
}

fn returns(products: &[u32], size: usize, i: u32) -> bool
    requires small { size ≤ PLACES_LIMIT }
    requires full { length products.now ≡ size * size }
    requires closed { (a b : ℕ) → a < size → b < size → entry size products.now a b < size }
    requires row { i < size }
    ensures { result ≡ true → power_of (entry size products.now) i ORDER ≡ 0 }
{
    let mut power = 0;
    for _e in 0..ORDER {
        power = product(products, size, i, power);
    }
    power == 0
}

fn all_return(products: &[u32], size: usize) -> bool
    requires small { size ≤ PLACES_LIMIT }
    requires full { length products.now ≡ size * size }
    requires closed { (a b : ℕ) → a < size → b < size → entry size products.now a b < size }
    ensures { result ≡ true → (i : ℕ) → i < size → power_of (entry size products.now) i ORDER ≡ 0 }
{
    for i in 0..size as u32 {
        if !returns(products, size, i) {
            return false;
        }
    }
    true
}
