ghost use Rattle.std.specs.Prelude.{ℕ, ◌≡◌, ◌<◌, ◌≤◌, ◌+◌, ◌*◌, ◌^◌, length, map, vec_len, slice_index, Contains, IfOk};
ghost use Rattle.irr_rep.specs.Table.{IsGroup, AreInverses, HasInverses, IsFactorSystem, AreUnitColumns, AreEntries, IsListed, entry};
ghost use Rattle.irr_rep.specs.Subgroup.{IsSubgroup, IsRestriction};
ghost use Rattle.irr_cyc.specs.declared.orders.TheConstants.{ORDER_LIMIT};
ghost use Rattle.irr_rep.specs.declared.table.TheConstants.{PLACES_LIMIT};

use irr_memory::Memory;
use std::alloc::Global;

/// The greatest number of places of a table of phases: the greatest order of a point group.
pub const PLACES_LIMIT: u32 = 48;

/// A factor system whose phases are powers of z, a primitive root of one of a given order: a finite group on
/// numbered places, the unit at place 0, with an exponent of z for each product (Bradley and Cracknell,
/// section 3.7). The places are those of the operations of a little group modulo its translations.
#[derive(Debug, Drop)]
pub struct Twisted {
    order: u32,
    products: Vec<u32>,
    exponents: Vec<u32>,
    inverses: Vec<u32>,
    places: Vec<u32>,
    ghost order_positive: { 0 < order },
    ghost order_within: { order ≤ ORDER_LIMIT },
    ghost not_empty: { 0 < vec_len places },
    ghost places_within: { vec_len places ≤ PLACES_LIMIT },
    ghost full_products: { vec_len products ≡ vec_len places * vec_len places },
    ghost full_exponents: { vec_len exponents ≡ vec_len places * vec_len places },
    ghost full_inverses: { vec_len inverses ≡ vec_len places },
    ghost group: { IsGroup (vec_len places) (entry (vec_len places) products.items) },
    ghost opposites: { AreInverses (vec_len places) (entry (vec_len places) products.items) (slice_index inverses.items) },
    ghost factors: { IsFactorSystem order (vec_len places) (entry (vec_len places) products.items) (entry (vec_len places) exponents.items) },
}

impl Twisted {
    ghost use Rattle.irr_algebra.specs.Fin.{Fin, to_nat};
    ghost use Rattle.irr_rep.specs.Twisted.{place_count, phase_table, operation_places, IsMemberProduct, IsMemberExponent};

    /// A table from its products and the exponents of its phases, row by row, and the places of its
    /// operations in the group's list. The error is want of memory.
    pub fn new(
        alloc: Global,
        order: u32,
        table: Vec<u32>,
        phase: Vec<u32>,
        place: Vec<u32>,
    ) -> Result<Twisted, Memory>
        requires order_positive { 0 < order }
        requires order_within { order ≤ ORDER_LIMIT }
        requires not_empty { 0 < vec_len place }
        requires places_within { vec_len place ≤ PLACES_LIMIT }
        requires full_table { vec_len table ≡ vec_len place * vec_len place }
        requires full_phase { vec_len phase ≡ vec_len place * vec_len place }
        requires group { IsGroup (vec_len place) (entry (vec_len place) table.items) }
        requires inverses { HasInverses (vec_len place) (entry (vec_len place) table.items) }
        requires factors { IsFactorSystem order (vec_len place) (entry (vec_len place) table.items) (entry (vec_len place) phase.items) }
        ensures table { IfOk result (λ t. IsListed (phase_table t) order table.items phase.items) }
        ensures places { IfOk result (λ t. operation_places t ≡ place.items) }
    {
        let inverses = unit_columns(alloc, table.as_slice(), place.len())?;
        Ok(Twisted {
            order,
            products: table,
            exponents: phase,
            inverses,
            places: place,
        })
    }

    /// The number of places: from 1 to `PLACES_LIMIT`.
    pub fn len(&self) -> u32
        ensures count { result ≡ place_count self.now }
        ensures positive { 0 < result }
        ensures within { result ≤ PLACES_LIMIT }
    {
        self.places.len() as u32
    }

    /// The order of z: from 1 to `ORDER_LIMIT`.
    pub fn order(&self) -> u32
        ensures order { result ≡ (phase_table self.now).order }
        ensures within { result ≤ ORDER_LIMIT }
    {
        self.order
    }

    /// The place of the operation i in the group's list.
    pub fn place(&self, i: u32) -> u32
        requires { i < place_count self.now }
        ensures { result ≡ slice_index (operation_places self.now) i }
    {
        self.places[i as usize]
    }

    /// The inverse of place i.
    pub fn inverse(&self, i: u32) -> u32
        requires { i < place_count self.now }
        ensures within { result < place_count self.now }
        ensures inverse { (p : Fin (place_count self.now)) → to_nat p ≡ i
            → result ≡ to_nat ((phase_table self.now).opposite p) }
    {
        self.inverses[i as usize]
    }

    /// The product of places i and j.
    pub fn table(&self, i: u32, j: u32) -> u32
        requires row { i < place_count self.now }
        requires column { j < place_count self.now }
        ensures within { result < place_count self.now }
        ensures product { (p q : Fin (place_count self.now)) → to_nat p ≡ i → to_nat q ≡ j
            → result ≡ to_nat ((phase_table self.now).product p q) }
    {
        self.products[self.index(i, j)]
    }

    /// The exponent of z in the phase of the product of places i and j.
    pub fn phase(&self, i: u32, j: u32) -> u32
        requires row { i < place_count self.now }
        requires column { j < place_count self.now }
        ensures within { result < (phase_table self.now).order }
        ensures limited { result < ORDER_LIMIT }
        ensures exponent { (p q : Fin (place_count self.now)) → to_nat p ≡ i → to_nat q ≡ j
            → result ≡ (phase_table self.now).exponent p q }
    {
        self.exponents[self.index(i, j)]
    }

    // Where row i and column j stand in the lists.
    fn index(&self, i: u32, j: u32) -> usize
        requires row { i < place_count self.now }
        requires column { j < place_count self.now }
        ensures place { result ≡ i * place_count self.now + j }
        ensures within { result < place_count self.now * place_count self.now }
    {
        i as usize * self.places.len() + j as usize
    }

    /// The table on the members of a subgroup, which are numbered by their position. The error is want of
    /// memory.
    pub fn restrict(&self, alloc: Global, members: &[u32]) -> Result<Twisted, Memory>
        requires { IsSubgroup (phase_table self.now) members.now }
        ensures table { IfOk result (λ s.
            IsRestriction (phase_table self.now) members.now (phase_table s)) }
        ensures places { IfOk result (λ s.
            operation_places s ≡ map (slice_index (operation_places self.now)) members.now) }
    {
        let products = self.products_on(alloc, members)?;
        let exponents = self.exponents_on(alloc, members)?;
        let places = self.places_on(alloc, members)?;
        Twisted::new(alloc, self.order, products, exponents, places)
    }

    // The products of the members, as positions among them, row by row.
    fn products_on(&self, alloc: Global, members: &[u32]) -> Result<Vec<u32>, Memory>
        requires { IsSubgroup (phase_table self.now) members.now }
        ensures full { IfOk result (λ v. length v.items ≡ length members.now * length members.now) }
        ensures entries { IfOk result (λ v.
            AreEntries (length members.now) (IsMemberProduct self.now members.now) v.items) }
    {
        let mut products = Vec::new(alloc);
        for &i in members {
            for &j in members {
                products.push(position(members, self.table(i, j)))?;
            }
        }
        Ok(products)
    }

    // The exponents of the members, row by row.
    fn exponents_on(&self, alloc: Global, members: &[u32]) -> Result<Vec<u32>, Memory>
        requires { IsSubgroup (phase_table self.now) members.now }
        ensures full { IfOk result (λ v. length v.items ≡ length members.now * length members.now) }
        ensures entries { IfOk result (λ v.
            AreEntries (length members.now) (IsMemberExponent self.now members.now) v.items) }
    {
        let mut exponents = Vec::new(alloc);
        for &i in members {
            for &j in members {
                exponents.push(self.phase(i, j))?;
            }
        }
        Ok(exponents)
    }

    // The members' places in the group's list.
    fn places_on(&self, alloc: Global, members: &[u32]) -> Result<Vec<u32>, Memory>
        requires { IsSubgroup (phase_table self.now) members.now }
        ensures { IfOk result (λ v. v.items ≡ map (slice_index (operation_places self.now)) members.now) }
    {
        let mut places = Vec::new(alloc);
        for &i in members {
            places.push(self.place(i))?;
        }
        Ok(places)
    }
}

// In each row of a table, the column where the unit stands.
fn unit_columns(alloc: Global, products: &[u32], size: usize) -> Result<Vec<u32>, Memory>
    requires few { size ≤ PLACES_LIMIT }
    requires full { length products.now ≡ size * size }
    requires inverses { HasInverses size (entry size products.now) }
    ensures { IfOk result (λ v. AreUnitColumns size (entry size products.now) v.items) }
{
    let mut columns = Vec::with_capacity(alloc, size)?;
    for i in 0..size {
        columns.push(position(&products[i * size..(i + 1) * size], 0))?;
    }
    Ok(columns)
}

// The first position of a value in a row.
fn position(row: &[u32], value: u32) -> u32
    requires short { length row.now ≤ PLACES_LIMIT }
    requires inside { Contains row.now value }
    ensures within { result < length row.now }
    ensures value { slice_index row.now result ≡ value }
{
    row.iter().position(|entry| *entry == value).unwrap() as u32
}

#[cfg(test)]
pub(crate) mod tests;
