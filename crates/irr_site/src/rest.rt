// What is left of operations at sites, and the numbers of the operations of a site.
/// An operation that carries a site to itself, and a translation: the place in the site group of what is left of it,
/// and the exponent of the phase of the translation.
#[derive(Clone, Copy)]
pub(crate) struct Rest {
    pub place: u32,
    pub exponent: u32,
}

/// A site group and the sites of its point, by the numbers of operations in `Group::ops`.
#[derive(Drop)]
pub(crate) struct Numbers {
    pub products: Vec<u32>,
    pub places: Vec<u32>,
    pub sites: Vec<u32>,
}
