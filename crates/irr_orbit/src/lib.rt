//! Sites: the points to which a group of operations carries a point, its site group, and the small representations that
//! both bring to a wave vector (International Tables A; R. A. Evarestov and V. P. Smirnov, Site Symmetry in Crystals).
#![tactic(auto)]

ghost use Rattle.std.specs.Prelude.{ℕ, ◌≡◌, ◌<◌, ◌*◌, ◌⊎◌, List};
ghost use Rattle.std.specs.Int.{◌∣◌};
ghost use Rattle.irr_algebra.specs.Fin.{Fin, to_nat};
ghost use Rattle.irr_algebra.specs.Sum.{sum};
ghost use Rattle.irr_algebra.specs.Matrix.{Matrix, trace};
ghost use Rattle.irr_algebra.specs.Action.{Equivalent};
ghost use Rattle.irr_algebra.specs.Homomorphism.{map_matrix};
ghost use Rattle.irr_algebra.specs.Pair.{times};
ghost use Rattle.irr_number.specs.Lift.{lift};
ghost use Rattle.irr_number.specs.Number.{Number, numbers};
ghost use Rattle.irr_theory.specs.FactorSystem.{Representation};
ghost use Rattle.irr_rational.specs.Integer.{whole_matrix};
ghost use Rattle.irr_space.specs.Operation.{Operation, Vector, WaveVector, ◌⊙◌, identity, translation};
ghost use Rattle.irr_space.specs.SpaceGroup.{Generated, IsExponent, IsTranslation};
ghost use Rattle.irr_space.specs.Reciprocal.{Sign};
ghost use Rattle.irr_space.specs.CanonicalOperation.{IsNumbering};
ghost use Rattle.irr_space.specs.Star.{IsInLittleGroup};
ghost use Rattle.irr_space.specs.PhaseTable.{PhaseTable, IsTableOf, phases_over};
ghost use Rattle.irr_cocycle.specs.SpaceGroupLaws.{IsGroup, HasCanonical};
ghost use Rattle.irr_orbit.specs.Site.{Orbit, IsSiteNumbering, DifferBy, AreTogether, image, carrier, site};
ghost use Rattle.irr_orbit.specs.SiteTable.{IsSiteTable};
ghost use Rattle.irr_orbit.specs.SiteFamily.{IsInduced, IsDisplacement, IsMonomial, AreTerms};

/// Each point has its orbit, where it is decided which vectors are in T: the definitions of sites and of site groups
/// can be met.
pub fn orbits_exist()
    ensures { (generators : List Operation) → IsGroup (Generated generators) → HasCanonical (Generated generators) →
        ((t : Vector) → IsTranslation (Generated generators) t ⊎ (IsTranslation (Generated generators) t → ⊥)) →
        (c : ℕ) (ops : Fin c → Operation) → IsNumbering (Generated generators) (λ _. Unit {0}) ops → (x : Vector) →
        (O : Orbit (Generated generators) x) × (O.count ≡ c) }
{}

/// A point has one orbit: the same number of sites, with the same operations that carry it there, and the same
/// operations of its site group, in the same order.
pub fn one_orbit_of_a_point()
    ensures { (generators : List Operation) → IsGroup (Generated generators)
        → (x : Vector) (O P : Orbit (Generated generators) x) →
        (O.sites ≡ P.sites) × (O.places ≡ P.places)
        × ((a : Fin O.sites) (b : Fin P.sites) → to_nat a ≡ to_nat b → carrier O a ≡ carrier P b)
        × ((i : Fin O.places) (j : Fin P.places) → to_nat i ≡ to_nat j → O.operation i ≡ P.operation j) }
{}

/// The first site is the point itself: it is carried there by the unit operation.
pub fn first_site_is_the_point()
    ensures { (generators : List Operation) → IsGroup (Generated generators) → HasCanonical (Generated generators) →
        (x : Vector) (O : Orbit (Generated generators) x) →
        (a : Fin O.sites) × (to_nat a ≡ 0) × (carrier O a ≡ identity) × (site O a ≡ x) }
{}

/// Each operation of G carries each site to exactly one site, and a vector of T.
pub fn operations_carry_sites_to_sites()
    ensures { (generators : List Operation) → IsGroup (Generated generators) → HasCanonical (Generated generators) →
        (x : Vector) (O : Orbit (Generated generators) x) (g : Operation) → Generated generators g → (a : Fin O.sites) →
        (b : Fin O.sites) × AreTogether (Generated generators) (image g (site O a)) (site O b)
        × ((c : Fin O.sites) → AreTogether (Generated generators) (image g (site O a)) (site O c) → c ≡ b) }
{}

/// Each operation of G carries exactly one site to each site, and a vector of T: so it permutes the sites.
pub fn operations_reach_each_site()
    ensures { (generators : List Operation) → IsGroup (Generated generators) → HasCanonical (Generated generators) →
        (x : Vector) (O : Orbit (Generated generators) x) (g : Operation) → Generated generators g → (b : Fin O.sites) →
        (a : Fin O.sites) × AreTogether (Generated generators) (image g (site O a)) (site O b)
        × ((c : Fin O.sites) → AreTogether (Generated generators) (image g (site O c)) (site O b) → c ≡ a) }
{}

/// Where g carries the a-th site to the b-th and the vector t of T, h_b^-1 (1|-t) g h_a is exactly one operation of
/// the site group.
pub fn rests_are_in_site_groups()
    ensures { (generators : List Operation) → IsGroup (Generated generators) →
        (x : Vector) (O : Orbit (Generated generators) x) (g : Operation) → Generated generators g
        → (a b : Fin O.sites) (t : Vector) →
        DifferBy (Generated generators) t (image g (site O a)) (site O b) →
        (n : Fin O.places) × (g ⊙ carrier O a ≡ (translation t ⊙ carrier O b) ⊙ O.operation n)
        × ((m : Fin O.places) → g ⊙ carrier O a ≡ (translation t ⊙ carrier O b) ⊙ O.operation m → m ≡ n) }
{}

/// The sites are as many as the cosets of the site group: their number times its order is the number of canonical
/// operations of G.
pub fn sites_times_places()
    ensures { (generators : List Operation) → IsGroup (Generated generators) → HasCanonical (Generated generators) →
        (x : Vector) (O : Orbit (Generated generators) x) → O.sites * O.places ≡ O.count }
{}

/// The operations of a site group have a table without phases, of each order that the exponent of G divides.
pub fn site_groups_have_tables()
    ensures { (generators : List Operation) → IsGroup (Generated generators) →
        (x : Vector) (h : ℕ) (ops : Fin h → Operation) → IsSiteNumbering (Generated generators) x ops →
        (e n : ℕ) → IsExponent (Generated generators) e → e ∣ n → 0 < n → (T : PhaseTable h) × IsSiteTable n ops T }
{}

/// The family that a representation of the site group induces is a small representation of the little group of k, and
/// its matrices are the only ones of this description.
pub fn induced_families_are_small_representations()
    ensures { (generators : List Operation) → IsGroup (Generated generators) → HasCanonical (Generated generators) →
        (s : Sign) (k : WaveVector) (h : ℕ) (ops : Fin h → Operation) →
        IsNumbering (Generated generators) (IsInLittleGroup (Generated generators) k) ops →
        (T : PhaseTable h) → IsTableOf s (Generated generators) k ops T → (M : ℕ) → 0 < M → (v : T.order ∣ M) →
        (x : Vector) (O : Orbit (Generated generators) x) (n : ℕ) (U : PhaseTable O.places)
        → IsSiteTable n O.operation U →
        (u : U.order ∣ M) (d : ℕ) (r : Representation (phases_over U M u) d) →
        (D : Representation (phases_over T M v) (times O.sites d)) × ((i : Fin h)
        → IsInduced s k M O r.at (ops i) (D.at i))
        × ((i : Fin h) (m : Matrix (numbers M) (times O.sites d) (times O.sites d))
        → IsInduced s k M O r.at (ops i) m → m ≡ D.at i) }
{}

/// The family of displacements is a small representation of the little group of k, and its matrices are the only ones
/// of this description.
pub fn displacements_are_small_representations()
    ensures { (generators : List Operation) → IsGroup (Generated generators) → HasCanonical (Generated generators) →
        (s : Sign) (k : WaveVector) (h : ℕ) (ops : Fin h → Operation) →
        IsNumbering (Generated generators) (IsInLittleGroup (Generated generators) k) ops →
        (T : PhaseTable h) → IsTableOf s (Generated generators) k ops T → (M : ℕ) → 0 < M → (v : T.order ∣ M) →
        (x : Vector) (O : Orbit (Generated generators) x) →
        (D : Representation (phases_over T M v) (times O.sites 3)) × ((i : Fin h)
        → IsDisplacement s k M O (ops i) (D.at i))
        × ((i : Fin h) (m : Matrix (numbers M) (times O.sites 3) (times O.sites 3))
        → IsDisplacement s k M O (ops i) m → m ≡ D.at i) }
{}

/// The family of displacements is equivalent to that which the vector representation of the site group induces.
pub fn displacements_are_induced()
    ensures { (generators : List Operation) → IsGroup (Generated generators) → HasCanonical (Generated generators) →
        (s : Sign) (k : WaveVector) (h : ℕ) (ops : Fin h → Operation) →
        IsNumbering (Generated generators) (IsInLittleGroup (Generated generators) k) ops →
        (T : PhaseTable h) → IsTableOf s (Generated generators) k ops T → (M : ℕ) → 0 < M → T.order ∣ M →
        (x : Vector) (O : Orbit (Generated generators) x) (n : ℕ) (U : PhaseTable O.places)
        → IsSiteTable n O.operation U →
        (u : U.order ∣ M) → (r : Representation (phases_over U M u) 3)
        × ((l : Fin O.places) → r.at l ≡ whole_matrix (numbers M) (O.operation l).rotation)
        × ((A D : Fin h → Matrix (numbers M) (times O.sites 3) (times O.sites 3)) → ((i : Fin h)
        → IsInduced s k M O r.at (ops i) (A i)) →
        ((i : Fin h) → IsDisplacement s k M O (ops i) (D i)) → Equivalent A D) }
{}

/// Over the numbers of a multiple L of the order M the induced matrices are the same: those that the same
/// representation induces.
pub fn induced_matrices_over_multiples()
    ensures { (generators : List Operation) → IsGroup (Generated generators) → HasCanonical (Generated generators) →
        (s : Sign) (k : WaveVector) (h : ℕ) (ops : Fin h → Operation) →
        IsNumbering (Generated generators) (IsInLittleGroup (Generated generators) k) ops →
        (T : PhaseTable h) → IsTableOf s (Generated generators) k ops T → (M : ℕ) (positive : 0 < M) → T.order ∣ M →
        (x : Vector) (O : Orbit (Generated generators) x) (L : ℕ) → 0 < L → (w : M ∣ L) →
        (d : ℕ) (r : Fin O.places
        → Matrix (numbers M) d d) (g : Operation) (m : Matrix (numbers M) (times O.sites d) (times O.sites d)) →
        IsInduced s k M O r g m →
        IsInduced s k L O (λ n. map_matrix (lift M L positive w) (r n)) g (map_matrix (lift M L positive w) m) }
{}

/// Over the numbers of a multiple L of the order M the matrices of displacements are the same.
pub fn displacements_over_multiples()
    ensures { (generators : List Operation) → IsGroup (Generated generators) → HasCanonical (Generated generators) →
        (s : Sign) (k : WaveVector) (h : ℕ) (ops : Fin h → Operation) →
        IsNumbering (Generated generators) (IsInLittleGroup (Generated generators) k) ops →
        (T : PhaseTable h) → IsTableOf s (Generated generators) k ops T → (M : ℕ) (positive : 0 < M) → T.order ∣ M →
        (x : Vector) (O : Orbit (Generated generators) x) (L : ℕ) → 0 < L → (w : M ∣ L) →
        (g : Operation) (m : Matrix (numbers M) (times O.sites 3) (times O.sites 3)) → IsDisplacement s k M O g m →
        IsDisplacement s k L O g (map_matrix (lift M L positive w) m) }
{}

/// An induced matrix is monomial in blocks: in each row and in each column exactly one block is not 0.
pub fn induced_matrices_are_monomial()
    ensures { (generators : List Operation) → IsGroup (Generated generators) → HasCanonical (Generated generators) →
        (s : Sign) (k : WaveVector) (h : ℕ) (ops : Fin h → Operation) →
        IsNumbering (Generated generators) (IsInLittleGroup (Generated generators) k) ops →
        (T : PhaseTable h) → IsTableOf s (Generated generators) k ops T → (M : ℕ) → 0 < M → T.order ∣ M →
        (x : Vector) (O : Orbit (Generated generators) x) (n : ℕ) (U : PhaseTable O.places)
        → IsSiteTable n O.operation U →
        (u : U.order ∣ M) (d : ℕ) → 0 < d → (r : Representation (phases_over U M u) d) (i : Fin h)
        (m : Matrix (numbers M) (times O.sites d) (times O.sites d)) → IsInduced s k M O r.at (ops i) m
        → IsMonomial O.sites d m }
{}

/// A matrix of displacements is monomial in blocks.
pub fn displacements_are_monomial()
    ensures { (generators : List Operation) → IsGroup (Generated generators) → HasCanonical (Generated generators) →
        (s : Sign) (k : WaveVector) (h : ℕ) (ops : Fin h → Operation) →
        IsNumbering (Generated generators) (IsInLittleGroup (Generated generators) k) ops →
        (T : PhaseTable h) → IsTableOf s (Generated generators) k ops T → (M : ℕ) → 0 < M → T.order ∣ M →
        (x : Vector) (O : Orbit (Generated generators) x) (i : Fin h)
        (m : Matrix (numbers M) (times O.sites 3) (times O.sites 3)) → IsDisplacement s k M O (ops i) m
        → IsMonomial O.sites 3 m }
{}

/// The trace of an induced matrix is the sum over the sites that g keeps modulo T.
pub fn trace_of_induced()
    ensures { (generators : List Operation) → IsGroup (Generated generators) → HasCanonical (Generated generators) →
        (s : Sign) (k : WaveVector) (h : ℕ) (ops : Fin h → Operation) →
        IsNumbering (Generated generators) (IsInLittleGroup (Generated generators) k) ops →
        (T : PhaseTable h) → IsTableOf s (Generated generators) k ops T → (M : ℕ) → 0 < M → T.order ∣ M →
        (x : Vector) (O : Orbit (Generated generators) x) (d : ℕ) (r : Fin O.places
        → Matrix (numbers M) d d) (i : Fin h)
        (m : Matrix (numbers M) (times O.sites d) (times O.sites d)) → IsInduced s k M O r (ops i) m →
        (f : Fin O.sites → Number M) → AreTerms s k M O (λ n. trace (r n)) (ops i) f
        → trace m ≡ sum (numbers M) O.sites f }
{}

/// The trace of a matrix of displacements is the sum over the sites that g keeps modulo T, each with the trace of the
/// rotation.
pub fn trace_of_displacement()
    ensures { (generators : List Operation) → IsGroup (Generated generators) → HasCanonical (Generated generators) →
        (s : Sign) (k : WaveVector) (h : ℕ) (ops : Fin h → Operation) →
        IsNumbering (Generated generators) (IsInLittleGroup (Generated generators) k) ops →
        (T : PhaseTable h) → IsTableOf s (Generated generators) k ops T → (M : ℕ) → 0 < M → T.order ∣ M →
        (x : Vector) (O : Orbit (Generated generators) x) (i : Fin h)
        (m : Matrix (numbers M) (times O.sites 3) (times O.sites 3)) → IsDisplacement s k M O (ops i) m →
        (f : Fin O.sites → Number M) →
        AreTerms s k M O (λ n. trace (whole_matrix (numbers M) (ops i).rotation)) (ops i) f
        → trace m ≡ sum (numbers M) O.sites f }
{}
