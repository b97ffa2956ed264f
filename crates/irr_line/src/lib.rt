//! Lines and planes of wave vectors through points k0, k1, ..: their groups, orders and tables of phases, and the small
//! representations at a point read at k0. The functions here state laws and do nothing.
#![tactic(auto)]

ghost use Rattle.std.specs.Int.{◌∣◌};
ghost use Rattle.std.specs.Prelude.{ℕ, suc, ◌≡◌, ◌<◌, ◌+◌, ◌*◌, ◌%◌, ◌↔◌, List};
ghost use Rattle.irr_algebra.specs.Action.{Equivalent, HasDimension};
ghost use Rattle.irr_algebra.specs.Fin.Fin.{first};
ghost use Rattle.irr_algebra.specs.Fin.{Fin, to_nat};
ghost use Rattle.irr_algebra.specs.Matrix.{◌⊕◌, ◌⊖◌, scale, combination};
ghost use Rattle.irr_number.specs.Lift.{lift};
ghost use Rattle.irr_number.specs.Number.{numbers, root_power};
ghost use Rattle.irr_theory.specs.FactorSystem.{Representation};
ghost use Rattle.irr_rational.specs.Rational.{Rational, rationals};
ghost use Rattle.irr_space.specs.CanonicalOperation.{IsNumbering};
ghost use Rattle.irr_space.specs.CompleteList.{over, row};
ghost use Rattle.irr_space.specs.Operation.{Operation, Vector, WaveVector, ◌⊙◌, translation};
ghost use Rattle.irr_space.specs.PhaseTable.{PhaseTable, phases_at, IsTableOf};
ghost use Rattle.irr_space.specs.Reciprocal.{IsOrder, IsPeriod, IsPhase, Sign};
ghost use Rattle.irr_space.specs.SpaceGroup.{Generated, IsExponent, IsTranslation};
ghost use Rattle.irr_space.specs.Star.{IsInLittleGroup};
ghost use Rattle.irr_cocycle.specs.SpaceGroupLaws.{IsGroup, HasCanonical};
ghost use Rattle.irr_line.specs.LineGroup.{IsInLineGroup, IsLineOrder, IsLineTable};
ghost use Rattle.irr_line.specs.Reading.{IsReading, AreTablesAt};

/// An operation of the line group is in the little group of every point.
pub fn line_groups_are_in_little_groups()
    ensures { (generators : List Operation) (n : ℕ) (point : Fin (suc n) → WaveVector) (i : Fin (suc n)) (g : Operation) →
        IsInLineGroup (Generated generators) point g → IsInLittleGroup (Generated generators) (point i) g }
{}

/// The line group has the identity, products and inverses, and all translations of the group.
pub fn line_groups_are_groups()
    ensures { (generators : List Operation) → IsGroup (Generated generators) → (n : ℕ) (point : Fin (suc n) → WaveVector) →
        IsGroup (IsInLineGroup (Generated generators) point)
        × ((t : Vector) → IsTranslation (Generated generators) t → IsInLineGroup (Generated generators) point (translation t)) }
{}

/// The line group has the operations that are in the little group of every wave vector on the line or plane of the points.
pub fn line_groups_keep_lines()
    ensures { (generators : List Operation) (n : ℕ) (point : Fin (suc n) → WaveVector) (g : Operation) →
        IsInLineGroup (Generated generators) point g ↔ ((x : Fin (suc n) → Rational) →
        IsInLittleGroup (Generated generators) (point first ⊕ combination rationals (suc n) x (λ i. point i ⊖ point first)) g) }
{}

/// With one point the line group is the little group, and so is its table.
pub fn lines_of_one_point()
    ensures group { (generators : List Operation) (point : Fin 1 → WaveVector) (g : Operation) →
        IsInLineGroup (Generated generators) point g ↔ IsInLittleGroup (Generated generators) (point first) g }
    ensures table { (generators : List Operation) (s : Sign) (point : Fin 1 → WaveVector) (h : ℕ) (ops : Fin h → Operation) (T : PhaseTable h) →
        IsLineTable s (Generated generators) point ops T ↔ IsTableOf s (Generated generators) (point first) ops T }
{}

/// A line has one order.
pub fn lines_have_one_order()
    ensures { (generators : List Operation) (n : ℕ) (point : Fin (suc n) → WaveVector) (c d : ℕ) →
        IsLineOrder (Generated generators) point c → IsLineOrder (Generated generators) point d → c ≡ d }
{}

/// The order of each point divides that of the line.
pub fn orders_of_points_divide()
    ensures { (generators : List Operation) (n : ℕ) (point : Fin (suc n) → WaveVector) (i : Fin (suc n)) (m order : ℕ) →
        IsOrder (Generated generators) (point i) m → IsLineOrder (Generated generators) point order → m ∣ order }
{}

/// The order of some of the points divides that of all.
pub fn orders_of_some_points_divide()
    ensures { (generators : List Operation) (m n : ℕ) (some : Fin (suc m) → Fin (suc n)) (point : Fin (suc n) → WaveVector) (c d : ℕ) →
        IsLineOrder (Generated generators) (λ i. point (some i)) c → IsLineOrder (Generated generators) point d → c ∣ d }
{}

/// The order of a line is found point after point, by least common multiples.
pub fn orders_point_by_point()
    ensures { (generators : List Operation) (wave : ℕ → WaveVector) (n e m q c : ℕ) → IsExponent (Generated generators) e →
        IsLineOrder (Generated generators) {n = n} (λ i. wave (to_nat i)) (e * m) → IsPeriod (Generated generators) (wave (suc n)) q →
        0 < c → m ∣ c → q ∣ c → ((d : ℕ) → m ∣ d → q ∣ d → c ∣ d) →
        IsLineOrder (Generated generators) {n = suc n} (λ i. wave (to_nat i)) (e * c) }
{}

/// The canonical operations of the line group have a table of phases at the first point, for either sign of the phase.
pub fn line_groups_have_tables()
    ensures { (generators : List Operation) → IsGroup (Generated generators) → HasCanonical (Generated generators) →
        (s : Sign) (n : ℕ) (point : Fin (suc n) → WaveVector) (order h : ℕ) (ops : Fin h → Operation) →
        IsNumbering (Generated generators) (IsInLineGroup (Generated generators) point) ops →
        IsLineOrder (Generated generators) point order → (T : PhaseTable h) × IsLineTable s (Generated generators) point ops T }
{}

/// The canonical operations of a line group have one table: those with its order, products and exponents.
pub fn lines_have_one_table()
    ensures { (generators : List Operation) (s : Sign) (n : ℕ) (point : Fin (suc n) → WaveVector) (h : ℕ) (ops : Fin h → Operation) (T U : PhaseTable h) →
        IsNumbering (Generated generators) (IsInLineGroup (Generated generators) point) ops →
        IsLineTable s (Generated generators) point ops T → IsLineTable s (Generated generators) point ops U ↔
        ((T.order ≡ U.order) × ((i j : Fin h) → (T.product i j ≡ U.product i j) × (T.exponent i j ≡ U.exponent i j))) }
{}

/// An operation (R|v) of the line group has a phase of v at the step from each point to the first one, over the order of the line.
pub fn vectors_have_phases()
    ensures { (generators : List Operation) → IsGroup (Generated generators) → (s : Sign) (n : ℕ) (point : Fin (suc n) → WaveVector) (i : Fin (suc n))
        (order : ℕ) → IsLineOrder (Generated generators) point order → (g : Operation) → IsInLineGroup (Generated generators) point g →
        (x : ℕ) × IsPhase s order (point first ⊖ point i) g.vector x }
{}

/// These phases multiply as the operations do: that of a product is the product of both.
pub fn phases_of_vectors_multiply()
    ensures { (generators : List Operation) (s : Sign) (n : ℕ) (point : Fin (suc n) → WaveVector) (i : Fin (suc n)) (order : ℕ) (g h : Operation) (x y : ℕ) →
        IsInLineGroup (Generated generators) point g → IsPhase s order (point first ⊖ point i) g.vector x →
        IsPhase s order (point first ⊖ point i) h.vector y → IsPhase s order (point first ⊖ point i) (g ⊙ h).vector ((x + y) % order) }
{}

/// A small representation of the little group of a point has a reading at the first point, which is a small representation of the line's table.
pub fn representations_have_readings()
    ensures { (generators : List Operation) → IsGroup (Generated generators) → HasCanonical (Generated generators) →
        (s : Sign) (n : ℕ) (point : Fin (suc n) → WaveVector) (i : Fin (suc n)) (m h : ℕ)
        (line : Fin m → Operation) (L : PhaseTable m) (ops : Fin h → Operation) (T : PhaseTable h) →
        AreTablesAt s (Generated generators) point i line L ops T → (v : T.order ∣ L.order) (d : ℕ) (D : Representation (phases_at T) d) →
        (A : Representation (phases_at L) d) × IsReading s (point first ⊖ point i) line L ops T v D A }
{}

/// The matrices of a reading are those of the small representation, times the phases of the vectors at the step from the point to the first one.
pub fn matrices_of_readings()
    ensures { (generators : List Operation) (s : Sign) (n : ℕ) (point : Fin (suc n) → WaveVector) (i : Fin (suc n)) (m h : ℕ)
        (line : Fin m → Operation) (L : PhaseTable m) (ops : Fin h → Operation) (T : PhaseTable h) →
        AreTablesAt s (Generated generators) point i line L ops T → (v : T.order ∣ L.order)
        (d : ℕ) (D : Representation (phases_at T) d) (A : Representation (phases_at L) d) →
        IsReading s (point first ⊖ point i) line L ops T v D A → (a : Fin m) (b : Fin h) (x : ℕ) → ops b ≡ line a →
        IsPhase s L.order (point first ⊖ point i) (line a).vector x →
        A.at a ≡ scale (numbers L.order) (root_power L.order x) ((over T L.order v D).at b) }
{}

/// So are their traces.
pub fn traces_of_readings()
    ensures { (generators : List Operation) (s : Sign) (n : ℕ) (point : Fin (suc n) → WaveVector) (i : Fin (suc n)) (m h : ℕ)
        (line : Fin m → Operation) (L : PhaseTable m) (ops : Fin h → Operation) (T : PhaseTable h) →
        AreTablesAt s (Generated generators) point i line L ops T → (v : T.order ∣ L.order)
        (d : ℕ) (D : Representation (phases_at T) d) (A : Representation (phases_at L) d) →
        IsReading s (point first ⊖ point i) line L ops T v D A → (a : Fin m) (b : Fin h) (x : ℕ) → ops b ≡ line a →
        IsPhase s L.order (point first ⊖ point i) (line a).vector x →
        row L A a ≡ (numbers L.order).mul (root_power L.order x) ((lift T.order L.order T.order_positive v).map (row T D b)) }
{}

/// A small representation at the first point is read as its restriction.
pub fn readings_at_the_first_point()
    ensures { (generators : List Operation) (s : Sign) (n : ℕ) (point : Fin (suc n) → WaveVector) (m h : ℕ)
        (line : Fin m → Operation) (L : PhaseTable m) (ops : Fin h → Operation) (T : PhaseTable h) →
        AreTablesAt s (Generated generators) point first line L ops T → (v : T.order ∣ L.order)
        (d : ℕ) (D : Representation (phases_at T) d) (A : Representation (phases_at L) d) →
        IsReading s (point first ⊖ point first) line L ops T v D A → (a : Fin m) (b : Fin h) → ops b ≡ line a →
        A.at a ≡ (over T L.order v D).at b }
{}

/// Equivalent small representations have equivalent readings.
pub fn readings_of_equivalent_representations()
    ensures { (generators : List Operation) (s : Sign) (n : ℕ) (point : Fin (suc n) → WaveVector) (i : Fin (suc n)) (m h : ℕ)
        (line : Fin m → Operation) (L : PhaseTable m) (ops : Fin h → Operation) (T : PhaseTable h) →
        AreTablesAt s (Generated generators) point i line L ops T → (v : T.order ∣ L.order)
        (d e : ℕ) (D : Representation (phases_at T) d) (E : Representation (phases_at T) e)
        (A : Representation (phases_at L) d) (B : Representation (phases_at L) e) →
        IsReading s (point first ⊖ point i) line L ops T v D A → IsReading s (point first ⊖ point i) line L ops T v E B →
        Equivalent D.at E.at → Equivalent A.at B.at }
{}

/// So their parts are the same: the spaces of intertwiners to them from equivalent small representations of the line have one dimension.
pub fn parts_of_equivalent_representations()
    ensures { (generators : List Operation) (s : Sign) (n : ℕ) (point : Fin (suc n) → WaveVector) (i : Fin (suc n)) (m h : ℕ)
        (line : Fin m → Operation) (L : PhaseTable m) (ops : Fin h → Operation) (T : PhaseTable h) →
        AreTablesAt s (Generated generators) point i line L ops T → (v : T.order ∣ L.order)
        (d e f g mult : ℕ) (D : Representation (phases_at T) d) (E : Representation (phases_at T) e)
        (A : Representation (phases_at L) d) (B : Representation (phases_at L) e) →
        IsReading s (point first ⊖ point i) line L ops T v D A → IsReading s (point first ⊖ point i) line L ops T v E B →
        Equivalent D.at E.at → (F : Representation (phases_at L) f) (H : Representation (phases_at L) g) → Equivalent F.at H.at →
        HasDimension F.at A.at mult → HasDimension H.at B.at mult }
{}
