ghost use Rattle.std.specs.Prelude.{ℕ, ◌≡◌, ◌<◌, ◌⊎◌, List};
ghost use Rattle.std.specs.Int.{◌∣◌};
ghost use Rattle.irr_algebra.specs.Fin.{Fin, to_nat};
ghost use Rattle.irr_algebra.specs.Matrix.{Matrix, scale, trace};
ghost use Rattle.irr_number.specs.Number.{numbers, root_power};
ghost use Rattle.irr_theory.specs.FactorSystem.{Representation};
ghost use Rattle.irr_eigen.specs.Power.{power, Root};
ghost use Rattle.irr_clifford.specs.Subgroup.{Subgroup};
ghost use Rattle.irr_clifford.specs.Cyclic.{conjugate, CyclicQuotient, power_phase};
ghost use Rattle.irr_space.specs.PhaseTable.{exponents_below, phases_over, PhaseTable};
ghost use Rattle.irr_rep.specs.Subgroup.{IsRestriction};
ghost use Rattle.irr_chain.specs.NormalSubgroup.{IsGenerated, IsNormalOfIndex};
ghost use Rattle.irr_level.specs.Scalar.{conjugate_exponent, HasPowerScalar, IsRootSum, phase_number};

/// Let the members be a subgroup of a table of phases of the order N, normal of index p, 2 or 3, in the subgroup that they and g
/// generate. Over the numbers of an order M that N divides, as N itself, let D be a family on the members, and u a matrix of trace
/// other than 0 with z^x(n',g) u D(n) = z^x(g,n) D(n') u for each member n, where n' = g n g^-1. Let y be the sum of x(g, g^a) over a
/// below p, and u^p = c z^y D(g^p). Then c has a p-th root among the numbers of order M. And some sum s of powers of z, made by taking
/// one p-th root of each eigenvalue of z^y D(g^p) as often as it occurs, has s^p c = (trace u)^p. (The family need not be simple.)
pub fn roots_of_scalars()
    ensures root { (h n : ℕ) (T : PhaseTable h) (members outer : List ℕ) (S : PhaseTable n) (p : ℕ) (g : Fin h) → (p ≡ 2) ⊎ (p ≡ 3)
        → IsNormalOfIndex T members outer p → IsGenerated T members (to_nat g) outer → (restriction : IsRestriction T members S)
        → (M : ℕ) → T.order ∣ M → (w : S.order ∣ M) → 0 < M
        → (d : ℕ) (D : Representation (phases_over S M w) d) (u : Matrix (numbers M) d d) (c : (numbers M).Carrier)
        → HasPowerScalar restriction M w g p D u c → (trace u ≡ (numbers M).zero → ⊥) → Root (numbers M) p c }
    ensures sum { (h n : ℕ) (T : PhaseTable h) (members outer : List ℕ) (S : PhaseTable n) (p : ℕ) (g : Fin h) → (p ≡ 2) ⊎ (p ≡ 3)
        → IsNormalOfIndex T members outer p → IsGenerated T members (to_nat g) outer → (restriction : IsRestriction T members S)
        → (M : ℕ) → T.order ∣ M → (w : S.order ∣ M) → 0 < M
        → (d : ℕ) (D : Representation (phases_over S M w) d) (u : Matrix (numbers M) d d) (c : (numbers M).Carrier)
        → (scalar : HasPowerScalar restriction M w g p D u c) → (trace u ≡ (numbers M).zero → ⊥) → (s : (numbers M).Carrier)
        × IsRootSum T M p (scale (numbers M) (phase_number T M (exponents_below T.start T.product T.exponent g p)) (D.at scalar.top)) s
        × ((numbers M).mul (power (numbers M) s p) c ≡ power (numbers M) (trace u) p) }
{}

/// The phases of a table as powers of z; the phase of the e-th power of a place, z to the sum of x(g, g^a) over a below e; and the
/// conjugate D'(n) = z^(x(n,g) - x(g,n')) D(n'), where n g = g n'. Over the order of the table itself z^x is the power of its own z.
pub fn phases_by_exponents()
    ensures phase { (h : ℕ) (T : PhaseTable h) (M : ℕ) (v : T.order ∣ M) (i j : Fin h) → (phases_over T M v).phase i j ≡ phase_number T M (T.exponent i j) }
    ensures own_order { (h : ℕ) (T : PhaseTable h) (x : ℕ) → phase_number T T.order x ≡ root_power T.order x }
    ensures power { (h : ℕ) (T : PhaseTable h) (M : ℕ) (v : T.order ∣ M) (g : Fin h) (e : ℕ)
        → power_phase (phases_over T M v) g e ≡ phase_number T M (exponents_below T.start T.product T.exponent g e) }
    ensures conjugate { (h : ℕ) (T : PhaseTable h) (M : ℕ) (v : T.order ∣ M) (H : Subgroup (phases_over T M v)) (Q : CyclicQuotient H)
        (d : ℕ) (D : Representation H.table d) (n : Fin H.table.places)
        → conjugate Q D n ≡ scale (numbers M) (phase_number T M (conjugate_exponent T (H.member n) Q.generator (H.member (Q.conj n)))) (D.at (Q.conj n)) }
    ensures conjugate_trace { (h : ℕ) (T : PhaseTable h) (M : ℕ) (v : T.order ∣ M) (H : Subgroup (phases_over T M v)) (Q : CyclicQuotient H)
        (d : ℕ) (D : Representation H.table d) (n : Fin H.table.places) → trace (conjugate Q D n)
        ≡ (numbers M).mul (phase_number T M (conjugate_exponent T (H.member n) Q.generator (H.member (Q.conj n)))) (trace (D.at (Q.conj n))) }
{}
