ghost use Rattle.std.specs.Prelude.{ℕ, ◌≡◌, ◌<◌, ◌*◌, ◌/◌};
ghost use Rattle.std.specs.Int.{◌∣◌};
ghost use Rattle.irr_algebra.specs.Fin.{Fin};
ghost use Rattle.irr_number.specs.Number.{root_power};
ghost use Rattle.irr_eigen.specs.Step.{Cycle, HasExponents};
ghost use Rattle.irr_space.specs.PhaseTable.{PhaseTable, IsPlaceOrder, exponents_below, phases_over};

/// In a table of phases of the order N each place has an order. Over an order M that N divides, z^(M/N) is
/// a primitive root of the order N whose powers are the phases, and a place of the order m has a cycle of
/// the length m whose number and root are powers of this root.
pub fn cycles_of_places()
    ensures order { (h : ℕ) (T : PhaseTable h) (g : Fin h) → (m : ℕ) × IsPlaceOrder T.start T.product g m }
    ensures exponents { (h : ℕ) (T : PhaseTable h) (M : ℕ) (v : T.order ∣ M) → 0 < M
        → HasExponents (phases_over T M v) T.order (root_power M (M / T.order)) T.exponent }
    ensures cycle { (h : ℕ) (T : PhaseTable h) (M : ℕ) (v : T.order ∣ M) → 0 < M
        → (g : Fin h) (m : ℕ) → IsPlaceOrder T.start T.product g m
        → (cycle : Cycle (phases_over T M v) g) × (cycle.order ≡ m)
        × (cycle.number ≡ root_power M (exponents_below T.start T.product T.exponent g m / m * (M / T.order)))
        × (cycle.root ≡ root_power M (T.order / m * (M / T.order))) }
{}
