// Where the blocks of an induced matrix stand, and the exponents of their phases.
ghost use Rattle.std.specs.Prelude.{ℕ, ◌≡◌, ◌<◌, ◌≤◌, ◌*◌};
ghost use Rattle.irr_algebra.specs.Fin.{Fin, to_nat};
ghost use Rattle.irr_space.specs.PhaseTable.{exponents_below, place_power};
ghost use Rattle.irr_clifford.specs.Formulas.{block_phase, coset};
ghost use Rattle.irr_level.specs.Scalar.{phase_number};
ghost use Rattle.irr_cyc.specs.declared.orders.TheConstants.{ORDER_LIMIT};
ghost use Rattle.irr_rep.specs.Twisted.{phase_table, place_count};
ghost use Rattle.irr_climb.specs.Steps.{IsStep};

use crate::step::Step;

// The place of the power b of the generator.
fn generator_power(step: &Step, b: u32) -> u32
    requires step { (M : ℕ) × IsStep M step.now }
    ensures within { result < place_count step.now.outer }
    ensures power { let T = phase_table step.now.outer in (M : ℕ) (is : IsStep M step.now)
        → result ≡ to_nat (place_power T.start T.product is.quotient.generator b) }
{
    let mut power = 0;
    for _ in 0..b {
        power = step.outer.table(step.generator, power);
    }
    power
}

// The exponents of the generator with its powers below the b-th, added up.
fn exponents_of_powers(step: &Step, b: u32) -> u32
    requires step { (M : ℕ) × IsStep M step.now }
    requires few { b ≤ 3 }
    ensures small { result ≤ b * ORDER_LIMIT }
    ensures sum { let T = phase_table step.now.outer in (M : ℕ) (is : IsStep M step.now)
        → result ≡ exponents_below T.start T.product T.exponent is.quotient.generator b }
{
    let mut sum = 0;
    for a in 0..b {
        sum += step.outer.phase(step.generator, generator_power(step, a));
    }
    sum
}

/// The place of x g^b.
pub(crate) fn image_place(step: &Step, x: u32, b: u32) -> u32
    requires step { (M : ℕ) × IsStep M step.now }
    requires place { x < place_count step.now.outer }
    ensures within { result < place_count step.now.outer }
    ensures image { (M : ℕ) (is : IsStep M step.now) (p : Fin (place_count step.now.outer)) (a : Fin is.quotient.index) → to_nat p ≡ x → to_nat a ≡ b
        → result ≡ to_nat ((phase_table step.now.outer).product p (coset is.quotient a)) }
{
    step.outer.table(x, generator_power(step, b))
}

/// The exponent of the phase of the block b at x, up to multiples of the order: with x g^b = g^e n it is
/// w(b) + x(x,g^b) - w(e) - x(g^e,n), where w(b) is the sum of the exponents of g with its powers below the b-th.
pub(crate) fn block_exponent(step: &Step, x: u32, b: u32) -> u32
    requires step { (M : ℕ) × IsStep M step.now }
    requires place { x < place_count step.now.outer }
    requires block { b < step.now.index }
    ensures { (M : ℕ) (is : IsStep M step.now) (p : Fin (place_count step.now.outer)) (a : Fin is.quotient.index) → to_nat p ≡ x → to_nat a ≡ b
        → phase_number (phase_table step.now.outer) M result ≡ block_phase is.quotient p a }
{
    let image = image_place(step, x, b);
    let exponent = step.exponents[image as usize];
    let part = step.parts[image as usize];
    let member = step.members[part as usize];
    let power = generator_power(step, b);
    let top = generator_power(step, exponent);
    let behind = step.outer.phase(x, power);
    let before = step.outer.phase(top, member);
    let first = exponents_of_powers(step, b);
    let second = exponents_of_powers(step, exponent);
    let order = step.outer.order();
    first + behind + (order - 1) * (second + before)
}
