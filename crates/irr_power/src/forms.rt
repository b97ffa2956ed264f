// Numbers of components of tensors, and traces of operations on them.
ghost use Rattle.std.specs.Prelude.{ℕ, ◌≡◌, ◌<◌, ◌≤◌, ◌^◌, ◌+ℤ◌, ◌-ℤ◌, ◌*ℤ◌, pos, [], slice_index_or, unsigned_abs};
ghost use Rattle.irr_algebra.specs.Fin.{Fin, to_nat};
ghost use Rattle.irr_algebra.specs.Matrix.{trace};
ghost use Rattle.irr_number.specs.Number.{numbers};
ghost use Rattle.irr_rational.specs.Integer.{integer};
ghost use Rattle.irr_seitz.specs.OperationMeaning.{operation};
ghost use Rattle.irr_seitz.specs.Rotation.{IsWithin};
ghost use Rattle.irr_power.specs.FormTraces.{minor, principal_minors, rotation_trace};
ghost use Rattle.irr_power.specs.Tensors.{form_matrix, form_size};

use irr_input::Form;
use irr_seitz::Op;

/// The number of components of the tensors of a form.
pub(crate) fn form_size(form: Form) -> u32
    ensures { result ≡ form_size form }
{
    match form {
        Form::Rank1 => 3,
        Form::Rank2 => 9,
        Form::Rank3 => 27,
        Form::Rank4 => 81,
        Form::Sym2 => 6,
        Form::Anti2 => 3,
    }
}

/// The trace of an operation on the tensors of a form, from the trace t of its rotation R: a power of t, or for the
/// antisymmetric tensors (t^2 - tr(R R))/2, which is the sum of the principal minors of R, or for the symmetric ones
/// what that lacks to t^2.
pub(crate) fn form_trace(form: Form, op: &Op) -> i64
    requires within { IsWithin 9 (operation op.now).rotation }
    ensures value { (n : ℕ) → integer (numbers n) result ≡ trace (form_matrix (numbers n) form (operation op.now)) }
    ensures small { unsigned_abs result ≤ 2 ^ 20 }
{
    let trace = vector_trace(op);
    match form {
        Form::Rank1 => trace,
        Form::Rank2 => second_power(trace),
        Form::Rank3 => third_power(trace),
        Form::Rank4 => fourth_power(trace),
        Form::Sym2 => rest_of(second_power(trace), minors(op)),
        Form::Anti2 => minors(op),
    }
}

// The trace of the rotation.
fn vector_trace(op: &Op) -> i64
    requires within { IsWithin 9 (operation op.now).rotation }
    ensures value { result ≡ rotation_trace (operation op.now).rotation }
    ensures small { unsigned_abs result ≤ 27 }
{
    sum_of_entries(entry(op, 0, 0), entry(op, 1, 1), entry(op, 2, 2))
}

// The sum of the principal minors of two rows.
fn minors(op: &Op) -> i64
    requires within { IsWithin 9 (operation op.now).rotation }
    ensures value { result ≡ principal_minors (operation op.now).rotation }
    ensures small { unsigned_abs result ≤ 486 }
{
    sum_of_minors(minor(op, 0, 1), minor(op, 0, 2), minor(op, 1, 2))
}

// The principal minor of two rows.
fn minor(op: &Op, i: usize, j: usize) -> i64
    requires within { IsWithin 9 (operation op.now).rotation }
    requires row { i < 3 }
    requires other_row { j < 3 }
    ensures value { (a b : Fin 3) → to_nat a ≡ i → to_nat b ≡ j → result ≡ minor (operation op.now).rotation a b }
    ensures small { unsigned_abs result ≤ 162 }
{
    let diagonal = product(entry(op, i, i), entry(op, j, j));
    let other = product(entry(op, i, j), entry(op, j, i));
    difference(diagonal, other)
}

fn sum_of_entries(x: i64, y: i64, z: i64) -> i64
    requires first { unsigned_abs x ≤ 9 }
    requires second { unsigned_abs y ≤ 9 }
    requires third { unsigned_abs z ≤ 9 }
    ensures value { result ≡ (x +ℤ y) +ℤ z }
    ensures small { unsigned_abs result ≤ 27 }
{
    x + y + z
}

fn sum_of_minors(x: i64, y: i64, z: i64) -> i64
    requires first { unsigned_abs x ≤ 162 }
    requires second { unsigned_abs y ≤ 162 }
    requires third { unsigned_abs z ≤ 162 }
    ensures value { result ≡ (x +ℤ y) +ℤ z }
    ensures small { unsigned_abs result ≤ 486 }
{
    x + y + z
}

fn difference(x: i64, y: i64) -> i64
    requires first { unsigned_abs x ≤ 81 }
    requires second { unsigned_abs y ≤ 81 }
    ensures value { result ≡ x -ℤ y }
    ensures small { unsigned_abs result ≤ 162 }
{
    x - y
}

// A product of entries.
fn product(x: i64, y: i64) -> i64
    requires first { unsigned_abs x ≤ 9 }
    requires second { unsigned_abs y ≤ 9 }
    ensures value { result ≡ x *ℤ y }
    ensures small { unsigned_abs result ≤ 81 }
{
    x * y
}

// An entry of the rotation.
fn entry(op: &Op, i: usize, j: usize) -> i64
    requires within { IsWithin 9 (operation op.now).rotation }
    requires row { i < 3 }
    requires column { j < 3 }
    ensures value { (a b : Fin 3) → to_nat a ≡ i → to_nat b ≡ j → result ≡ (operation op.now).rotation.at a b }
    ensures small { unsigned_abs result ≤ 9 }
{
    number_at(&op.rot, i, j)
}

fn number_at(rot: &[[i16; 3]; 3], i: usize, j: usize) -> i64
    requires row { i < 3 }
    requires column { j < 3 }
    ensures { result ≡ slice_index_or (slice_index_or rot.now i []) j (pos 0) }
{
    i64::from(rot[i][j])
}

fn second_power(x: i64) -> i64
    requires { unsigned_abs x ≤ 27 }
    ensures value { result ≡ x *ℤ x }
    ensures small { unsigned_abs result ≤ 729 }
{
    x * x
}

// What a sum of minors lacks to a square of a trace.
fn rest_of(square: i64, minors: i64) -> i64
    requires first { unsigned_abs square ≤ 729 }
    requires second { unsigned_abs minors ≤ 486 }
    ensures value { result ≡ square -ℤ minors }
    ensures small { unsigned_abs result ≤ 1215 }
{
    square - minors
}

fn third_power(x: i64) -> i64
    requires { unsigned_abs x ≤ 27 }
    ensures value { result ≡ (x *ℤ x) *ℤ x }
    ensures small { unsigned_abs result ≤ 19683 }
{
    second_power(x) * x
}

fn fourth_power(x: i64) -> i64
    requires { unsigned_abs x ≤ 27 }
    ensures value { result ≡ ((x *ℤ x) *ℤ x) *ℤ x }
    ensures small { unsigned_abs result ≤ 531441 }
{
    third_power(x) * x
}
