// Rotations: three rows of three whole numbers.
ghost use Rattle.std.specs.Prelude.{◌≡◌, ◌+◌, ◌%◌, ◌<◌, ◌≤◌, ◌^◌, ◌+ℤ◌, ◌-ℤ◌, ◌*ℤ◌, ◌↔◌, pos, [], unsigned_abs, slice_index_or, IsTrue};
ghost use Rattle.std.specs.Ordering.{MatchOrdering, int_cmp, ordering_then};
ghost use Rattle.irr_algebra.specs.Matrix.{◌·◌, unit};
ghost use Rattle.irr_number.specs.Integers.{integers};
ghost use Rattle.irr_space.specs.CanonicalOperation.{IsRotationBelow};
ghost use Rattle.irr_seitz.specs.Rotation.{rotation_of, IsWithin, determinant};

use std::cmp::Ordering;

const UNIT: [[i16; 3]; 3] = [[1, 0, 0], [0, 1, 0], [0, 0, 1]];

fn sum(x: i64, y: i64, z: i64) -> i64
    requires x { unsigned_abs x ≤ 2 ^ 58 }
    requires y { unsigned_abs y ≤ 2 ^ 58 }
    requires z { unsigned_abs z ≤ 2 ^ 58 }
    ensures value { result ≡ (x +ℤ y) +ℤ z }
    ensures small { unsigned_abs result ≤ 2 ^ 60 }
{
    x + y + z
}

fn weighted(factor: i16, x: i64) -> i64
    requires { unsigned_abs x ≤ 10 ^ 12 }
    ensures value { result ≡ factor *ℤ x }
    ensures small { unsigned_abs result ≤ 2 ^ 55 }
{
    i64::from(factor) * x
}

/// A row times a column.
pub fn dot(row: &[i16; 3], x: i64, y: i64, z: i64) -> i64
    requires x { unsigned_abs x ≤ 10 ^ 12 }
    requires y { unsigned_abs y ≤ 10 ^ 12 }
    requires z { unsigned_abs z ≤ 10 ^ 12 }
    ensures value { result ≡ ((slice_index_or row.now 0 (pos 0) *ℤ x) +ℤ (slice_index_or row.now 1 (pos 0) *ℤ y)) +ℤ (slice_index_or row.now 2 (pos 0) *ℤ z) }
    ensures small { unsigned_abs result ≤ 2 ^ 60 }
{
    sum(
        weighted(row[0], x),
        weighted(row[1], y),
        weighted(row[2], z),
    )
}

fn entry(rot: &[[i16; 3]; 3], i: usize, j: usize) -> i64
    requires row { i < 3 }
    requires place { j < 3 }
    ensures value { result ≡ slice_index_or (slice_index_or rot.now i []) j (pos 0) }
    ensures small { unsigned_abs result ≤ 2 ^ 15 }
{
    i64::from(rot[i][j])
}

fn pair(x: i64, y: i64) -> i64
    requires x { unsigned_abs x ≤ 2 ^ 15 }
    requires y { unsigned_abs y ≤ 2 ^ 15 }
    ensures value { result ≡ x *ℤ y }
    ensures small { unsigned_abs result ≤ 2 ^ 30 }
{
    x * y
}

fn triple(x: i64, y: i64, z: i64) -> i64
    requires x { unsigned_abs x ≤ 2 ^ 15 }
    requires y { unsigned_abs y ≤ 2 ^ 15 }
    requires z { unsigned_abs z ≤ 2 ^ 15 }
    ensures value { result ≡ (x *ℤ y) *ℤ z }
    ensures small { unsigned_abs result ≤ 2 ^ 45 }
{
    pair(x, y) * z
}

/// The determinant.
pub fn determinant(rot: &[[i16; 3]; 3]) -> i64
    ensures { result ≡ determinant (rotation_of rot.now) }
{
    let (x, y, z) = (entry(rot, 0, 0), entry(rot, 0, 1), entry(rot, 0, 2));
    let (u, v, w) = (entry(rot, 1, 0), entry(rot, 1, 1), entry(rot, 1, 2));
    let (p, q, r) = (entry(rot, 2, 0), entry(rot, 2, 1), entry(rot, 2, 2));
    let added = sum(triple(x, v, r), triple(y, w, p), triple(z, u, q));
    let taken = sum(triple(z, v, p), triple(y, u, r), triple(x, w, q));
    added - taken
}

fn cmp_at(a: &[[i16; 3]; 3], b: &[[i16; 3]; 3], i: usize, j: usize) -> Ordering
    requires row { i < 3 }
    requires place { j < 3 }
    ensures { result ≡ int_cmp (slice_index_or (slice_index_or a.now i []) j (pos 0)) (slice_index_or (slice_index_or b.now i []) j (pos 0)) }
{
    entry(a, i, j).cmp(&entry(b, i, j))
}

fn cmp_row(a: &[[i16; 3]; 3], b: &[[i16; 3]; 3], i: usize) -> Ordering
    requires { i < 3 }
    ensures { result ≡ ordering_then
        (ordering_then
        (int_cmp (slice_index_or (slice_index_or a.now i []) 0 (pos 0)) (slice_index_or (slice_index_or b.now i []) 0 (pos 0)))
        (int_cmp (slice_index_or (slice_index_or a.now i []) 1 (pos 0)) (slice_index_or (slice_index_or b.now i []) 1 (pos 0))))
        (int_cmp (slice_index_or (slice_index_or a.now i []) 2 (pos 0)) (slice_index_or (slice_index_or b.now i []) 2 (pos 0))) }
{
    cmp_at(a, b, i, 0)
        .then(cmp_at(a, b, i, 1))
        .then(cmp_at(a, b, i, 2))
}

/// The order of the nine entries, row by row.
pub fn cmp(a: &[[i16; 3]; 3], b: &[[i16; 3]; 3]) -> Ordering
    ensures { MatchOrdering result
        (IsRotationBelow (rotation_of a.now) (rotation_of b.now))
        (rotation_of a.now ≡ rotation_of b.now)
        (IsRotationBelow (rotation_of b.now) (rotation_of a.now)) }
{
    cmp_row(a, b, 0)
        .then(cmp_row(a, b, 1))
        .then(cmp_row(a, b, 2))
}

/// Whether a rotation is the unit.
pub fn is_unit(rot: &[[i16; 3]; 3]) -> bool
    ensures { IsTrue result ↔ (rotation_of rot.now ≡ unit integers 3) }
{
    match cmp(rot, &UNIT) {
        Ordering::Equal => true,
        Ordering::Less => false,
        Ordering::Greater => false,
    }
}

fn product_at(a: &[[i16; 3]; 3], b: &[[i16; 3]; 3], i: usize, j: usize) -> i16
    requires row { i < 3 }
    requires place { j < 3 }
    requires left { IsWithin 9 (rotation_of a.now) }
    requires right { IsWithin 9 (rotation_of b.now) }
    ensures { result ≡ ((slice_index_or (slice_index_or a.now i []) 0 (pos 0) *ℤ slice_index_or (slice_index_or b.now 0 []) j (pos 0))
        +ℤ (slice_index_or (slice_index_or a.now i []) 1 (pos 0) *ℤ slice_index_or (slice_index_or b.now 1 []) j (pos 0)))
        +ℤ (slice_index_or (slice_index_or a.now i []) 2 (pos 0) *ℤ slice_index_or (slice_index_or b.now 2 []) j (pos 0)) }
{
    let sum = dot(&a[i], entry(b, 0, j), entry(b, 1, j), entry(b, 2, j));
    sum as i16
}

/// The product of two rotations.
pub fn product(a: &[[i16; 3]; 3], b: &[[i16; 3]; 3]) -> [[i16; 3]; 3]
    requires left { IsWithin 9 (rotation_of a.now) }
    requires right { IsWithin 9 (rotation_of b.now) }
    ensures { rotation_of result ≡ rotation_of a.now · rotation_of b.now }
{
    [
        [
            product_at(a, b, 0, 0),
            product_at(a, b, 0, 1),
            product_at(a, b, 0, 2),
        ],
        [
            product_at(a, b, 1, 0),
            product_at(a, b, 1, 1),
            product_at(a, b, 1, 2),
        ],
        [
            product_at(a, b, 2, 0),
            product_at(a, b, 2, 1),
            product_at(a, b, 2, 2),
        ],
    ]
}

// The cofactor of an entry, its indices counted round.
fn cofactor(rot: &[[i16; 3]; 3], i: usize, j: usize) -> i64
    requires row { i < 3 }
    requires place { j < 3 }
    requires within { IsWithin 9 (rotation_of rot.now) }
    ensures value { result ≡ ((slice_index_or (slice_index_or rot.now ((i + 1) % 3) []) ((j + 1) % 3) (pos 0) *ℤ slice_index_or (slice_index_or rot.now ((i + 2) % 3) []) ((j + 2) % 3) (pos 0))
        -ℤ (slice_index_or (slice_index_or rot.now ((i + 1) % 3) []) ((j + 2) % 3) (pos 0) *ℤ slice_index_or (slice_index_or rot.now ((i + 2) % 3) []) ((j + 1) % 3) (pos 0))) }
    ensures small { unsigned_abs result ≤ 162 }
{
    let (below, lowest) = ((i + 1) % 3, (i + 2) % 3);
    let (right, last) = ((j + 1) % 3, (j + 2) % 3);
    let main = pair(entry(rot, below, right), entry(rot, lowest, last));
    let other = pair(entry(rot, below, last), entry(rot, lowest, right));
    main - other
}

fn inverse_at(rot: &[[i16; 3]; 3], det: i64, i: usize, j: usize) -> i16
    requires row { i < 3 }
    requires place { j < 3 }
    requires within { IsWithin 9 (rotation_of rot.now) }
    requires det { unsigned_abs det ≤ 1 }
    ensures value { result ≡ det *ℤ ((slice_index_or (slice_index_or rot.now ((j + 1) % 3) []) ((i + 1) % 3) (pos 0) *ℤ slice_index_or (slice_index_or rot.now ((j + 2) % 3) []) ((i + 2) % 3) (pos 0))
        -ℤ (slice_index_or (slice_index_or rot.now ((j + 1) % 3) []) ((i + 2) % 3) (pos 0) *ℤ slice_index_or (slice_index_or rot.now ((j + 2) % 3) []) ((i + 1) % 3) (pos 0))) }
    ensures small { unsigned_abs result ≤ 162 }
{
    let number = det * cofactor(rot, j, i);
    number as i16
}

/// The inverse of a rotation whose determinant is 1 or -1.
pub fn inverse(rot: &[[i16; 3]; 3]) -> [[i16; 3]; 3]
    requires within { IsWithin 9 (rotation_of rot.now) }
    requires unimodular { unsigned_abs (determinant (rotation_of rot.now)) ≡ 1 }
    ensures right { rotation_of rot.now · rotation_of result ≡ unit integers 3 }
    ensures left { rotation_of result · rotation_of rot.now ≡ unit integers 3 }
{
    let det = determinant(rot);
    [
        [
            inverse_at(rot, det, 0, 0),
            inverse_at(rot, det, 0, 1),
            inverse_at(rot, det, 0, 2),
        ],
        [
            inverse_at(rot, det, 1, 0),
            inverse_at(rot, det, 1, 1),
            inverse_at(rot, det, 1, 2),
        ],
        [
            inverse_at(rot, det, 2, 0),
            inverse_at(rot, det, 2, 1),
            inverse_at(rot, det, 2, 2),
        ],
    ]
}
