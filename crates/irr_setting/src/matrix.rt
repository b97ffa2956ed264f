// Rows of three whole numbers: products, vector products, determinants.
ghost use Rattle.std.specs.Prelude.{ℕ, ◌≡◌, ◌<◌, ◌≤◌, ◌^◌, ◌+ℤ◌, ◌*ℤ◌, ◌-ℤ◌, pos, [], slice_index_or, unsigned_abs};
ghost use Rattle.irr_algebra.specs.Fin.{Fin, to_nat};
ghost use Rattle.irr_number.specs.Integers.{integers};
ghost use Rattle.irr_rational.specs.Ratio.{entry};
ghost use Rattle.irr_seitz.specs.OperationMeaning.{AreWithin};
ghost use Rattle.irr_seitz.specs.Rotation.{rotation_of, IsWithin};
ghost use Rattle.irr_setting.specs.Determinant.{row_dot, cross_at, column_dot, determinant_in, cofactor};

/// The three numbers of a row.
pub fn wide(row: &[i64; 3]) -> [i128; 3]
    ensures { (i : Fin 3) → entry result i ≡ entry row.now i }
{
    [i128::from(row[0]), i128::from(row[1]), i128::from(row[2])]
}

/// A product.
pub fn product(x: i128, y: i128) -> i128
    requires left { unsigned_abs x ≤ 2 ^ 60 }
    requires right { unsigned_abs y ≤ 2 ^ 60 }
    ensures value { result ≡ x *ℤ y }
    ensures small { unsigned_abs result ≤ 2 ^ 120 }
{
    x * y
}

fn sum(x: i128, y: i128, z: i128) -> i128
    requires x { unsigned_abs x ≤ 2 ^ 120 }
    requires y { unsigned_abs y ≤ 2 ^ 120 }
    requires z { unsigned_abs z ≤ 2 ^ 120 }
    ensures value { result ≡ (x +ℤ y) +ℤ z }
    ensures small { unsigned_abs result ≤ 2 ^ 122 }
{
    x + y + z
}

/// A sum of two.
pub fn plus(x: i128, y: i128) -> i128
    requires x { unsigned_abs x ≤ 2 ^ 120 }
    requires y { unsigned_abs y ≤ 2 ^ 120 }
    ensures { result ≡ x +ℤ y }
{
    x + y
}

/// A difference.
pub fn difference(x: i128, y: i128) -> i128
    requires x { unsigned_abs x ≤ 2 ^ 120 }
    requires y { unsigned_abs y ≤ 2 ^ 120 }
    ensures { result ≡ x -ℤ y }
{
    x - y
}

/// A row times a column.
pub fn dot(x: &[i128; 3], y: &[i128; 3]) -> i128
    requires left { AreWithin (2 ^ 60) x.now }
    requires right { AreWithin (2 ^ 60) y.now }
    ensures value { result ≡ row_dot x.now y.now }
    ensures small { unsigned_abs result ≤ 2 ^ 122 }
{
    sum(
        product(x[0], y[0]),
        product(x[1], y[1]),
        product(x[2], y[2]),
    )
}

fn cross_at(x: &[i128; 3], y: &[i128; 3], j: usize, k: usize) -> i128
    requires j { j < 3 }
    requires k { k < 3 }
    requires left { AreWithin (2 ^ 60) x.now }
    requires right { AreWithin (2 ^ 60) y.now }
    ensures { result ≡ cross_at x.now y.now j k }
{
    difference(product(x[j], y[k]), product(x[k], y[j]))
}

// The vector product of two rows.
fn cross(x: &[i128; 3], y: &[i128; 3]) -> [i128; 3]
    requires left { AreWithin (2 ^ 60) x.now }
    requires right { AreWithin (2 ^ 60) y.now }
    ensures x { slice_index_or result 0 (pos 0) ≡ cross_at x.now y.now 1 2 }
    ensures y { slice_index_or result 1 (pos 0) ≡ cross_at x.now y.now 2 0 }
    ensures z { slice_index_or result 2 (pos 0) ≡ cross_at x.now y.now 0 1 }
{
    [
        cross_at(x, y, 1, 2),
        cross_at(x, y, 2, 0),
        cross_at(x, y, 0, 1),
    ]
}

/// The cofactors of three rows.
pub fn cofactors(num: &[[i64; 3]; 3]) -> [[i128; 3]; 3]
    requires { IsWithin (10 ^ 4) (rotation_of num.now) }
    ensures value { (i j : Fin 3) → (rotation_of result).at i j ≡ cofactor (rotation_of num.now) i j }
    ensures small { IsWithin (2 ^ 60) (rotation_of result) }
{
    let (x, y, z) = (wide(&num[0]), wide(&num[1]), wide(&num[2]));
    [cross(&y, &z), cross(&z, &x), cross(&x, &y)]
}

/// The determinant of three rows.
pub fn determinant(num: &[[i64; 3]; 3]) -> i128
    requires { IsWithin (10 ^ 4) (rotation_of num.now) }
    ensures value { result ≡ determinant_in integers (rotation_of num.now) }
    ensures small { unsigned_abs result ≤ 2 ^ 60 }
{
    let cofactors = cofactors(num);
    dot(&wide(&num[0]), &cofactors[0])
}

/// The three numbers of a row of a rotation.
pub fn short(row: &[i16; 3]) -> [i128; 3]
    ensures { (i : Fin 3) → entry result i ≡ entry row.now i }
{
    [i128::from(row[0]), i128::from(row[1]), i128::from(row[2])]
}

fn column(m: &[[i16; 3]; 3], j: usize) -> [i128; 3]
    requires { j < 3 }
    ensures { (i : Fin 3) → entry result i ≡ slice_index_or (slice_index_or m.now (to_nat i) []) j (pos 0) }
{
    [
        i128::from(m[0][j]),
        i128::from(m[1][j]),
        i128::from(m[2][j]),
    ]
}

fn column_dot(x: &[i128; 3], m: &[[i16; 3]; 3], j: usize) -> i128
    requires j { j < 3 }
    requires row { AreWithin (2 ^ 40) x.now }
    requires within { IsWithin 9 (rotation_of m.now) }
    ensures value { result ≡ column_dot x.now m.now j }
    ensures small { unsigned_abs result ≤ 2 ^ 60 }
{
    dot(x, &column(m, j))
}

/// A row times a rotation.
pub fn turned(x: &[i128; 3], rot: &[[i16; 3]; 3]) -> [i128; 3]
    requires row { AreWithin (2 ^ 40) x.now }
    requires within { IsWithin 9 (rotation_of rot.now) }
    ensures value { (i : Fin 3) → entry result i ≡ column_dot x.now rot.now (to_nat i) }
    ensures small { AreWithin (2 ^ 60) result }
{
    [
        column_dot(x, rot, 0),
        column_dot(x, rot, 1),
        column_dot(x, rot, 2),
    ]
}
