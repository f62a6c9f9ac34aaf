// A 40 x 40 matrix, row by row in one array and no array of rows: the definitions (`at2`, `put2`) read one list of
// numbers, and `get` and `put` alone know where a number stands.
ghost use Rattle.std.specs.Prelude.{◌≡◌, ◌<◌, ◌≤◌};
ghost use Rattle.solve.specs.Solve.{at2, put2};

// Of such a matrix what is solved: its first k rows and columns. No `ArrayVec`: that is written from the front, while
// a covariance is put at both its places at once, and the definitions read all 1600 numbers.
#[derive(Drop)]
pub struct Matrix {
    pub k: usize,
    pub a: [f64; 1600],
    ghost most: { k ≤ 40 },
}

// Over the array, since a caller has the matrix that it fills as an array. That i and j, here and in the files beside,
// are below 40 bounds an index: a loop makes it and uses it at once, so that a type of such numbers would be made and
// opened in each turn.
pub fn get(a: &[f64; 1600], i: usize, j: usize) -> f64
    requires { (i < 40) × (j < 40) }
    ensures { result ≡ at2 a.now i j }
{
    a[i * 40 + j]
}

pub fn put(a: &mut [f64; 1600], i: usize, j: usize, x: f64)
    requires { (i < 40) × (j < 40) }
    ensures { a.new ≡ put2 a.old i j x }
{
    a[i * 40 + j] = x;
}
