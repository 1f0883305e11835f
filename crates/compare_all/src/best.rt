//! The best of the rows of a comparison.
ghost use Rattle.std.specs.Prelude.{◌≡◌, ◌≤◌, length};
ghost use Rattle.program_model.specs.Compare.{best, spread};

use program_model::compare::CompareRow;

/// The number of the row whose lags lie least apart, counted from 0; of equal ones the first, and 0 where there is no
/// row. Takes no memory.
pub fn best(rows: &[CompareRow]) -> u32
    requires { length rows.now ≤ 4294967296 }
    ensures { result ≡ best rows.now }
{
    let mut place = 0;
    for k in 1..rows.len() {
        if spread(rows[k]) < spread(rows[place]) {
            place = k;
        }
    }
    place as u32
}

// How far the lags of a row lie apart, in microseconds of work.
fn spread(row: CompareRow) -> i128
    ensures { result ≡ spread row }
{
    row.greatest as i128 - row.least as i128
}
