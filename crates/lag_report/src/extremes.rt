//! The least and the greatest lag of a report.
ghost use Rattle.std.specs.Prelude.{◌≡◌};
ghost use Rattle.fq_model.specs.Report.{least_lag, greatest_lag};

use fq_model::lag::TenantLag;

/// The least lag of all tenants, after any slot, in microseconds of work; 0 where there are no tenants.
pub fn least_lag(rows: &[TenantLag]) -> i64
    ensures { result ≡ least_lag rows.now }
{
    if rows.is_empty() {
        return 0;
    }
    let mut place = 0;
    for k in 1..rows.len() {
        if rows[k].least < rows[place].least {
            place = k;
        }
    }
    rows[place].least
}

/// The greatest lag of all tenants, after any slot, in microseconds of work; 0 where there are no tenants.
pub fn greatest_lag(rows: &[TenantLag]) -> i64
    ensures { result ≡ greatest_lag rows.now }
{
    if rows.is_empty() {
        return 0;
    }
    let mut place = 0;
    for k in 1..rows.len() {
        if rows[k].greatest > rows[place].greatest {
            place = k;
        }
    }
    rows[place].greatest
}
