// A model from a power series: its terms expanded in T_0 to T_32 by the table, and the sums rounded.
ghost use Rattle.std.specs.Prelude.{◌≡◌, true, IfOk};
ghost use Rattle.ring.specs.definitions.Integer.{ℤ_ring};
ghost use Rattle.chebyshev.specs.definitions.Coefficients.{add_lists, scale_list};
ghost use Rattle.model.specs.definitions.InnerContracts.{unless_large};
ghost use Rattle.model.specs.definitions.Outcomes.{outcome_of};
ghost use Rattle.series.specs.definitions.Convert.{good_series, expanded_from, series_model, conversion};
ghost use Rattle.series.specs.definitions.Promise.{SeriesAllowed};
ghost use Rattle.series.specs.definitions.InnerContracts.{Addable, Expandable};

use crate::table::expansion_table;
use crate::types::Series;
use integer::rounding::up_unsigned;
use model::measure::checked_candidate;
use model::round::round;
use model::types::{COEFFICIENTS, Candidate, Interval, Model, Refusal};

// One unit of a coefficient in the sums.
const UNIT: i64 = 4294967296;

// p times a row, added to the sums. Every other entry of a row is zero, and is passed over.
fn add_multiple(sums: &mut [i64], p: i64, row: &[i64])
    requires { Addable sums.old p row.now }
    ensures { sums.new ≡ add_lists ℤ_ring sums.old (scale_list ℤ_ring p row.now) }
{
    for j in (1 - row.len() % 2..row.len()).step_by(2) {
        sums[j] = sums[j] + p * row[j];
    }
}

// The terms p_k·x^k expanded by the table, added to the sums. Row k ends at place k.
// Kept: the rows lie in one list, as the definition `expansion_table` has them.
fn add_expanded(sums: &mut [i64], terms: &[i32], table: &[i64])
    requires { Expandable sums.old terms.now table.now }
    ensures { sums.new ≡ add_lists ℤ_ring sums.old (expanded_from 0 terms.now) }
{
    for (k, p) in terms.iter().enumerate() {
        let start = COEFFICIENTS * k;
        add_multiple(sums, *p as i64, &table[start..start + k + 1]);
    }
}

// Of a series within its limits.
fn convert_good(s: Series) -> Result<Model, Refusal>
    requires { good_series s ≡ true }
    ensures { outcome_of result ≡ unless_large (series_model s) }
{
    let table = expansion_table();
    let mut sums = [0i64; COEFFICIENTS];
    let count = s.degree as usize + 1;
    add_expanded(&mut sums, &s.coefficients[..count], &table);
    let rounded = round(&sums[..count], count, UNIT);
    let radius = up_unsigned(rounded.loss, UNIT as u64);
    let interval = Interval::standard();
    Model::formed(
        s.degree,
        rounded.coefficients,
        rounded.weight,
        radius,
        interval,
    )
}

// The last clause is what is promised of a converted model.
pub fn from_series(s: Series) -> Result<Model, Refusal>
    ensures result_value { outcome_of result ≡ conversion s }
    ensures series_allowed { IfOk result (λ m. SeriesAllowed s m) }
{
    let coefficients = s.coefficients;
    let candidate = Candidate {
        degree: s.degree,
        coefficients,
    };
    match checked_candidate(candidate) {
        Ok(_) => convert_good(s),
        Err(_) => Err(Refusal::BadSeries),
    }
}
