// The converter of power series over lent areas: a series is 34 numbers, its degree and the coefficients of x^0 to x^32.
ghost use Rattle.std.specs.Prelude.{◌≡◌, ◌≤◌, length};
ghost use Rattle.model.specs.definitions.Area.{area_model};
ghost use Rattle.series.specs.definitions.Promise.{SeriesAllowed};
ghost use Rattle.ferruntzo.specs.definitions.Operations.{operation_answer};
ghost use Rattle.ferruntzo.specs.definitions.Conversions.{series_size, area_series, series_answer};

use crate::areas::candidate_in;
use crate::operations::answer_operation;
use model::area::{CANDIDATE_SIZE, MODEL_SIZE};
use model::types::{Candidate, Refusal};
use series::convert::from_series;
use series::types::Series;

// As many numbers as a candidate has.
const SERIES_SIZE: usize = CANDIDATE_SIZE;

// The series in an area.
fn series_in(area: &[i32]) -> Series
    requires { series_size ≤ length area.now }
    ensures { result ≡ area_series area.now }
{
    let Candidate {
        degree,
        coefficients,
    } = candidate_in(area);
    Series {
        degree,
        coefficients,
    }
}

// The model of a power series. The last clause is what is promised of it.
#[unsafe(no_mangle)]
pub extern "C" fn ferruntzo_from_series(series: &[i32], out: &mut [i32]) -> u32
    ensures out_after { operation_answer result out.new ≡ series_answer series.now out.old }
    ensures series_allowed { result ≡ 0 → SeriesAllowed (area_series series.now) (area_model out.new) }
{
    if (SERIES_SIZE <= series.len()) & (MODEL_SIZE <= out.len()) {
        answer_operation(from_series(series_in(series)), out)
    } else {
        answer_operation(Err(Refusal::ShortArea), out)
    }
}
