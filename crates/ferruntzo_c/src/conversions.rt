// The converter of power series.
ghost use Rattle.std.specs.Prelude.{◌≡◌};
ghost use Rattle.model.specs.definitions.Area.{area_model};
ghost use Rattle.series.specs.definitions.Promise.{SeriesAllowed};
ghost use Rattle.ferruntzo.specs.definitions.Operations.{operation_answer};
ghost use Rattle.ferruntzo.specs.definitions.Conversions.{area_series, series_answer};

// The model of a power series. The last clause is what is promised of it.
#[unsafe(no_mangle)]
pub extern "C" fn ferruntzo_from_series(series: &[i32], out: &mut [i32]) -> u32
    ensures out_after { operation_answer result out.new ≡ series_answer series.now out.old }
    ensures series_allowed { result ≡ 0 → SeriesAllowed (area_series series.now) (area_model out.new) }
{
    ferruntzo::conversions::ferruntzo_from_series(series, out)
}
