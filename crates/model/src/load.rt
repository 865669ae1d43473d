// A model that is handed in: the model itself if it is good.
ghost use Rattle.std.specs.Prelude.{◌≡◌};
ghost use Rattle.model.specs.definitions.Outcomes.{outcome_of};
ghost use Rattle.model.specs.definitions.Load.{loading};

use crate::measure::checked_weight;
use crate::types::{Model, Refusal};

pub fn load(m: Model) -> Result<Model, Refusal>
    ensures { outcome_of result ≡ loading m }
{
    checked_weight(m)?;
    Ok(m)
}
