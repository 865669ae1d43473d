// A root test behind N: the radius by each rule.
ghost use Rattle.std.specs.Prelude.{◌≡◌};
ghost use Rattle.model.specs.definitions.Outcomes.{judged};
ghost use Rattle.certificate.specs.definitions.RootEnd.{RootLast, rule_outcome};

use crate::numbers::{SCALE, radius_for};
use crate::types::RootRule;
use model::types::Refusal;
use radius::least_radius::least_radius;

// M, m, N and b, where m and N are small enough.
#[derive(Clone, Copy)]
pub(crate) struct RootNumbers {
    pub(crate) weight: u64,
    pub(crate) contraction: u64,
    pub(crate) residual: u64,
    pub(crate) displacement: u64,
    ghost last: { RootLast weight contraction displacement },
}

impl RootNumbers {
    // Command 0x21's discriminant and radius. 8·b·M may pass 64 bits, so b is compared with (S-m)² / (8·M).
    fn discriminant_radius(self) -> Result<u32, Refusal>
        ensures { judged 0 result ≡ rule_outcome RootRule.ByDiscriminant self.weight self.contraction self.displacement }
    {
        let gap = SCALE - self.contraction;
        if self.displacement <= gap * gap / (8 * self.weight) {
            Ok(radius_for(2 * self.displacement, self.contraction) as u32)
        } else {
            Err(Refusal::NegativeDiscriminant)
        }
    }

    // Command 0x22's least radius.
    fn least_radius(self) -> Result<u32, Refusal>
        ensures { judged 0 result ≡ rule_outcome RootRule.ByLeastRadius self.weight self.contraction self.displacement }
    {
        let least = least_radius(self.weight, self.contraction, self.displacement);
        let radius = least.ok_or(Refusal::NoRadius)?;
        Ok(radius as u32)
    }

    // The result's radius, which is never too large.
    pub(crate) fn radius(self, rule: RootRule) -> Result<u32, Refusal>
        ensures { judged 0 result ≡ rule_outcome rule self.weight self.contraction self.displacement }
    {
        match rule {
            RootRule::ByDiscriminant => self.discriminant_radius(),
            RootRule::ByLeastRadius => self.least_radius(),
        }
    }
}
