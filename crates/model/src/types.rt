// A model: degree, coefficients of T_0 .. T_32 in units of 1/SCALE, radius in units, and the interval on which it holds.
ghost use Rattle.std.specs.Prelude.{◌≡◌};
ghost use Rattle.model.specs.definitions.InnerContracts.{formed_outcome};
ghost use Rattle.model.specs.definitions.Intervals.{good_ends, extent, contains};
ghost use Rattle.model.specs.definitions.Intervals.{standard_interval, zero_interval};
ghost use Rattle.model.specs.definitions.Models.{make_model, zero_model, constant_model};
ghost use Rattle.model.specs.definitions.Outcomes.{number_of, outcome_of};

pub const COEFFICIENTS: usize = 33;

// How many numbers the list C of two models has.
pub const PRODUCT_SIZE: usize = 65;

// Two ends in units.
#[derive(Clone, Copy, Debug, PartialEq, Eq)]
pub struct Interval {
    pub lower: i32,
    pub upper: i32,
}

#[derive(Clone, Copy)]
pub struct Model {
    pub degree: u32,
    pub coefficients: [i32; COEFFICIENTS],
    pub radius: u32,
    pub interval: Interval,
}

// A proposed quotient, root or helper: a model without a radius, on its operand's interval.
#[derive(Clone, Copy)]
pub struct Candidate {
    pub degree: u32,
    pub coefficients: [i32; COEFFICIENTS],
}

// The numbered refusals of documents 01 and 02; `u32::from` gives the number of each.
#[derive(Clone, Copy, Debug, PartialEq, Eq)]
pub enum Refusal {
    ShortArea,
    BadModel,
    LargeResult,
    PointOutside,
    NotContracting,
    LargeResidual,
    HelperNotPositive,
    NegativeDiscriminant,
    BadValue,
    JobEnds,
    BytesAfterEnd,
    NotAResult,
    TooManyResults,
    BadSeries,
    NotFinite,
    LargeProposal,
    NoRadius,
    BadEnds,
    DifferentIntervals,
    ShortOutput,
}

// The bounds of an evaluation.
#[derive(Clone, Copy, Debug, PartialEq, Eq)]
pub struct Bounds {
    pub low: i64,
    pub high: i64,
}

impl From<Refusal> for u32 {
    ghost from_gives = { λ refusal n. n ≡ number_of refusal };

    fn from(refusal: Refusal) -> u32 {
        match refusal {
            Refusal::ShortArea => 1,
            Refusal::BadModel => 2,
            Refusal::LargeResult => 3,
            Refusal::PointOutside => 4,
            Refusal::NotContracting => 5,
            Refusal::LargeResidual => 6,
            Refusal::HelperNotPositive => 7,
            Refusal::NegativeDiscriminant => 8,
            Refusal::BadValue => 9,
            Refusal::JobEnds => 10,
            Refusal::BytesAfterEnd => 11,
            Refusal::NotAResult => 12,
            Refusal::TooManyResults => 13,
            Refusal::BadSeries => 14,
            Refusal::NotFinite => 15,
            Refusal::LargeProposal => 16,
            Refusal::NoRadius => 17,
            Refusal::BadEnds => 18,
            Refusal::DifferentIntervals => 19,
            Refusal::ShortOutput => 20,
        }
    }
}

impl Interval {
    pub const MIN_END: i32 = -268435456;

    pub const MAX_END: i32 = 268435456;

    // From -1 to 1.
    pub fn standard() -> Interval
        ensures { result ≡ standard_interval }
    {
        Interval {
            lower: -1048576,
            upper: 1048576,
        }
    }

    // That of the zero model beside a refusal.
    pub fn zero() -> Interval
        ensures { result ≡ zero_interval }
    {
        Interval { lower: 0, upper: 0 }
    }

    pub fn is_good(self) -> bool
        ensures { result ≡ good_ends self }
    {
        (Interval::MIN_END <= self.lower)
            & (self.lower < self.upper)
            & (self.upper <= Interval::MAX_END)
    }

    // u - l
    pub fn extent(self) -> u64
        ensures { result ≡ extent self }
    {
        (self.upper as i64 - self.lower as i64).unsigned_abs()
    }

    pub fn contains(self, p: i32) -> bool
        ensures { result ≡ contains self p }
    {
        (self.lower <= p) & (p <= self.upper)
    }
}

impl Model {
    pub const SCALE: i64 = 1048576;

    pub const MAX_DEGREE: u32 = 32;

    pub const MAX_WEIGHT: u64 = 268435456;

    pub const MAX_RADIUS: u64 = 268435456;

    // The one place where a model is made.
    pub fn new(
        degree: u32,
        coefficients: [i32; COEFFICIENTS],
        radius: u32,
        interval: Interval,
    ) -> Self
        ensures { result ≡ make_model degree coefficients radius interval }
    {
        Model {
            degree,
            coefficients,
            radius,
            interval,
        }
    }

    pub fn zero() -> Model
        ensures { result ≡ zero_model }
    {
        Model::new(0, [0; COEFFICIENTS], 0, Interval::zero())
    }

    // The constant c, in units, with radius 0, from -1 to 1.
    pub fn constant(c: i32) -> Model
        ensures { result ≡ constant_model c }
    {
        let mut coefficients = [0; COEFFICIENTS];
        coefficients[0] = c;
        Model::new(0, coefficients, 0, Interval::standard())
    }

    // The result of an operation, unless it is too large.
    pub fn formed(
        degree: u32,
        coefficients: [i32; COEFFICIENTS],
        weight: u64,
        radius: u64,
        interval: Interval,
    ) -> Result<Model, Refusal>
        ensures { outcome_of result ≡ formed_outcome degree coefficients weight radius interval }
    {
        if weight <= Model::MAX_WEIGHT
            && radius <= Model::MAX_RADIUS
            && degree <= Model::MAX_DEGREE
        {
            Ok(Model::new(degree, coefficients, radius as u32, interval))
        } else {
            Err(Refusal::LargeResult)
        }
    }
}
