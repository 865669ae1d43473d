// The command byte decides a command's shape: its kind, the width of its operands, and what reading asks of them.
ghost use Rattle.std.specs.Prelude.{◌≡◌};
ghost use Rattle.job.specs.definitions.Decode.{shape_with, shape_of};

use crate::types::{Kind, Names, OperandValues, Operation, Shape};
use certificate::types::RootRule;

const UNKNOWN: Shape = Shape {
    kind: Kind::Unknown,
    width: 0,
    names: Names::Nothing,
    values: OperandValues::Any,
};

// The two root commands have the same operands.
fn root_shape(rule: RootRule) -> Shape
    ensures { result ≡ shape_with (Kind.Result (Operation.Root rule)) }
{
    Shape {
        kind: Kind::Result(Operation::Root(rule)),
        width: 267,
        names: Names::One,
        values: OperandValues::Any,
    }
}

pub(crate) fn shape_of(b: u8) -> Shape
    ensures { result ≡ shape_of b }
{
    match b {
        0x00 => Shape {
            kind: Kind::End,
            width: 0,
            names: Names::Nothing,
            values: OperandValues::Any,
        },
        0x01 => Shape {
            kind: Kind::Edition,
            width: 1,
            names: Names::Nothing,
            values: OperandValues::KnownEdition,
        },
        0x02..=0x0f => UNKNOWN,
        0x10 => Shape {
            kind: Kind::Result(Operation::Load),
            width: 137,
            names: Names::Nothing,
            values: OperandValues::Any,
        },
        0x11 => Shape {
            kind: Kind::Result(Operation::Add),
            width: 2,
            names: Names::Two,
            values: OperandValues::Any,
        },
        0x12 => Shape {
            kind: Kind::Result(Operation::Subtract),
            width: 2,
            names: Names::Two,
            values: OperandValues::Any,
        },
        0x13 => Shape {
            kind: Kind::Result(Operation::Multiply),
            width: 3,
            names: Names::Two,
            values: OperandValues::KeptDegree,
        },
        0x14 => Shape {
            kind: Kind::Result(Operation::LoadOn),
            width: 145,
            names: Names::Nothing,
            values: OperandValues::Any,
        },
        0x15..=0x1f => UNKNOWN,
        0x20 => Shape {
            kind: Kind::Result(Operation::Quotient),
            width: 268,
            names: Names::Two,
            values: OperandValues::Any,
        },
        0x21 => root_shape(RootRule::ByDiscriminant),
        0x22 => root_shape(RootRule::ByLeastRadius),
        0x23..=0xff => UNKNOWN,
    }
}
