// The operations of the generated statements.
ghost use Rattle.std.specs.Prelude.{◌≡◌};
ghost use Rattle.sps_generator.specs.Generated.{operation_of_draw, mnemonic_of};

// The operation of a generated statement on the sum and its value.
#[derive(Clone, Copy)]
pub(crate) enum MadeOperation {
    AddImmediate,
    SubtractImmediate,
    CompareImmediate,
}

// The operation of a draw.
pub(crate) fn operation_of_draw(draw: u64) -> MadeOperation
    ensures { result ≡ operation_of_draw draw }
{
    match draw % 3 {
        2 => MadeOperation::CompareImmediate,
        1 => MadeOperation::SubtractImmediate,
        _ => MadeOperation::AddImmediate,
    }
}

impl MadeOperation {
    // How the assembler writes the operation.
    pub(crate) fn mnemonic(self) -> &'static str
        ensures { result.now ≡ mnemonic_of self }
    {
        match self {
            MadeOperation::AddImmediate => "AM",
            MadeOperation::SubtractImmediate => "SM",
            MadeOperation::CompareImmediate => "CM",
        }
    }
}
