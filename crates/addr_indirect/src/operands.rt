// The operands of the instruction at an address.
ghost use Rattle.std.specs.Prelude.{◌≡◌, ◌+◌, ◌<◌, ◌≤◌, ◌^◌, IfOk};
ghost use Rattle.digit_core.specs.Size.{size};
ghost use Rattle.addr_indirect.specs.Operands.{p_operand, q_operand, immediate_q};

use crate::{Stop, operand};
use digit_core::Core;

/// The operand at P, of the instruction at `ir`: [`operand`] from its digit P6.
///
/// The instruction lies in core. The answer is below the size of core.
/// Stops: as for `operand`.
/// Source: CPU manual, instruction format.
#[inline(always)]
pub fn p_operand<const M: u32>(core: &Core<M>, ir: u32) -> Result<u32, Stop>
    requires { ir + 12 ≤ size M }
    ensures is { result ≡ p_operand core.now ir }
    ensures in_core { IfOk result (λ p. p < size M) }
{
    core.size_law();
    operand(core, ir + 6)
}

/// The operand at Q: [`operand`] from the instruction's digit Q11.
///
/// The instruction lies in core. The answer is below the size of core.
/// Stops: as for `operand`.
/// Source: CPU manual, instruction format.
#[inline(always)]
pub fn q_operand<const M: u32>(core: &Core<M>, ir: u32) -> Result<u32, Stop>
    requires { ir + 12 ≤ size M }
    ensures is { result ≡ q_operand core.now ir }
    ensures in_core { IfOk result (λ q. q < size M) }
{
    core.size_law();
    operand(core, ir + 11)
}

/// The operand of an immediate instruction at Q: its own digit Q11.
///
/// Source: CPU manual, immediate instructions.
#[inline(always)]
pub fn immediate_q(ir: u32) -> u32
    requires { ir + 12 < 2 ^ 32 }
    ensures { result ≡ immediate_q ir }
{
    ir + 11
}
