ghost use Rattle.std.specs.Prelude.{◌≡◌, [], IfOk};
ghost use Rattle.gc_sorts.specs.Blocks.{Block, token_of};
ghost use Rattle.gc_lower.specs.Lowerings.{IsLowered, lowered};
ghost use Rattle.gc_query.specs.Answered.{scope_in};
ghost use Rattle.gc_query.specs.Built.{IsNumbered};

use crate::session::Session;
use gc_base::{BlockNo, Memory};
use gc_lower::{LoweredBlock, lower};

/// What the block at a token asks for, where one is found there: the MATCH of the CONSTRUCT at it, or the view whose
/// name is at it, on the graph of a number.
pub(crate) fn lowered_at(session: &Session<'_>, token: u32, on: u32) -> Result<LoweredBlock, Memory>
    ensures { IfOk result (λ made. (block : Block) → IsNumbered (scope_in session.now) block → token_of block ≡ token
        → IsLowered (lowered session.now.checked.now on [] block) made) }
{
    let number = session.checked.block_at(token).unwrap_or(BlockNo(0));
    lower(session.alloc, session.checked, number, on)
}
