// Readings of a caller that lends its state: what it is told, and the state that is left.
#![tactic(auto)]

ghost use Rattle.std.specs.Prelude.{◌≡◌};
ghost use Rattle.packet.specs.Answer.{read_state};
ghost use Rattle.packet.specs.Said.{read_said};
ghost use Rattle.lent.specs.Told.{told_of, told_said};

use packet::{Counter, Refusal, Rows};

// Advances the lent state where it lies, unless the reading is refused, and tells the row count.
pub fn advance(read: Result<Rows, Refusal>, c: &mut Counter) -> Result<u32, Refusal>
    ensures told { told_said result ≡ told_of (read_said read) }
    ensures state { c.new ≡ read_state c.old (read_said read) }
{
    let rows = read?;
    *c = rows.state;
    Ok(rows.count)
}
