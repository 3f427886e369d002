// What the steps share.
ghost use Rattle.std.specs.Prelude.{◌≡◌, true, false, IfOk, IfErr};

use reply::Refusal;

// What a step asks, and why it is refused otherwise.
pub(crate) fn need(ok: bool, why: Refusal) -> Result<(), Refusal>
    ensures passes { IfOk result (λ _. ok ≡ true) }
    ensures fails { IfErr result (λ r. (ok ≡ false) × (r ≡ why)) }
{
    if ok { Ok(()) } else { Err(why) }
}
