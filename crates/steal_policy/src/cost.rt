//! The rule of cost.
ghost use Rattle.std.specs.Prelude.{◌≤◌, ◌↔◌, IsTrue};
ghost use Rattle.chunk_object.specs.Duty.{Accepts};

/// Whether one more helper pays for a partition whose vertices have `set_bytes` bytes, of which `unread` bytes of chunks
/// are left, and at which `heads` workers are already. `alpha` is in percent: 100 accepts help that makes up for its
/// cost, and 0 none. A tie is refused.
pub fn accepts(set_bytes: u64, unread: u64, heads: u64, alpha: u32) -> bool
    requires { heads ≤ 8 }
    ensures { IsTrue result ↔ Accepts set_bytes unread heads alpha }
{
    let set_bytes = u128::from(set_bytes);
    let unread = u128::from(unread);
    let heads = u128::from(heads);
    let cost = 100 * (set_bytes * heads * (heads + 1) + unread * heads);
    let gain = u128::from(alpha) * unread * (heads + 1);
    cost < gain
}
