//! Sets of pointers, as numbers of 32 bits.
ghost use Rattle.std.specs.Prelude.{◌≡◌};
ghost use Rattle.touch_event.specs.PointerSets.{has_id};

/// Whether a pointer is in a set. Bit `k` of the set represents the id `k`, so that no id above 31 is in any.
#[tactic(auto, unfolding(crate::specs::PointerSets::has_id), using(crate::proofs::PointerSetLaws::none_above))]
pub fn has_id(ids: u32, id: u8) -> bool
    ensures { result ≡ has_id ids id }
{
    u32::from(id) < u32::BITS && (ids >> id) & 1 == 1
}
