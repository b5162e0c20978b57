// The pinned moments of a store.
ghost use Rattle.std.specs.Prelude.{◌≡◌, ℕ, ◌≤◌, Bool, true, false, not, ◌&&◌, ◌||◌, [], ◌∷◌, length, is_ok, IfOk, IfErr, vec_len, vec_capacity, ◌==◌, nat_le, nat_lt};
ghost use Rattle.terms.specs.declared.fault.Fault.TheVariants.{NoPin};
ghost use Rattle.std.specs.List.{list_all};
ghost use Rattle.database.specs.Lists.{among, distinct, can_add, added, without};

use std::alloc::{AllocError, Global};
use terms::{Fault, Moment};

// At most 32 moments, each once. Their room is reserved at the making.
#[derive(Drop)]
pub struct Pins {
    moments: Vec<Moment>,
    ghost few: { vec_len moments ≤ 32 },
    ghost room: { 32 ≤ vec_capacity moments },
    ghost once: { distinct moments.items ≡ true },
}

// Whether a pin is another moment: what stays is decided here, where no proof is written out.
fn is_other(pin: Moment, moment: Moment) -> bool
    ensures { result ≡ not (pin == moment) }
{
    pin != moment
}

// Lets a moment go. A list of its own with its room would have to say at each call that its most stays, as this says of the capacity.
fn remove(moments: &mut Vec<Moment>, moment: Moment)
    ensures items { moments.new.items ≡ without moment moments.old.items }
    ensures capacity { vec_capacity moments.new ≡ vec_capacity moments.old }
{
    moments.retain(|pin| is_other(*pin, moment));
}

impl Pins {
    pub fn new(heap: Global) -> Result<Pins, AllocError>
        ensures { IfOk result (λ p. p.moments.items ≡ []) }
    {
        let moments = Vec::with_capacity(heap, 32)?;
        Ok(Pins { moments })
    }

    pub fn moments(&self) -> &[Moment]
        ensures { result.now ≡ self.now.moments.items }
    {
        self.moments.as_slice()
    }

    pub fn contains(&self, moment: Moment) -> bool
        ensures { result ≡ among moment self.now.moments.items }
    {
        self.moments.contains(&moment)
    }

    // Pins a moment, if it is pinned already or fewer than 32 are. Tells also which moments are there then,
    // and that they stay at most this one, or at least a floor, if they were.
    #[tactic(auto, using(crate::proofs::Sets::among_added, crate::proofs::Sets::every_added, crate::proofs::Sets::distinct_push))]
    pub fn pin(&mut self, moment: Moment) -> Result<(), Fault>
        ensures can { is_ok result ≡ can_add moment self.old.moments.items }
        ensures fault { IfErr result (λ fault. fault ≡ NoPin 0) }
        ensures items { is_ok result ≡ true → self.new.moments.items ≡ added moment self.old.moments.items }
        ensures among { is_ok result ≡ true → (n : ℕ) → among n self.new.moments.items ≡ (n == moment || among n self.old.moments.items) }
        ensures same { is_ok result ≡ false → self.new ≡ self.old }
        ensures upto { list_all (λ pin. nat_le pin moment) self.old.moments.items ≡ true → list_all (λ pin. nat_le pin moment) self.new.moments.items ≡ true }
        ensures from { (floor : ℕ) → list_all (λ pin. nat_le floor pin) (moment ∷ self.old.moments.items) ≡ true → list_all (λ pin. nat_le floor pin) (moment ∷ self.new.moments.items) ≡ true }
    {
        if self.contains(moment) {
            return Ok(());
        }
        if self.moments.len() >= 32 {
            return Err(Fault::NoPin { frames: 0 });
        }
        self.moments.push_reserved(moment);
        Ok(())
    }

    // A moment is pinned no longer. What holds of each pinned moment still does.
    #[tactic(auto, using(crate::proofs::Sets::among_without, crate::proofs::Sets::every_without, crate::proofs::Sets::distinct_without, crate::proofs::Sets::length_without_le))]
    pub fn unpin(&mut self, moment: Moment)
        ensures items { self.new.moments.items ≡ without moment self.old.moments.items }
        ensures among { (n : ℕ) → among n self.new.moments.items ≡ (among n self.old.moments.items && not (n == moment)) }
        ensures every { (p : ℕ → Bool) → list_all p self.old.moments.items ≡ true → list_all p self.new.moments.items ≡ true }
    {
        remove(&mut self.moments, moment);
    }

    pub fn clear(&mut self)
        ensures { self.new.moments.items ≡ [] }
    {
        self.moments.clear();
    }
}
