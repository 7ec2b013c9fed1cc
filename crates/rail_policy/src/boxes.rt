//! A boxed policy is a policy itself.

use crate::offer::Offer;
use crate::policy::Policy;
use rail_base::{Name, PolicyKind, TrainNo};

/// A box is the policy in it.
impl Policy for Box<dyn Policy> {
    ghost seat = { λ held. (Policy-box held).seat held.value };

    fn name(&self) -> Name {
        (**self).name()
    }

    fn kind(&self) -> PolicyKind {
        (**self).kind()
    }

    fn mark(&self) -> u16 {
        (**self).mark()
    }

    fn answered(&self) -> usize {
        (**self).answered()
    }

    fn choose(&mut self, offers: &[Offer]) -> usize {
        (**self).choose(offers)
    }

    fn note(&mut self, admitted: TrainNo) {
        (**self).note(admitted)
    }
}
