//! How much searches for small cores may cost.

/// Legs that a search must have tried before a smaller core is sought.
const DEAR: u64 = 24;

/// So many legs of searches that failed earn one leg of searches for a smaller core.
const SHARE: u64 = 128;

/// So many legs must have been earned before they are spent.
const LEAST: u64 = 64;

/// What searches that failed have cost, as far as it wasn't spent on smaller cores that were not found. All is counted in
/// legs.
#[derive(Debug)]
pub struct Account {
    credit: u64,
}

impl Drop for Account {
    fn drop(self) {
        let Account { credit: _credit } = self;
    }
}

impl Account {
    /// Nothing was earned.
    pub fn empty() -> Account {
        Account { credit: 0 }
    }

    /// A search that cost so many legs failed. How many may be tried for a smaller core, where it is worth it: no more than
    /// the search cost.
    pub fn earn(&mut self, legs: u64) -> Option<u64> {
        self.credit = self.credit.saturating_add(legs);
        let earned = self.credit / SHARE;
        if legs < DEAR || earned < LEAST {
            return None;
        }
        Some(earned.min(legs))
    }

    /// So many legs were tried for a smaller core in vain.
    pub fn spend(&mut self, legs: u64) {
        let spent = legs.max(1).saturating_mul(SHARE);
        self.credit = self.credit.saturating_sub(spent);
    }
}
