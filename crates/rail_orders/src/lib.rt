//! What the commands told so far mean, while a run goes on.
//!
//! This layer stands on the plant (`rail_plan`), whose sections and trains the commands name. Contracts see the
//! tables as a record of lists (`specs/OrderTables.antt`), and `AreOrders` says when these are what the told orders,
//! the newest first, come to; that each told order keeps it so are the lemmas in `proofs/CallerLemmas.antt`.
//! The tables may be kept in another way as long as the contracts hold. What may not change is that only `new`
//! takes memory, and that no call goes through the orders that were told.
#![tactic(auto)]

mod told_orders;

pub use told_orders::ToldOrders;
