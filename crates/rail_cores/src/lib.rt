//! Searches for a list whose failures leave small cores.
//!
//! This layer stands on `rail_consequence` for the search, for what the core of a failed one is, and for the law that what
//! can be found can be found with other trains out of the way. A search goes over all trains inside, and its core is each that
//! safe legs leave there; often two or three of them are enough for it to fail. Where these find nothing alone, with all
//! others outside, nothing is found wherever the others are: so they are a core, and a search for them costs what their own
//! legs cost. The searcher finds such small sets, keeps them for each train that waits, and asks for them before it searches
//! among all trains.
//!
//! A small set is grown from the train that asks. As long as the trains of the set find a list alone, the first one
//! that is in the way of that list joins them. Of the set that finds none each train is left out that can be. What
//! this may cost is bounded by what searches that failed have cost: an account says how much.
//!
//! Which sets are asked for, and when, may be changed freely, and so may the account: no answer depends on them. That nothing
//! can be found exactly where the answer says so may not, nor that the trains that are told are a core, nor that nothing but
//! `Alone::new` and `Searcher::new` takes memory.
#![tactic(auto)]

mod account;
mod alone;
mod hints;
mod searcher;

pub use alone::Alone;
pub use searcher::Searcher;
