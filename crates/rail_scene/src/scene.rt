//! A scene as its file spells it: the infrastructure, and the trains with their itineraries.

use rail_base::{Name, Seq, Time, TrainKind};
use rail_routes::Network;

/// A scene as its file spells it: the infrastructure, and the trains with their itineraries.
pub struct Scene {
    /// Release time in tenths of a second, one for the whole plant.
    pub release: u32,
    /// The greatest number of free legs in a list that the analysis looks for.
    pub depth: u8,
    /// The dispatching policy that is in force first.
    pub policy: Name,
    /// How long the overlap of a route is held after the arrival at its end, in tenths of a second.
    pub overlap_time: u32,
    pub network: Network,
    pub kinds: Seq<TrainKind>,
    pub trains: Seq<SceneTrain>,
}

impl Drop for Scene {
    fn drop(self) {
        let Scene {
            release: _release,
            depth: _depth,
            policy: _policy,
            overlap_time: _overlap_time,
            network: _network,
            kinds: _kinds,
            trains: _trains,
        } = self;
    }
}

/// A train with its itinerary.
#[derive(Debug)]
pub struct SceneTrain {
    pub name: Name,
    /// The name of its train kind.
    pub kind: Name,
    /// When the head passes the entry portal, if nothing holds the train.
    pub entry: Time,
    /// 0 is the most important.
    pub priority: u8,
    /// The names of the routes of its itinerary, in order.
    pub routes: Seq<Name>,
}

impl Drop for SceneTrain {
    fn drop(self) {
        let SceneTrain {
            name: _name,
            kind: _kind,
            entry: _entry,
            priority: _priority,
            routes: _routes,
        } = self;
    }
}
