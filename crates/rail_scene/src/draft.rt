//! A scene that is being read, to which the items of its file are added one by one.
ghost use Rattle.std.specs.Prelude.{◌≡◌, ◌<◌, ◌++◌, length, false, [], ◌∷◌, None, map, OnOk, IfErr};
ghost use Rattle.toml.specs.View.{view};
ghost use Rattle.rail_base.specs.FirstRefusals.{first_failing};
ghost use Rattle.rail_track.specs.NetFaults.{Answers};
ghost use Rattle.rail_scene.specs.Entries.{section_of, portal_of, signal_of, board_of, turn_of, route_of, kind_of, train_of};
ghost use Rattle.rail_scene.specs.SpelledItems.{spelled_section_refusal, spelled_portal_refusal, spelled_signal_refusal, spelled_board_refusal, spelled_turn_refusal, spelled_route_refusal, spelled_kind_refusal, spelled_train_refusal};

use crate::entries;
use crate::fields::elements_at;
use crate::keys::ListPart;
use crate::places::{item_number, located};
use crate::rosters::{Kinds, Trains};
use crate::versions::Version;
use rail_base::limits::{KINDS, POSTS, ROUTES, SECTIONS, TRAINS, TURNS};
use rail_base::{Fault, Reason};
use rail_routes::{Network, PostRole};
use rail_track::NetFault;
use std::alloc::{AllocError, Global};
use std::marker::Model;
use toml::Value;

/// The items of a scene that were read so far.
#[derive(Drop)]
pub(crate) struct Draft {
    pub(crate) network: Network,
    pub(crate) kinds: Kinds,
    pub(crate) trains: Trains,
}

impl Model for Draft {
    ghost use Rattle.rail_scene.specs.SceneItems.{SceneItems};

    ghost Value = { SceneItems };

    ghost view = { λ draft. record {
      network = draft.network;
      kinds = draft.kinds;
      trains = draft.trains;
    } };
}

impl Draft {
    ghost use Rattle.rail_scene.specs.SceneItems.{no_items, is_full, are_posts_full, own_tests, item_tests, with_items};
    ghost use Rattle.rail_base.specs.Refusals.{AnswersFirst};
    ghost use Rattle.rail_scene.specs.Order.{list_values, values_of, with_lists};

    /// A scene without items. It takes no memory.
    pub(crate) fn new(alloc: Global) -> Draft
        ensures { result ≡ no_items }
    {
        Draft {
            network: Network::new(alloc),
            kinds: Kinds::new(alloc),
            trains: Trains::new(alloc),
        }
    }

    /// Adds the items of the lists of a scene file in turn. The first that is refused ends it.
    pub(crate) fn add_lists(
        &mut self,
        alloc: Global,
        root: &Value,
        version: Version,
        parts: &[ListPart],
    ) -> Result<(), Fault>
        ensures accepted { OnOk result (first_failing (values_of version (view root.now) self.old parts.now) ≡ None) }
        ensures added { OnOk result (self.new ≡ with_lists version (view root.now) parts.now self.old) }
        ensures refused { IfErr result (AnswersFirst (first_failing (values_of version (view root.now) self.old parts.now))) }
    {
        for part in parts {
            self.add_list(alloc, *part, version, elements_at(root, part.key()))?;
        }
        Ok(())
    }

    /// Adds the items of the tables of a list. The first that is refused ends it.
    fn add_list(
        &mut self,
        alloc: Global,
        part: ListPart,
        version: Version,
        tables: &[Value],
    ) -> Result<(), Fault>
        ensures accepted { OnOk result (first_failing (list_values part version 1 self.old (map view tables.now)) ≡ None) }
        ensures added { OnOk result (self.new ≡ with_items part version (map view tables.now) self.old) }
        ensures refused { IfErr result (AnswersFirst (first_failing (list_values part version 1 self.old (map view tables.now)))) }
    {
        self.reserve(part, tables.len())?;
        for (index, table) in tables.iter().enumerate() {
            match self.add(alloc, part, version, table) {
                Ok(()) => {}
                Err(fault) => return Err(located(part.part(), item_number(index), fault)),
            }
        }
        Ok(())
    }

    /// Makes room at once for so many items of a list, as far as it may have them.
    fn reserve(&mut self, part: ListPart, count: usize) -> Result<(), AllocError>
        ensures { self.new ≡ self.old }
    {
        let network = &mut self.network;
        match part {
            ListPart::Section => network.reserve_sections(count.min(SECTIONS)),
            ListPart::Portal => network.reserve_posts(PostRole::Portal, count.min(POSTS)),
            ListPart::Signal => network.reserve_posts(PostRole::Signal, count.min(POSTS)),
            ListPart::Board => network.reserve_posts(PostRole::Board, count.min(POSTS)),
            ListPart::Route => network.reserve_routes(count.min(ROUTES)),
            ListPart::Turn | ListPart::Kind | ListPart::Train => Ok(()),
        }
    }

    /// Adds the item of a table last in its list. It is refused as too many, then for its own values
    /// key by key, then beside the items that stand already.
    fn add(
        &mut self,
        alloc: Global,
        part: ListPart,
        version: Version,
        table: &Value,
    ) -> Result<(), NetFault>
        ensures accepted { OnOk result (first_failing (item_tests part version self.old (view table.now)) ≡ None) }
        ensures added { OnOk result (self.new ≡ with_items part version (view table.now ∷ []) self.old) }
        ensures refused { IfErr result (Answers (first_failing (item_tests part version self.old (view table.now)))) }
    {
        if self.is_full(part) {
            return Err(NetFault::Refused {
                reason: Reason::TooMany,
                step: 0,
            });
        }
        self.place(alloc, part, version, table)
    }

    /// Whether the list takes no further item.
    fn is_full(&self, part: ListPart) -> bool
        ensures { result ≡ is_full part self.now }
    {
        match part {
            ListPart::Section => self.network.sections().len() >= SECTIONS,
            ListPart::Portal | ListPart::Signal | ListPart::Board => self.are_posts_full(),
            ListPart::Turn => self.network.turns().len() >= TURNS,
            ListPart::Route => self.network.routes().len() >= ROUTES,
            ListPart::Kind => self.kinds.len() >= KINDS,
            ListPart::Train => self.trains.len() >= TRAINS,
        }
    }

    /// Whether the posts of all roles together are at their limit.
    fn are_posts_full(&self) -> bool
        ensures { result ≡ are_posts_full self.now.network }
    {
        let network = &self.network;
        network.portals().len() + network.signals().len() + network.boards().len() >= POSTS
    }

    /// Adds the item of a table last in its list, which is not full.
    fn place(
        &mut self,
        alloc: Global,
        part: ListPart,
        version: Version,
        table: &Value,
    ) -> Result<(), NetFault>
        requires { is_full part self.old ≡ false }
        ensures accepted { OnOk result (first_failing (own_tests part version self.old (view table.now)) ≡ None) }
        ensures added { OnOk result (self.new ≡ with_items part version (view table.now ∷ []) self.old) }
        ensures refused { IfErr result (Answers (first_failing (own_tests part version self.old (view table.now)))) }
    {
        let network = &mut self.network;
        match part {
            ListPart::Section => add_section(network, alloc, table),
            ListPart::Portal => add_portal(network, alloc, table),
            ListPart::Signal => add_signal(network, alloc, table),
            ListPart::Board => add_board(network, alloc, table),
            ListPart::Turn => add_turn(network, alloc, table),
            ListPart::Route => add_route(network, alloc, version, table),
            ListPart::Kind => add_kind(&mut self.kinds, table),
            ListPart::Train => add_train(&mut self.trains, alloc, table),
        }
    }
}

/// Adds the section of a table last.
fn add_section(network: &mut Network, alloc: Global, table: &Value) -> Result<(), NetFault>
    ensures accepted { OnOk result (spelled_section_refusal network.old (view table.now) ≡ None) }
    ensures added { OnOk result (network.new ≡ record network.old {
      sections = network.old.sections ++ section_of (view table.now) ∷ [];
    }) }
    ensures refused { IfErr result (Answers (spelled_section_refusal network.old (view table.now))) }
{
    let item = entries::section(alloc, table)?;
    network.add_section(alloc, item)
}

/// Adds the portal of a table last.
fn add_portal(network: &mut Network, alloc: Global, table: &Value) -> Result<(), NetFault>
    ensures accepted { OnOk result (spelled_portal_refusal network.old (view table.now) ≡ None) }
    ensures added { OnOk result (network.new ≡ record network.old {
      portals = network.old.portals ++ portal_of (view table.now) ∷ [];
    }) }
    ensures refused { IfErr result (Answers (spelled_portal_refusal network.old (view table.now))) }
{
    match entries::portal(table) {
        Ok(item) => network.add_post(alloc, item),
        Err(fault) => Err(fault),
    }
}

/// Adds the signal of a table last.
fn add_signal(network: &mut Network, alloc: Global, table: &Value) -> Result<(), NetFault>
    ensures accepted { OnOk result (spelled_signal_refusal network.old (view table.now) ≡ None) }
    ensures added { OnOk result (network.new ≡ record network.old {
      signals = network.old.signals ++ signal_of (view table.now) ∷ [];
    }) }
    ensures refused { IfErr result (Answers (spelled_signal_refusal network.old (view table.now))) }
{
    match entries::signal(table) {
        Ok(item) => network.add_post(alloc, item),
        Err(fault) => Err(fault),
    }
}

/// Adds the board of a table last.
fn add_board(network: &mut Network, alloc: Global, table: &Value) -> Result<(), NetFault>
    ensures accepted { OnOk result (spelled_board_refusal network.old (view table.now) ≡ None) }
    ensures added { OnOk result (network.new ≡ record network.old { boards = network.old.boards ++ board_of (view table.now) ∷ [] }) }
    ensures refused { IfErr result (Answers (spelled_board_refusal network.old (view table.now))) }
{
    match entries::board(table) {
        Ok(item) => network.add_post(alloc, item),
        Err(fault) => Err(fault),
    }
}

/// Adds the turn of a table last.
fn add_turn(network: &mut Network, alloc: Global, table: &Value) -> Result<(), NetFault>
    ensures accepted { OnOk result (spelled_turn_refusal network.old (view table.now) ≡ None) }
    ensures added { OnOk result (network.new ≡ record network.old { turns = network.old.turns ++ turn_of (view table.now) ∷ [] }) }
    ensures refused { IfErr result (Answers (spelled_turn_refusal network.old (view table.now))) }
{
    let item = entries::turn(table)?;
    network.add_turn(alloc, item)
}

/// Adds the route of a table last.
fn add_route(
    network: &mut Network,
    alloc: Global,
    version: Version,
    table: &Value,
) -> Result<(), NetFault>
    ensures accepted { OnOk result (spelled_route_refusal version network.old (view table.now) ≡ None) }
    ensures added { OnOk result (network.new ≡ record network.old { routes = network.old.routes ++ route_of version (view table.now) ∷ [] }) }
    ensures refused { IfErr result (Answers (spelled_route_refusal version network.old (view table.now))) }
{
    let item = entries::route(alloc, version, table)?;
    network.add_route(alloc, item)
}

/// Adds the train kind of a table last.
fn add_kind(kinds: &mut Kinds, table: &Value) -> Result<(), NetFault>
    requires { length kinds.old < KINDS }
    ensures accepted { OnOk result (spelled_kind_refusal kinds.old (view table.now) ≡ None) }
    ensures added { OnOk result (kinds.new ≡ kinds.old ++ kind_of (view table.now) ∷ []) }
    ensures refused { IfErr result (Answers (spelled_kind_refusal kinds.old (view table.now))) }
{
    let item = entries::train_kind(table)?;
    kinds.add(item)
}

/// Adds the train of a table last.
fn add_train(trains: &mut Trains, alloc: Global, table: &Value) -> Result<(), NetFault>
    requires { length trains.old < TRAINS }
    ensures accepted { OnOk result (spelled_train_refusal trains.old (view table.now) ≡ None) }
    ensures added { OnOk result (trains.new ≡ trains.old ++ train_of (view table.now) ∷ []) }
    ensures refused { IfErr result (Answers (spelled_train_refusal trains.old (view table.now))) }
{
    let item = entries::train(alloc, table)?;
    trains.add(item)
}
