//! The network: a track with posts, turns and routes, which are added and removed by the rules.

ghost use Rattle.std.specs.Prelude.{◌≡◌, [], ◌∷◌, ◌++◌, Some, None, position, IsTrue, IsSomeAnd, IfOk, IfErr, OnOk, OnErr};
ghost use Rattle.std.specs.List.{find, list_any};
ghost use Rattle.std.specs.Option.{option_copied};

use self::claiming::{count_of_sections, count_sections, discount_sections};
use crate::items::{Post, PostRole, Route, Turn};
use crate::post_list::PostList;
use indexmap::IndexMap;
use rail_base::{Name, Reason};
use rail_track::{
    ClosedJoints, NetFault, Roll, Section, Tally, Track, count_each, discount_each, times,
};
use std::alloc::{AllocError, Global};
use std::marker::Model;

mod accepting;
mod claiming;
mod leading;
mod restoring;

/// Sections, posts, turns and routes, each in the order in which they were added. Contracts see it as
/// those lists.
///
/// It is sound at any time: the track is sound, no name, place or pair of posts is taken twice, no list
/// is past its limit, and each post, turn and route keeps its rule.
pub struct Network {
    track: Track,
    portals: PostList,
    signals: PostList,
    boards: PostList,
    turns: Roll<(Name, Name), Turn>,
    routes: Roll<Name, Route>,
    /// How often the routes have a section in path or overlap.
    claimed: Tally<Name>,
    /// How often the turns name a post.
    turned: Tally<Name>,
    /// How often the routes name a post.
    routed: Tally<Name>,
}

/// Written out, so that it is proved once, and not at each place where a network is let go.
impl Drop for Network {
    fn drop(self) {
        let Network {
            track: _,
            portals: _,
            signals: _,
            boards: _,
            turns: _,
            routes: _,
            claimed: _,
            turned: _,
            routed: _,
        } = self;
    }
}

impl Model for Network {
    ghost use Rattle.rail_routes.specs.Net.{Net};

    ghost Value = { Net };

    ghost use Rattle.rail_routes.specs.NetworkFields.{lists_of, IsNetworkInside};

    ghost view = { lists_of };

    ghost invariant = { IsNetworkInside };
}

impl Network {
    ghost use Rattle.rail_track.specs.Joints.{is_named, section_named};
    ghost use Rattle.rail_track.specs.Lists.{without, StoodAt};
    ghost use Rattle.rail_track.specs.NetFaults.{Answers};
    ghost use Rattle.rail_routes.specs.Net.{posts, is_post, is_turn, is_route, post_named, stands_at};
    ghost use Rattle.rail_routes.specs.SectionRules.{net_section_refusal};
    ghost use Rattle.rail_routes.specs.PostRules.{post_refusal, is_formed};
    ghost use Rattle.rail_routes.specs.TurnRules.{turn_refusal};
    ghost use Rattle.rail_routes.specs.RouteRules.{route_refusal};
    ghost use Rattle.rail_routes.specs.Uses.{section_removal, post_removal, turn_removal, route_removal};
    ghost use Rattle.rail_routes.specs.SoundNetworks.{IsSoundNetwork};
    ghost use Rattle.rail_routes.specs.PostChanges.{with_post, without_post, post_position, PostStoodAt};

    /// A network without items. It takes no memory.
    pub fn new(alloc: Global) -> Network
        ensures empty { result ≡ record { sections = []; portals = []; signals = []; boards = []; turns = []; routes = [] } }
        ensures sound { IsSoundNetwork result }
    {
        Network {
            track: Track::new(alloc),
            portals: PostList::new(alloc),
            signals: PostList::new(alloc),
            boards: PostList::new(alloc),
            turns: Roll::new(alloc),
            routes: Roll::new(alloc),
            claimed: IndexMap::new(alloc),
            turned: IndexMap::new(alloc),
            routed: IndexMap::new(alloc),
        }
    }

    /// The sections in order.
    pub fn sections(&self) -> &[Section]
        ensures sections { result.now ≡ self.now.sections }
        ensures sound { IsSoundNetwork self.now }
    {
        self.track.sections()
    }

    /// The portals in order.
    pub fn portals(&self) -> &[Post]
        ensures { result.now ≡ self.now.portals }
    {
        self.portals.as_slice()
    }

    /// The signals in order.
    pub fn signals(&self) -> &[Post]
        ensures { result.now ≡ self.now.signals }
    {
        self.signals.as_slice()
    }

    /// The boards in order.
    pub fn boards(&self) -> &[Post]
        ensures { result.now ≡ self.now.boards }
    {
        self.boards.as_slice()
    }

    /// The turns in order.
    pub fn turns(&self) -> &[Turn]
        ensures { result.now ≡ self.now.turns }
    {
        self.turns.as_slice()
    }

    /// The routes in order.
    pub fn routes(&self) -> &[Route]
        ensures routes { result.now ≡ self.now.routes }
        ensures sound { IsSoundNetwork self.now }
    {
        self.routes.as_slice()
    }

    /// The post of this name, of whichever role.
    pub fn post(&self, name: Name) -> Option<Post>
        ensures { result ≡ post_named name self.now }
    {
        // The posts share one name space, and most are signals, so that few names are looked up more than once.
        if let Some(signal) = self.signals.get(name) {
            return Some(signal);
        }
        if let Some(portal) = self.portals.get(name) {
            return Some(portal);
        }
        self.boards.get(name)
    }

    /// The section of this name.
    pub fn section(&self, name: Name) -> Option<&Section>
        ensures { option_copied result ≡ section_named name self.now.sections }
    {
        self.track.section(name)
    }

    /// The index of the section of this name in the list of the sections, from 0.
    pub fn section_index(&self, name: Name) -> Option<usize>
        ensures { result ≡ position (is_named name) self.now.sections }
    {
        self.track.section_index(name)
    }

    /// The turn from the one post to the other.
    pub fn turn(&self, arriving: Name, leaving: Name) -> Option<Turn>
        ensures { result ≡ find (is_turn arriving leaving) self.now.turns }
    {
        self.turns.get(&(arriving, leaving)).copied()
    }

    /// The route of this name.
    pub fn route(&self, name: Name) -> Option<&Route>
        ensures { option_copied result ≡ find (is_route name) self.now.routes }
    {
        self.routes.get(&name)
    }

    /// Makes room for so many more sections at once, and for as many that routes run over. It fails only for want of memory.
    pub fn reserve_sections(&mut self, sections: usize) -> Result<(), AllocError>
        ensures { self.new ≡ self.old }
    {
        self.claimed.reserve(sections)?;
        self.track.reserve(sections)
    }

    /// Makes room for so many more posts of the role at once, and for as many at which routes begin or end. It fails only for
    /// want of memory.
    pub fn reserve_posts(&mut self, role: PostRole, posts: usize) -> Result<(), AllocError>
        ensures { self.new ≡ self.old }
    {
        self.routed.reserve(posts)?;
        match role {
            PostRole::Portal => self.portals.reserve(posts),
            PostRole::Signal => self.signals.reserve(posts),
            PostRole::Board => self.boards.reserve(posts),
        }
    }

    /// Makes room for so many more routes at once. It fails only for want of memory.
    pub fn reserve_routes(&mut self, routes: usize) -> Result<(), AllocError>
        ensures { self.new ≡ self.old }
    {
        self.routes.reserve(routes)
    }

    /// Adds a section last. It is refused as by a track, and as crowded also where a joint carries a
    /// portal.
    pub fn add_section(&mut self, alloc: Global, section: Section) -> Result<(), NetFault>
        ensures accepted { OnOk result (net_section_refusal self.old section ≡ None) }
        ensures added { OnOk result (self.new ≡ record self.old { sections = self.old.sections ++ section ∷ [] }) }
        ensures found { OnOk result (section_named section.name self.new.sections ≡ Some section) }
        ensures back { OnOk result (without (is_named section.name) self.new.sections ≡ self.old.sections) }
        ensures refused { IfErr result (Answers (net_section_refusal self.old section)) }
        ensures unchanged { OnErr result (self.new ≡ self.old) }
        ensures sound { IsSoundNetwork self.new }
    {
        let rule = ClosedInNetwork {
            track: &self.track,
            portals: &self.portals,
        };
        if let Some(fault) = self.track.refusal(&section, &rule) {
            return Err(fault);
        }
        self.track.add_section(alloc, section)
    }

    /// Adds a post last in the list of its role.
    ///
    /// It is refused, by the first of these that holds, as too many, where the posts of all roles are at
    /// the limit, at step 0; as out of range, at the number of the key: 3 to 5 for the setting, watching
    /// and approach times of a portal, 4 to 6 for those of a signal; as repeated, where a post of any
    /// role has the name, at step 1; as unknown, where no section has the name ahead, at step 3; as
    /// misplaced, at step 0: a portal at a joint that is not in exactly one section, a signal at one that
    /// is not in two or not in the section ahead, a board at one that is in none, a portal or board
    /// where another is, a signal where another has the same section ahead.
    pub fn add_post(&mut self, _alloc: Global, post: Post) -> Result<(), NetFault>
        requires { IsTrue (is_formed post) }
        ensures accepted { OnOk result (post_refusal self.old post ≡ None) }
        ensures added { OnOk result (self.new ≡ with_post post self.old) }
        ensures found { OnOk result (post_named post.name self.new ≡ Some post) }
        ensures back { OnOk result (without_post post.name self.new ≡ self.old) }
        ensures refused { IfErr result (Answers (post_refusal self.old post)) }
        ensures unchanged { OnErr result (self.new ≡ self.old) }
        ensures sound { IsSoundNetwork self.new }
    {
        if let Some(fault) = self.post_refusal(&post) {
            return Err(fault);
        }
        match post.role {
            PostRole::Portal => self.portals.push(post)?,
            PostRole::Signal => self.signals.push(post)?,
            PostRole::Board => self.boards.push(post)?,
        }
        Ok(())
    }

    /// Adds a turn last.
    ///
    /// It is refused, by the first of these that holds, as too many, at step 0; as out of range, where
    /// its time is, at step 3; as repeated, where a turn is between these posts, at step 1; as unknown,
    /// where no post has the arriving name, at step 1, or the leaving name, at step 2; as misplaced,
    /// where the arriving post is a portal, the leaving one no signal, or both the same, at step 0.
    pub fn add_turn(&mut self, _alloc: Global, turn: Turn) -> Result<(), NetFault>
        ensures accepted { OnOk result (turn_refusal self.old turn ≡ None) }
        ensures added { OnOk result (self.new ≡ record self.old { turns = self.old.turns ++ turn ∷ [] }) }
        ensures found { OnOk result (find (is_turn turn.arriving turn.leaving) self.new.turns ≡ Some turn) }
        ensures back { OnOk result (without (is_turn turn.arriving turn.leaving) self.new.turns ≡ self.old.turns) }
        ensures refused { IfErr result (Answers (turn_refusal self.old turn)) }
        ensures unchanged { OnErr result (self.new ≡ self.old) }
        ensures sound { IsSoundNetwork self.new }
    {
        if let Some(fault) = self.turn_refusal(&turn) {
            return Err(fault);
        }
        self.turned.reserve(2)?;
        self.turns.push(turn)?;
        count_each(&mut self.turned, &[turn.arriving, turn.leaving]);
        Ok(())
    }

    /// Adds a route last.
    ///
    /// It is refused, by the first of these that holds, as too many, at step 0; as out of range, where its
    /// path has no step or too many, at step 4, or its overlap too many, at step 5; as repeated, where a
    /// route has the name, at step 1; as unknown, where no post has the name of its first post, at step 2,
    /// or of its last, at step 3, or no section that of a step of the path, at step 4, or of the overlap,
    /// at step 5; as repeating a section, at the number of the first step whose section occurred before,
    /// where the steps of the overlap go on behind those of the path; as broken, at the number of the
    /// first step that does not lead on: from a board or over a section that is not ahead of the first
    /// post, from a joint that is not where the step before ended, over no passage, or, for the last of the
    /// path, not to the joint of the last post, or in the section ahead of it, and the first of an overlap
    /// also behind a portal.
    pub fn add_route(&mut self, _alloc: Global, route: Route) -> Result<(), NetFault>
        ensures accepted { OnOk result (route_refusal self.old route ≡ None) }
        ensures added { OnOk result (self.new ≡ record self.old { routes = self.old.routes ++ route ∷ [] }) }
        ensures found { OnOk result (find (is_route route.name) self.new.routes ≡ Some route) }
        ensures back { OnOk result (without (is_route route.name) self.new.routes ≡ self.old.routes) }
        ensures refused { IfErr result (Answers (route_refusal self.old route)) }
        ensures unchanged { OnErr result (self.new ≡ self.old) }
        ensures sound { IsSoundNetwork self.new }
    {
        if let Some(fault) = self.route_refusal(&route) {
            return Err(fault);
        }
        let index = self.routes.as_slice().len();
        let ends = [route.from, route.to];
        self.routed.reserve(2)?;
        self.claimed.reserve(count_of_sections(&route))?;
        self.routes.push(route)?;
        count_each(&mut self.routed, &ends);
        count_sections(&mut self.claimed, &self.routes.as_slice()[index]);
        Ok(())
    }

    /// Takes the section of this name out. The others keep their order. It takes no memory. It is refused
    /// at step 0 as unknown, where no section has the name, and else as in use, where a post stands at
    /// one of its joints or a route has it in its path or overlap.
    pub fn remove_section(&mut self, name: Name) -> Result<Section, NetFault>
        ensures accepted { OnOk result (section_removal self.old name ≡ None) }
        ensures removed { IfOk result (λ section. section_named name self.old.sections ≡ Some section) }
        ensures rest { OnOk result (self.new ≡ record self.old { sections = without (is_named name) self.old.sections }) }
        ensures named { IfOk result (λ section. section.name ≡ name) }
        ensures stood { IfOk result (λ section.
            IsSomeAnd (position (is_named name) self.old.sections) (StoodAt section self.new.sections self.old.sections)) }
        ensures refused { IfErr result (λ fault. section_removal self.old name ≡ Some fault) }
        ensures unchanged { OnErr result (self.new ≡ self.old) }
        ensures sound { IsSoundNetwork self.new }
    {
        if let Some(fault) = self.section_removal(name) {
            return Err(fault);
        }
        self.track.remove_section(name)
    }

    /// Takes the post of this name out. The others keep their order. It takes no memory. It is refused at
    /// step 0 as unknown, where no post has the name, and else as in use, where a turn or a route names
    /// it.
    pub fn remove_post(&mut self, name: Name) -> Result<Post, NetFault>
        ensures accepted { OnOk result (post_removal self.old name ≡ None) }
        ensures removed { IfOk result (λ post. post_named name self.old ≡ Some post) }
        ensures rest { OnOk result (self.new ≡ without_post name self.old) }
        ensures named { IfOk result (λ post. post.name ≡ name) }
        ensures stood { IfOk result (λ post. IsSomeAnd (post_position name self.old) (PostStoodAt post self.new self.old)) }
        ensures refused { IfErr result (λ fault. post_removal self.old name ≡ Some fault) }
        ensures unchanged { OnErr result (self.new ≡ self.old) }
        ensures sound { IsSoundNetwork self.new }
    {
        if let Some(fault) = self.post_removal(name) {
            return Err(fault);
        }
        // The posts share one name space, so that at most one of the lists has the name.
        let portal = self.portals.remove(name);
        let signal = self.signals.remove(name);
        let board = self.boards.remove(name);
        let Some(post) = portal.or(signal).or(board) else {
            return Err(NetFault::Refused {
                reason: Reason::Unknown,
                step: 0,
            });
        };
        Ok(post)
    }

    /// Takes the turn between these posts out. The others keep their order. It takes no memory. It is
    /// refused as unknown, at step 0, exactly where no turn is between them.
    pub fn remove_turn(&mut self, arriving: Name, leaving: Name) -> Result<Turn, NetFault>
        ensures accepted { OnOk result (turn_removal self.old arriving leaving ≡ None) }
        ensures removed { IfOk result (λ turn. find (is_turn arriving leaving) self.old.turns ≡ Some turn) }
        ensures rest { OnOk result (self.new ≡ record self.old { turns = without (is_turn arriving leaving) self.old.turns }) }
        ensures arriving { IfOk result (λ turn. turn.arriving ≡ arriving) }
        ensures leaving { IfOk result (λ turn. turn.leaving ≡ leaving) }
        ensures stood { IfOk result (λ turn.
            IsSomeAnd (position (is_turn arriving leaving) self.old.turns) (StoodAt turn self.new.turns self.old.turns)) }
        ensures refused { IfErr result (λ fault. turn_removal self.old arriving leaving ≡ Some fault) }
        ensures unchanged { OnErr result (self.new ≡ self.old) }
        ensures sound { IsSoundNetwork self.new }
    {
        let Some(turn) = self.turns.remove(&(arriving, leaving)) else {
            return Err(NetFault::Refused {
                reason: Reason::Unknown,
                step: 0,
            });
        };
        discount_each(&mut self.turned, &[turn.arriving, turn.leaving]);
        Ok(turn)
    }

    /// Takes the route of this name out. The others keep their order. It takes no memory. It is refused
    /// as unknown, at step 0, exactly where no route has the name.
    pub fn remove_route(&mut self, name: Name) -> Result<Route, NetFault>
        ensures accepted { OnOk result (route_removal self.old name ≡ None) }
        ensures removed { IfOk result (λ route. find (is_route name) self.old.routes ≡ Some route) }
        ensures rest { OnOk result (self.new ≡ record self.old { routes = without (is_route name) self.old.routes }) }
        ensures named { IfOk result (λ route. route.name ≡ name) }
        ensures stood { IfOk result (λ route.
            IsSomeAnd (position (is_route name) self.old.routes) (StoodAt route self.new.routes self.old.routes)) }
        ensures refused { IfErr result (λ fault. route_removal self.old name ≡ Some fault) }
        ensures unchanged { OnErr result (self.new ≡ self.old) }
        ensures sound { IsSoundNetwork self.new }
    {
        let Some(route) = self.routes.remove(&name) else {
            return Err(NetFault::Refused {
                reason: Reason::Unknown,
                step: 0,
            });
        };
        discount_sections(&mut self.claimed, &route);
        discount_each(&mut self.routed, &[route.from, route.to]);
        Ok(route)
    }
}

/// The joints of a network that take no further section.
#[derive(Clone, Copy)]
struct ClosedInNetwork<'a> {
    track: &'a Track,
    portals: &'a PostList,
}

impl ClosedJoints for ClosedInNetwork<'_> {
    ghost use Rattle.rail_routes.specs.SectionRules.{is_closed_by};

    ghost is_closed = { λ rule. is_closed_by rule.track.now rule.portals.now };

    fn is_closed(&self, joint: Name) -> bool {
        self.track.is_closed(joint) || self.portals.stands_at(joint)
    }
}
