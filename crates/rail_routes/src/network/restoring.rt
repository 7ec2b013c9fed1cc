//! Items put back where they stood, and additions taken back.
ghost use Rattle.std.specs.Prelude.{◌≡◌, ◌≤◌, Some, length, insert, position, OnOk, OnErr, IfErr};
ghost use Rattle.std.specs.List.{find};

use super::Network;
use super::claiming::{count_of_sections, count_sections};
use crate::items::{Post, PostRole, Route, Turn};
use rail_base::Name;
use rail_track::{Section, count_each};
use std::alloc::{AllocError, AllocFailed};

impl Network {
    ghost use Rattle.rail_track.specs.Joints.{is_named, section_named};
    ghost use Rattle.rail_track.specs.Lists.{without};
    ghost use Rattle.rail_routes.specs.Net.{is_turn, is_route, post_named};
    ghost use Rattle.rail_routes.specs.PostChanges.{posts_of, post_position, with_post_at, without_post};
    ghost use Rattle.rail_routes.specs.SoundNetworks.{IsSoundNetwork};

    /// The posts of this role in order.
    pub fn posts(&self, role: PostRole) -> &[Post]
        ensures { result.now ≡ posts_of role self.now }
    {
        match role {
            PostRole::Portal => self.portals.as_slice(),
            PostRole::Signal => self.signals.as_slice(),
            PostRole::Board => self.boards.as_slice(),
        }
    }

    /// The index of the post of this name in the list of its role, from 0.
    pub fn post_index(&self, name: Name) -> Option<usize>
        ensures { result ≡ post_position name self.now }
    {
        self.portals
            .index_of(name)
            .or(self.signals.index_of(name))
            .or(self.boards.index_of(name))
    }

    /// The index of the turn from the one post to the other in the list of the turns, from 0.
    pub fn turn_index(&self, arriving: Name, leaving: Name) -> Option<usize>
        ensures { result ≡ position (is_turn arriving leaving) self.now.turns }
    {
        self.turns.index_of(&(arriving, leaving))
    }

    /// The index of the route of this name in the list of the routes, from 0.
    pub fn route_index(&self, name: Name) -> Option<usize>
        ensures { result ≡ position (is_route name) self.now.routes }
    {
        self.routes.index_of(&name)
    }

    /// Puts a section back at the index where it stood, from 0: the network was sound with it. It fails
    /// only for want of memory, and then gives the section back.
    pub fn put_back_section(
        &mut self,
        index: usize,
        section: Section,
    ) -> Result<(), AllocFailed<Section>>
        requires within { index ≤ length self.old.sections }
        requires sound { IsSoundNetwork (record self.old { sections = insert self.old.sections index section }) }
        ensures put { OnOk result (self.new ≡ record self.old { sections = insert self.old.sections index section }) }
        ensures found { OnOk result (section_named section.name self.new.sections ≡ Some section) }
        ensures back { OnOk result (without (is_named section.name) self.new.sections ≡ self.old.sections) }
        ensures unchanged { OnErr result (self.new ≡ self.old) }
        ensures returned { IfErr result (λ refused. refused.value ≡ section) }
    {
        self.track.put_back(index, section)
    }

    /// Puts a post back at the index where it stood in the list of its role, from 0: the network was sound
    /// with it. It fails only for want of memory.
    pub fn put_back_post(&mut self, index: usize, post: Post) -> Result<(), AllocError>
        requires within { index ≤ length (posts_of post.role self.old) }
        requires sound { IsSoundNetwork (with_post_at index post self.old) }
        ensures put { OnOk result (self.new ≡ with_post_at index post self.old) }
        ensures found { OnOk result (post_named post.name self.new ≡ Some post) }
        ensures back { OnOk result (without_post post.name self.new ≡ self.old) }
        ensures unchanged { OnErr result (self.new ≡ self.old) }
    {
        match post.role {
            PostRole::Portal => self.portals.insert(index, post),
            PostRole::Signal => self.signals.insert(index, post),
            PostRole::Board => self.boards.insert(index, post),
        }
    }

    /// Puts a turn back at the index where it stood, from 0: the network was sound with it. It fails only
    /// for want of memory.
    pub fn put_back_turn(&mut self, index: usize, turn: Turn) -> Result<(), AllocError>
        requires within { index ≤ length self.old.turns }
        requires sound { IsSoundNetwork (record self.old { turns = insert self.old.turns index turn }) }
        ensures put { OnOk result (self.new ≡ record self.old { turns = insert self.old.turns index turn }) }
        ensures found { OnOk result (find (is_turn turn.arriving turn.leaving) self.new.turns ≡ Some turn) }
        ensures back { OnOk result (without (is_turn turn.arriving turn.leaving) self.new.turns ≡ self.old.turns) }
        ensures unchanged { OnErr result (self.new ≡ self.old) }
    {
        let ends = [turn.arriving, turn.leaving];
        self.turned.reserve(2)?;
        if self.turns.insert(index, turn).is_err() {
            return Err(AllocError);
        }
        count_each(&mut self.turned, &ends);
        Ok(())
    }

    /// Puts a route back at the index where it stood, from 0: the network was sound with it. It fails only
    /// for want of memory, and then gives the route back.
    pub fn put_back_route(&mut self, index: usize, route: Route) -> Result<(), AllocFailed<Route>>
        requires within { index ≤ length self.old.routes }
        requires sound { IsSoundNetwork (record self.old { routes = insert self.old.routes index route }) }
        ensures put { OnOk result (self.new ≡ record self.old { routes = insert self.old.routes index route }) }
        ensures found { OnOk result (find (is_route route.name) self.new.routes ≡ Some route) }
        ensures back { OnOk result (without (is_route route.name) self.new.routes ≡ self.old.routes) }
        ensures unchanged { OnErr result (self.new ≡ self.old) }
        ensures returned { IfErr result (λ refused. refused.value ≡ route) }
    {
        let ends = [route.from, route.to];
        if self.routed.reserve(2).is_err() {
            return Err(AllocFailed { value: route });
        }
        if self.claimed.reserve(count_of_sections(&route)).is_err() {
            return Err(AllocFailed { value: route });
        }
        match self.routes.insert(index, route) {
            Ok(()) => {}
            Err(refused) => return Err(refused),
        }
        count_each(&mut self.routed, &ends);
        count_sections(&mut self.claimed, &self.routes.as_slice()[index]);
        Ok(())
    }

    /// Takes the section of this name out again, in use or not: the network was sound without it. The
    /// others keep their order. It takes no memory.
    pub fn take_back_section(&mut self, name: Name) -> Option<Section>
        requires { IsSoundNetwork (record self.old { sections = without (is_named name) self.old.sections }) }
        ensures taken { result ≡ section_named name self.old.sections }
        ensures rest { self.new ≡ record self.old { sections = without (is_named name) self.old.sections } }
    {
        self.track.remove_section(name).ok()
    }

    /// Takes the post of this name out again, in use or not: the network was sound without it. The others
    /// keep their order. It takes no memory.
    pub fn take_back_post(&mut self, name: Name) -> Option<Post>
        requires { IsSoundNetwork (without_post name self.old) }
        ensures taken { result ≡ post_named name self.old }
        ensures rest { self.new ≡ without_post name self.old }
    {
        let portal = self.portals.remove(name);
        let signal = self.signals.remove(name);
        let board = self.boards.remove(name);
        portal.or(signal).or(board)
    }
}
