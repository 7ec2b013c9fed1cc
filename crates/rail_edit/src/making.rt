//! Edits that are made, and what is kept of them.
ghost use Rattle.std.specs.Prelude.{◌≡◌, None, Some, IsTrue, OnOk, OnErr, IfOk, IfErr};
ghost use Rattle.rail_track.specs.NetFaults.{Answers};
ghost use Rattle.rail_routes.specs.PostRules.{is_formed};
ghost use Rattle.rail_routes.specs.SoundNetworks.{IsSoundNetwork};
ghost use Rattle.rail_edit.specs.Edits.{edited, edit_refusal, is_formed_edit};
ghost use Rattle.rail_edit.specs.Inverses.{taken_back, Fits, edit_of};

use crate::edit::{Edit, Kept};
use rail_base::Name;
use rail_routes::{Network, Post, Route, Turn};
use rail_track::{NetFault, Section};
use std::alloc::Global;

/// Makes an edit, and tells what takes it back.
pub(crate) fn make(network: &mut Network, alloc: Global, edit: Edit) -> Result<Kept, NetFault>
    requires { IsTrue (is_formed_edit edit) }
    ensures accepted { OnOk result (edit_refusal edit network.old ≡ None) }
    ensures edited { OnOk result (network.new ≡ edited edit network.old) }
    ensures fits { IfOk result (λ kept. Fits kept network.new) }
    ensures back { IfOk result (λ kept. taken_back kept network.new ≡ network.old) }
    ensures same { IfOk result (λ kept. edit_of kept network.new ≡ edit) }
    ensures was_sound { IsSoundNetwork network.old }
    ensures refused { IfErr result (Answers (edit_refusal edit network.old)) }
    ensures unchanged { OnErr result (network.new ≡ network.old) }
{
    // A network is sound at any time, as its sections tell.
    let _sections = network.sections();
    match edit {
        Edit::AddSection(section) => add_section(network, alloc, section),
        Edit::AddPost(post) => add_post(network, alloc, post),
        Edit::AddTurn(turn) => add_turn(network, alloc, turn),
        Edit::AddRoute(route) => add_route(network, alloc, route),
        Edit::RemoveSection(name) => remove_section(network, name),
        Edit::RemovePost(name) => remove_post(network, name),
        Edit::RemoveTurn { arriving, leaving } => remove_turn(network, arriving, leaving),
        Edit::RemoveRoute(name) => remove_route(network, name),
    }
}

/// Adds a section, and tells what takes it back.
fn add_section(network: &mut Network, alloc: Global, section: Section) -> Result<Kept, NetFault>
    ensures accepted { OnOk result (edit_refusal (Edit.AddSection section) network.old ≡ None) }
    ensures edited { OnOk result (network.new ≡ edited (Edit.AddSection section) network.old) }
    ensures fits { IfOk result (λ kept. Fits kept network.new) }
    ensures back { IfOk result (λ kept. taken_back kept network.new ≡ network.old) }
    ensures same { IfOk result (λ kept. edit_of kept network.new ≡ Edit.AddSection section) }
    ensures refused { IfErr result (Answers (edit_refusal (Edit.AddSection section) network.old)) }
    ensures unchanged { OnErr result (network.new ≡ network.old) }
{
    let name = section.name;
    match network.add_section(alloc, section) {
        Ok(()) => Ok(Kept::AddedSection(name)),
        Err(fault) => Err(fault),
    }
}

/// Adds a post, and tells what takes it back.
fn add_post(network: &mut Network, alloc: Global, post: Post) -> Result<Kept, NetFault>
    requires { IsTrue (is_formed post) }
    ensures accepted { OnOk result (edit_refusal (Edit.AddPost post) network.old ≡ None) }
    ensures edited { OnOk result (network.new ≡ edited (Edit.AddPost post) network.old) }
    ensures fits { IfOk result (λ kept. Fits kept network.new) }
    ensures back { IfOk result (λ kept. taken_back kept network.new ≡ network.old) }
    ensures same { IfOk result (λ kept. edit_of kept network.new ≡ Edit.AddPost post) }
    ensures refused { IfErr result (Answers (edit_refusal (Edit.AddPost post) network.old)) }
    ensures unchanged { OnErr result (network.new ≡ network.old) }
{
    let name = post.name;
    match network.add_post(alloc, post) {
        Ok(()) => Ok(Kept::AddedPost(name)),
        Err(fault) => Err(fault),
    }
}

/// Adds a turn, and tells what takes it back.
fn add_turn(network: &mut Network, alloc: Global, turn: Turn) -> Result<Kept, NetFault>
    ensures accepted { OnOk result (edit_refusal (Edit.AddTurn turn) network.old ≡ None) }
    ensures edited { OnOk result (network.new ≡ edited (Edit.AddTurn turn) network.old) }
    ensures fits { IfOk result (λ kept. Fits kept network.new) }
    ensures back { IfOk result (λ kept. taken_back kept network.new ≡ network.old) }
    ensures same { IfOk result (λ kept. edit_of kept network.new ≡ Edit.AddTurn turn) }
    ensures refused { IfErr result (Answers (edit_refusal (Edit.AddTurn turn) network.old)) }
    ensures unchanged { OnErr result (network.new ≡ network.old) }
{
    let Turn {
        arriving,
        leaving,
        ..
    } = turn;
    match network.add_turn(alloc, turn) {
        Ok(()) => Ok(Kept::AddedTurn { arriving, leaving }),
        Err(fault) => Err(fault),
    }
}

/// Adds a route, and tells what takes it back.
fn add_route(network: &mut Network, alloc: Global, route: Route) -> Result<Kept, NetFault>
    ensures accepted { OnOk result (edit_refusal (Edit.AddRoute route) network.old ≡ None) }
    ensures edited { OnOk result (network.new ≡ edited (Edit.AddRoute route) network.old) }
    ensures fits { IfOk result (λ kept. Fits kept network.new) }
    ensures back { IfOk result (λ kept. taken_back kept network.new ≡ network.old) }
    ensures same { IfOk result (λ kept. edit_of kept network.new ≡ Edit.AddRoute route) }
    ensures refused { IfErr result (Answers (edit_refusal (Edit.AddRoute route) network.old)) }
    ensures unchanged { OnErr result (network.new ≡ network.old) }
{
    let name = route.name;
    match network.add_route(alloc, route) {
        Ok(()) => Ok(Kept::AddedRoute(name)),
        Err(fault) => Err(fault),
    }
}

/// Takes a section out, and tells what takes that back.
pub(crate) fn remove_section(network: &mut Network, name: Name) -> Result<Kept, NetFault>
    ensures accepted { OnOk result (edit_refusal (Edit.RemoveSection name) network.old ≡ None) }
    ensures edited { OnOk result (network.new ≡ edited (Edit.RemoveSection name) network.old) }
    ensures fits { IfOk result (λ kept. Fits kept network.new) }
    ensures back { IfOk result (λ kept. taken_back kept network.new ≡ network.old) }
    ensures same { IfOk result (λ kept. edit_of kept network.new ≡ Edit.RemoveSection name) }
    ensures refused { IfErr result (λ fault. edit_refusal (Edit.RemoveSection name) network.old ≡ Some fault) }
    ensures unchanged { OnErr result (network.new ≡ network.old) }
{
    let index = network.section_index(name);
    match network.remove_section(name) {
        Ok(section) => Ok(Kept::RemovedSection {
            index: index.unwrap(),
            section,
        }),
        Err(fault) => Err(fault),
    }
}

/// Takes a post out, and tells what takes that back.
pub(crate) fn remove_post(network: &mut Network, name: Name) -> Result<Kept, NetFault>
    ensures accepted { OnOk result (edit_refusal (Edit.RemovePost name) network.old ≡ None) }
    ensures edited { OnOk result (network.new ≡ edited (Edit.RemovePost name) network.old) }
    ensures fits { IfOk result (λ kept. Fits kept network.new) }
    ensures back { IfOk result (λ kept. taken_back kept network.new ≡ network.old) }
    ensures same { IfOk result (λ kept. edit_of kept network.new ≡ Edit.RemovePost name) }
    ensures refused { IfErr result (λ fault. edit_refusal (Edit.RemovePost name) network.old ≡ Some fault) }
    ensures unchanged { OnErr result (network.new ≡ network.old) }
{
    let index = network.post_index(name);
    match network.remove_post(name) {
        Ok(post) => Ok(Kept::RemovedPost {
            index: index.unwrap(),
            post,
        }),
        Err(fault) => Err(fault),
    }
}

/// Takes a turn out, and tells what takes that back.
pub(crate) fn remove_turn(
    network: &mut Network,
    arriving: Name,
    leaving: Name,
) -> Result<Kept, NetFault>
    ensures accepted { OnOk result (edit_refusal (Edit.RemoveTurn arriving leaving) network.old ≡ None) }
    ensures edited { OnOk result (network.new ≡ edited (Edit.RemoveTurn arriving leaving) network.old) }
    ensures fits { IfOk result (λ kept. Fits kept network.new) }
    ensures back { IfOk result (λ kept. taken_back kept network.new ≡ network.old) }
    ensures same { IfOk result (λ kept. edit_of kept network.new ≡ Edit.RemoveTurn arriving leaving) }
    ensures refused { IfErr result (λ fault. edit_refusal (Edit.RemoveTurn arriving leaving) network.old ≡ Some fault) }
    ensures unchanged { OnErr result (network.new ≡ network.old) }
{
    let index = network.turn_index(arriving, leaving);
    match network.remove_turn(arriving, leaving) {
        Ok(turn) => Ok(Kept::RemovedTurn {
            index: index.unwrap(),
            turn,
        }),
        Err(fault) => Err(fault),
    }
}

/// Takes a route out, and tells what takes that back.
pub(crate) fn remove_route(network: &mut Network, name: Name) -> Result<Kept, NetFault>
    ensures accepted { OnOk result (edit_refusal (Edit.RemoveRoute name) network.old ≡ None) }
    ensures edited { OnOk result (network.new ≡ edited (Edit.RemoveRoute name) network.old) }
    ensures fits { IfOk result (λ kept. Fits kept network.new) }
    ensures back { IfOk result (λ kept. taken_back kept network.new ≡ network.old) }
    ensures same { IfOk result (λ kept. edit_of kept network.new ≡ Edit.RemoveRoute name) }
    ensures refused { IfErr result (λ fault. edit_refusal (Edit.RemoveRoute name) network.old ≡ Some fault) }
    ensures unchanged { OnErr result (network.new ≡ network.old) }
{
    let index = network.route_index(name);
    match network.remove_route(name) {
        Ok(route) => Ok(Kept::RemovedRoute {
            index: index.unwrap(),
            route,
        }),
        Err(fault) => Err(fault),
    }
}
