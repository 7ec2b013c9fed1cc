//! Edits that are taken back, and made again.
ghost use Rattle.std.specs.Prelude.{◌≡◌, None, OnOk, OnErr, IfOk, IfErr};
ghost use Rattle.rail_routes.specs.SoundNetworks.{IsSoundNetwork};
ghost use Rattle.rail_edit.specs.Edits.{edited, edit_refusal};
ghost use Rattle.rail_edit.specs.Inverses.{taken_back, Fits, edit_of};

use crate::edit::{Edit, Kept};
use crate::making::{remove_post, remove_route, remove_section, remove_turn};
use rail_routes::{Network, Post, Route, Turn};
use rail_track::Section;

/// Takes the last edit back, and tells it. It fails only for want of memory, and then gives back what was
/// kept.
pub(crate) fn take_back(network: &mut Network, kept: Kept) -> Result<Edit, Kept>
    requires fits { Fits kept network.old }
    requires sound { IsSoundNetwork (taken_back kept network.old) }
    ensures edit { IfOk result (λ edit. edit ≡ edit_of kept network.old) }
    ensures taken { OnOk result (network.new ≡ taken_back kept network.old) }
    ensures was_sound { IsSoundNetwork network.old }
    ensures returned { IfErr result (λ back. back ≡ kept) }
    ensures unchanged { OnErr result (network.new ≡ network.old) }
{
    // A network is sound at any time, as its sections tell.
    let _sections = network.sections();
    match kept {
        Kept::AddedSection(name) => Ok(Edit::AddSection(network.take_back_section(name).unwrap())),
        Kept::AddedPost(name) => Ok(Edit::AddPost(network.take_back_post(name).unwrap())),
        Kept::AddedTurn { arriving, leaving } => {
            Ok(Edit::AddTurn(network.remove_turn(arriving, leaving).unwrap()))
        }
        Kept::AddedRoute(name) => Ok(Edit::AddRoute(network.remove_route(name).unwrap())),
        Kept::RemovedSection { index, section } => put_back_section(network, index, section),
        Kept::RemovedPost { index, post } => put_back_post(network, index, post),
        Kept::RemovedTurn { index, turn } => put_back_turn(network, index, turn),
        Kept::RemovedRoute { index, route } => put_back_route(network, index, route),
    }
}

/// Puts a section back that an edit took out, and tells that edit.
fn put_back_section(network: &mut Network, index: usize, section: Section) -> Result<Edit, Kept>
    requires fits { Fits (Kept.RemovedSection index section) network.old }
    requires sound { IsSoundNetwork (taken_back (Kept.RemovedSection index section) network.old) }
    ensures edit { IfOk result (λ edit. edit ≡ edit_of (Kept.RemovedSection index section) network.old) }
    ensures taken { OnOk result (network.new ≡ taken_back (Kept.RemovedSection index section) network.old) }
    ensures returned { IfErr result (λ back. back ≡ Kept.RemovedSection index section) }
    ensures unchanged { OnErr result (network.new ≡ network.old) }
{
    let name = section.name;
    match network.put_back_section(index, section) {
        Ok(()) => Ok(Edit::RemoveSection(name)),
        Err(refused) => Err(Kept::RemovedSection {
            index,
            section: refused.value,
        }),
    }
}

/// Puts a post back that an edit took out, and tells that edit.
fn put_back_post(network: &mut Network, index: usize, post: Post) -> Result<Edit, Kept>
    requires fits { Fits (Kept.RemovedPost index post) network.old }
    requires sound { IsSoundNetwork (taken_back (Kept.RemovedPost index post) network.old) }
    ensures edit { IfOk result (λ edit. edit ≡ edit_of (Kept.RemovedPost index post) network.old) }
    ensures taken { OnOk result (network.new ≡ taken_back (Kept.RemovedPost index post) network.old) }
    ensures returned { IfErr result (λ back. back ≡ Kept.RemovedPost index post) }
    ensures unchanged { OnErr result (network.new ≡ network.old) }
{
    let name = post.name;
    // A copy that stays here, where the call fails.
    let copy = post;
    match network.put_back_post(index, post) {
        Ok(()) => Ok(Edit::RemovePost(name)),
        Err(_) => Err(Kept::RemovedPost { index, post: copy }),
    }
}

/// Puts a turn back that an edit took out, and tells that edit.
fn put_back_turn(network: &mut Network, index: usize, turn: Turn) -> Result<Edit, Kept>
    requires fits { Fits (Kept.RemovedTurn index turn) network.old }
    requires sound { IsSoundNetwork (taken_back (Kept.RemovedTurn index turn) network.old) }
    ensures edit { IfOk result (λ edit. edit ≡ edit_of (Kept.RemovedTurn index turn) network.old) }
    ensures taken { OnOk result (network.new ≡ taken_back (Kept.RemovedTurn index turn) network.old) }
    ensures returned { IfErr result (λ back. back ≡ Kept.RemovedTurn index turn) }
    ensures unchanged { OnErr result (network.new ≡ network.old) }
{
    let Turn {
        arriving,
        leaving,
        ..
    } = turn;
    let copy = turn;
    match network.put_back_turn(index, turn) {
        Ok(()) => Ok(Edit::RemoveTurn { arriving, leaving }),
        Err(_) => Err(Kept::RemovedTurn { index, turn: copy }),
    }
}

/// Puts a route back that an edit took out, and tells that edit.
fn put_back_route(network: &mut Network, index: usize, route: Route) -> Result<Edit, Kept>
    requires fits { Fits (Kept.RemovedRoute index route) network.old }
    requires sound { IsSoundNetwork (taken_back (Kept.RemovedRoute index route) network.old) }
    ensures edit { IfOk result (λ edit. edit ≡ edit_of (Kept.RemovedRoute index route) network.old) }
    ensures taken { OnOk result (network.new ≡ taken_back (Kept.RemovedRoute index route) network.old) }
    ensures returned { IfErr result (λ back. back ≡ Kept.RemovedRoute index route) }
    ensures unchanged { OnErr result (network.new ≡ network.old) }
{
    let name = route.name;
    match network.put_back_route(index, route) {
        Ok(()) => Ok(Edit::RemoveRoute(name)),
        Err(refused) => Err(Kept::RemovedRoute {
            index,
            route: refused.value,
        }),
    }
}

/// Makes an edit again that was taken back, and tells what takes it back. It fails only for want of memory,
/// and then gives the edit back.
pub(crate) fn make_again(network: &mut Network, edit: Edit) -> Result<Kept, Edit>
    requires accepted { edit_refusal edit network.old ≡ None }
    requires sound { IsSoundNetwork (edited edit network.old) }
    ensures edited { OnOk result (network.new ≡ edited edit network.old) }
    ensures fits { IfOk result (λ kept. Fits kept network.new) }
    ensures back { IfOk result (λ kept. taken_back kept network.new ≡ network.old) }
    ensures same { IfOk result (λ kept. edit_of kept network.new ≡ edit) }
    ensures was_sound { IsSoundNetwork network.old }
    ensures returned { IfErr result (λ back. back ≡ edit) }
    ensures unchanged { OnErr result (network.new ≡ network.old) }
{
    let _sections = network.sections();
    match edit {
        Edit::AddSection(section) => add_section_again(network, section),
        Edit::AddPost(post) => add_post_again(network, post),
        Edit::AddTurn(turn) => add_turn_again(network, turn),
        Edit::AddRoute(route) => add_route_again(network, route),
        Edit::RemoveSection(name) => Ok(remove_section(network, name).unwrap()),
        Edit::RemovePost(name) => Ok(remove_post(network, name).unwrap()),
        Edit::RemoveTurn { arriving, leaving } => {
            Ok(remove_turn(network, arriving, leaving).unwrap())
        }
        Edit::RemoveRoute(name) => Ok(remove_route(network, name).unwrap()),
    }
}

/// Adds a section again, and tells what takes it back.
fn add_section_again(network: &mut Network, section: Section) -> Result<Kept, Edit>
    requires { IsSoundNetwork (edited (Edit.AddSection section) network.old) }
    ensures edited { OnOk result (network.new ≡ edited (Edit.AddSection section) network.old) }
    ensures fits { IfOk result (λ kept. Fits kept network.new) }
    ensures back { IfOk result (λ kept. taken_back kept network.new ≡ network.old) }
    ensures same { IfOk result (λ kept. edit_of kept network.new ≡ Edit.AddSection section) }
    ensures returned { IfErr result (λ back. back ≡ Edit.AddSection section) }
    ensures unchanged { OnErr result (network.new ≡ network.old) }
{
    let name = section.name;
    let last = network.sections().len();
    match network.put_back_section(last, section) {
        Ok(()) => Ok(Kept::AddedSection(name)),
        Err(refused) => Err(Edit::AddSection(refused.value)),
    }
}

/// Adds a post again, and tells what takes it back.
fn add_post_again(network: &mut Network, post: Post) -> Result<Kept, Edit>
    requires { IsSoundNetwork (edited (Edit.AddPost post) network.old) }
    ensures edited { OnOk result (network.new ≡ edited (Edit.AddPost post) network.old) }
    ensures fits { IfOk result (λ kept. Fits kept network.new) }
    ensures back { IfOk result (λ kept. taken_back kept network.new ≡ network.old) }
    ensures same { IfOk result (λ kept. edit_of kept network.new ≡ Edit.AddPost post) }
    ensures returned { IfErr result (λ back. back ≡ Edit.AddPost post) }
    ensures unchanged { OnErr result (network.new ≡ network.old) }
{
    let name = post.name;
    let last = network.posts(post.role).len();
    let copy = post;
    match network.put_back_post(last, post) {
        Ok(()) => Ok(Kept::AddedPost(name)),
        Err(_) => Err(Edit::AddPost(copy)),
    }
}

/// Adds a turn again, and tells what takes it back.
fn add_turn_again(network: &mut Network, turn: Turn) -> Result<Kept, Edit>
    requires { IsSoundNetwork (edited (Edit.AddTurn turn) network.old) }
    ensures edited { OnOk result (network.new ≡ edited (Edit.AddTurn turn) network.old) }
    ensures fits { IfOk result (λ kept. Fits kept network.new) }
    ensures back { IfOk result (λ kept. taken_back kept network.new ≡ network.old) }
    ensures same { IfOk result (λ kept. edit_of kept network.new ≡ Edit.AddTurn turn) }
    ensures returned { IfErr result (λ back. back ≡ Edit.AddTurn turn) }
    ensures unchanged { OnErr result (network.new ≡ network.old) }
{
    let Turn {
        arriving,
        leaving,
        ..
    } = turn;
    let last = network.turns().len();
    let copy = turn;
    match network.put_back_turn(last, turn) {
        Ok(()) => Ok(Kept::AddedTurn { arriving, leaving }),
        Err(_) => Err(Edit::AddTurn(copy)),
    }
}

/// Adds a route again, and tells what takes it back.
fn add_route_again(network: &mut Network, route: Route) -> Result<Kept, Edit>
    requires { IsSoundNetwork (edited (Edit.AddRoute route) network.old) }
    ensures edited { OnOk result (network.new ≡ edited (Edit.AddRoute route) network.old) }
    ensures fits { IfOk result (λ kept. Fits kept network.new) }
    ensures back { IfOk result (λ kept. taken_back kept network.new ≡ network.old) }
    ensures same { IfOk result (λ kept. edit_of kept network.new ≡ Edit.AddRoute route) }
    ensures returned { IfErr result (λ back. back ≡ Edit.AddRoute route) }
    ensures unchanged { OnErr result (network.new ≡ network.old) }
{
    let name = route.name;
    let last = network.routes().len();
    match network.put_back_route(last, route) {
        Ok(()) => Ok(Kept::AddedRoute(name)),
        Err(refused) => Err(Edit::AddRoute(refused.value)),
    }
}
