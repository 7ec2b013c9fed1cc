//! The posts of one role, found by name, by joint and by the section ahead.

ghost use Rattle.std.specs.Prelude.{◌≡◌, ◌<◌, ◌≤◌, ◌^◌, false, List, [], ◌∷◌, ◌++◌, length, insert, position, OnOk, OnErr};
ghost use Rattle.std.specs.List.{find, list_any};
ghost use Rattle.std.specs.Option.{option_copied};
ghost use Rattle.rail_track.specs.Lists.{without};
ghost use Rattle.rail_routes.specs.Net.{is_post, stands_at, guards_at};

use crate::items::Post;
use indexmap::IndexMap;
use rail_base::Name;
use rail_track::{Roll, Tally, count, discount, times};
use std::alloc::{AllocError, Global};
use std::marker::Model;

/// The posts of one role in order, found by name, with the number of them at each joint, and at each
/// joint with each section ahead. Contracts see it as their list.
pub(crate) struct PostList {
    posts: Roll<Name, Post>,
    at: Tally<Name>,
    guards: Tally<(Name, Name)>,
}

/// Written out, so that it is proved once, and not at each place where a list is let go.
impl Drop for PostList {
    fn drop(self) {
        let PostList {
            posts: _,
            at: _,
            guards: _,
        } = self;
    }
}

impl Model for PostList {
    ghost use Rattle.std.specs.Prelude.{List};
    ghost use Rattle.rail_routes.specs.declared.items.Post.{Post};

    ghost Value = { List Post };

    ghost use Rattle.rail_routes.specs.PostFields.{IsPostListInside};

    ghost view = { λ list. list.posts };

    ghost invariant = { IsPostListInside };
}

impl PostList {
    /// No posts. It takes no memory.
    pub(crate) fn new(alloc: Global) -> PostList
        ensures { result ≡ [] }
    {
        PostList {
            posts: Roll::new(alloc),
            at: IndexMap::new(alloc),
            guards: IndexMap::new(alloc),
        }
    }

    /// The posts in order.
    pub(crate) fn as_slice(&self) -> &[Post]
        ensures { result.now ≡ self.now }
    {
        self.posts.as_slice()
    }

    /// Whether a post has the name.
    pub(crate) fn contains(&self, name: Name) -> bool
        ensures { result ≡ list_any (is_post name) self.now }
    {
        self.posts.contains(&name)
    }

    /// The post of this name.
    pub(crate) fn get(&self, name: Name) -> Option<Post>
        ensures { result ≡ find (is_post name) self.now }
    {
        self.posts.get(&name).copied()
    }

    /// The index of the post of this name, from 0.
    pub(crate) fn index_of(&self, name: Name) -> Option<usize>
        ensures { result ≡ position (is_post name) self.now }
    {
        self.posts.index_of(&name)
    }

    /// Whether a post stands at the joint.
    pub(crate) fn stands_at(&self, joint: Name) -> bool
        ensures { result ≡ list_any (stands_at joint) self.now }
    {
        times(&self.at, &joint) > 0
    }

    /// Whether a post at the joint has this section ahead.
    pub(crate) fn guards_at(&self, joint: Name, ahead: Name) -> bool
        ensures { result ≡ list_any (guards_at joint ahead) self.now }
    {
        times(&self.guards, &(joint, ahead)) > 0
    }

    /// Makes room for so many more posts at once. It fails only for want of memory.
    pub(crate) fn reserve(&mut self, posts: usize) -> Result<(), AllocError>
        ensures { self.new ≡ self.old }
    {
        self.at.reserve(posts)?;
        self.guards.reserve(posts)?;
        self.posts.reserve(posts)
    }

    /// Adds a post last. It fails only for want of memory.
    pub(crate) fn push(&mut self, post: Post) -> Result<(), AllocError>
        requires fresh { list_any (is_post post.name) self.old ≡ false }
        requires few { length self.old < 2 ^ 16 }
        ensures ok { OnOk result (self.new ≡ self.old ++ post ∷ []) }
        ensures err { OnErr result (self.new ≡ self.old) }
    {
        self.at.reserve(1)?;
        self.guards.reserve(1)?;
        let joint = post.joint;
        let ahead = post.ahead;
        self.posts.push(post)?;
        count(&mut self.at, joint);
        if let Some(ahead) = ahead {
            count(&mut self.guards, (joint, ahead));
        }
        Ok(())
    }

    /// Puts a post in at the index, from 0. It fails only for want of memory.
    pub(crate) fn insert(&mut self, index: usize, post: Post) -> Result<(), AllocError>
        requires within { index ≤ length self.old }
        requires fresh { list_any (is_post post.name) self.old ≡ false }
        requires few { length self.old < 2 ^ 16 }
        ensures ok { OnOk result (self.new ≡ insert self.old index post) }
        ensures err { OnErr result (self.new ≡ self.old) }
    {
        self.at.reserve(1)?;
        self.guards.reserve(1)?;
        let joint = post.joint;
        let ahead = post.ahead;
        if self.posts.insert(index, post).is_err() {
            return Err(AllocError);
        }
        count(&mut self.at, joint);
        if let Some(ahead) = ahead {
            count(&mut self.guards, (joint, ahead));
        }
        Ok(())
    }

    /// Takes the post of this name out. The others keep their order. It takes no memory.
    pub(crate) fn remove(&mut self, name: Name) -> Option<Post>
        ensures post { result ≡ find (is_post name) self.old }
        ensures rest { self.new ≡ without (is_post name) self.old }
    {
        let post = self.posts.remove(&name)?;
        discount(&mut self.at, post.joint);
        if let Some(ahead) = post.ahead {
            discount(&mut self.guards, (post.joint, ahead));
        }
        Some(post)
    }
}
