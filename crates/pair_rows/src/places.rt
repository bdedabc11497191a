//! Places, each with the items that use it.

ghost use Rattle.std.specs.Prelude.{◌≡◌, ◌<◌, ◌++◌, ◌∷◌, [], length, OnErr, OnOk, slice_index_or};

use crate::users::User;
use std::alloc::{AllocError, Global};
use std::marker::Model;

/// Places, each with the items that use it. All users lie in one list, so that a place of few users takes little room.
#[derive(Drop)]
pub struct Places {
    users: Vec<User>,
    spans: Vec<(usize, usize)>,
}

impl Model for Places {
    ghost use Rattle.std.specs.Prelude.{List, All, length, map};
    ghost use Rattle.pair_rows.specs.declared.users.User.{User};
    ghost use Rattle.pair_rows.specs.Spans.{IsSpan, users_between};

    ghost Value = { List (List User) };

    ghost view = { λ p. map (users_between p.users.items) p.spans.items };

    ghost invariant = { λ p. All (IsSpan (length p.users.items)) p.spans.items };
}

impl Places {
    /// No place.
    pub fn new(alloc: Global) -> Places
        ensures { result ≡ [] }
    {
        Places {
            users: Vec::new(alloc),
            spans: Vec::new(alloc),
        }
    }

    /// How many places there are.
    pub fn len(&self) -> usize
        ensures { result ≡ length self.now }
    {
        self.spans.len()
    }

    /// The users of a place.
    pub fn users(&self, k: usize) -> &[User]
        requires { k < length self.now }
        ensures { result.now ≡ slice_index_or self.now k [] }
    {
        let span = self.spans[k];
        &self.users[span.0..span.1]
    }

    /// One place more, or the same places where memory runs out.
    pub fn push(&mut self, users: &[User]) -> Result<(), AllocError>
        ensures ok { OnOk result (self.new ≡ self.old ++ users.now ∷ []) }
        ensures err { OnErr result (self.new ≡ self.old) }
    {
        self.spans.reserve(1)?;
        let from = self.users.len();
        self.users.extend_from_slice(users)?;
        self.spans.push((from, self.users.len()))?;
        Ok(())
    }
}
