//! The users of each place, made of what is done there.

ghost use Rattle.std.specs.Prelude.{◌≡◌, ◌<◌, All, IfOk, OnOk, length, map};
ghost use Rattle.std.specs.List.Sorted.{IsPermutation};
ghost use Rattle.cell_races.specs.CellAccesses.{AreInOrder};
ghost use Rattle.pair_rows.specs.Meetings.{AreByClass};
ghost use Rattle.task_order.specs.Users.{AreUsersOf, IsOneMore, class_of, user_of};

use cell_races::{Access, CellAccess, cell_end};
use pair_rows::{Places, User};
use std::alloc::{AllocError, Global};

/// The class of the users of one kind of access.
fn class_of(access: Access) -> u64
    ensures { result ≡ class_of access }
{
    match access {
        Access::Writes => 0,
        Access::Reads => 1,
        Access::Folds(op) => op as u64 + 2,
    }
}

/// The item whose access it is, and how it uses the place.
fn user_of(order: &[usize], cell_access: &CellAccess) -> User
    requires { cell_access.now.place < length order.now }
    ensures { result ≡ user_of order.now cell_access.now }
{
    User {
        item: order[cell_access.place],
        class: class_of(cell_access.access),
    }
}

/// The users of accesses, one for each.
fn users_of(
    alloc: Global,
    order: &[usize],
    cell_accesses: &[CellAccess],
) -> Result<Vec<User>, AllocError>
    requires { All (λ x. x.place < length order.now) cell_accesses.now }
    ensures { IfOk result (λ users. users.items ≡ map (user_of order.now) cell_accesses.now) }
{
    let mut users = Vec::with_capacity(alloc, cell_accesses.len())?;
    for cell_access in cell_accesses {
        users.push(user_of(order, cell_access))?;
    }
    Ok(users)
}

/// Puts users in the order of their classes.
fn sort_users(users: &mut Vec<User>)
    ensures users { IsPermutation users.old.items users.new.items }
    ensures classes { AreByClass users.new.items }
{
    users.sort_unstable_by_key(|user| user.class);
}

/// The place of the accesses of one cell, as one place more.
fn push_place(
    places: &mut Places,
    alloc: Global,
    order: &[usize],
    cell_accesses: &[CellAccess],
) -> Result<(), AllocError>
    requires { All (λ x. x.place < length order.now) cell_accesses.now }
    ensures { OnOk result (IsOneMore order.now cell_accesses.now places.old places.new) }
{
    let mut users = users_of(alloc, order, cell_accesses)?;
    sort_users(&mut users);
    places.push(&users)?;
    Ok(())
}

/// The places at which accesses are, each with its users: the items whose accesses they are, by the order of items.
pub(crate) fn users_of_cells(
    alloc: Global,
    order: &[usize],
    cell_accesses: &[CellAccess],
) -> Result<Places, AllocError>
    requires in_order { AreInOrder cell_accesses.now }
    requires within { All (λ x. x.place < length order.now) cell_accesses.now }
    ensures users { IfOk result (AreUsersOf order.now cell_accesses.now) }
    ensures classes { IfOk result (All AreByClass) }
{
    let mut places = Places::new(alloc);
    let mut from = 0;
    while from < cell_accesses.len() {
        let end = cell_end(cell_accesses, from);
        push_place(&mut places, alloc, order, &cell_accesses[from..end])?;
        from = end;
    }
    Ok(places)
}
