//! Changes of the value at a place.

ghost use Rattle.std.specs.Prelude.{◌≡◌};
ghost use Rattle.serial_exec.specs.Changes as says;

use privilege::Priv;
use value_terms::{Base, Contribution};

/// What an item does to the value at a place.
#[derive(Clone, Copy)]
pub enum Action {
    /// It puts a base in place of what was there.
    Put(Base),
    /// It adds a contribution by an operator.
    Add { op: u32, by: Contribution },
}

/// A change of the value at a place.
#[derive(Clone, Copy)]
pub struct Change {
    /// The place of its item in serial order.
    pub position: usize,
    /// What is done there.
    pub action: Action,
}

/// What a task does to a value by a requirement, or `None` where it leaves the value.
pub(crate) fn task_action(task: u32, number: u32, access: Priv) -> Option<Action>
    ensures { result ≡ says.task_action task number access }
{
    match access {
        Priv::Ro => None,
        Priv::Rw | Priv::Wd => Some(Action::Put(Base::Out(task))),
        Priv::Red(op) => Some(Action::Add {
            op,
            by: Contribution { task, req: number },
        }),
    }
}
