//! Privileges as types, so that a call that a privilege does not allow is refused by its bounds.

ghost use Rattle.std.specs.Prelude.{◌≡◌, ℕ, true, refl};
ghost use Rattle.privilege.specs.declared.kinds.Priv.{Priv};
ghost use Rattle.privilege.specs.declared.kinds.Priv.TheVariants as privileges;
ghost use Rattle.privilege.specs.Allowed.{may_read, may_write};

use crate::kinds::Priv;

/// Read.
#[derive(Clone, Copy, PartialEq, Eq)]
pub struct Ro;

/// Read and write.
#[derive(Clone, Copy, PartialEq, Eq)]
pub struct Rw;

/// Write, and see nothing of the old contents.
#[derive(Clone, Copy, PartialEq, Eq)]
pub struct Wd;

/// Reduce with an operator.
#[derive(Clone, Copy, PartialEq, Eq)]
pub struct Red {
    /// The id of the operator.
    pub op: u32,
}

/// A type that stands for a privilege.
pub trait Privilege {
    ghost word: { Self → Priv };

    /// The privilege.
    fn word(&self) -> Priv
        ensures { result ≡ word self.now };
}

/// A privilege under which a task may see the old contents.
pub trait Reads: Privilege {
    ghost reads: { (marker : Self) → may_read (Self.word marker) ≡ true };
}

/// A privilege under which a task may put new contents in place of the old.
pub trait Writes: Privilege {
    ghost writes: { (marker : Self) → may_write (Self.word marker) ≡ true };
}

/// A privilege under which a task may reduce.
pub trait Folds: Privilege {
    ghost op: { Self → ℕ };

    /// The operator.
    fn op(&self) -> u32
        ensures { result ≡ op self.now };

    // The privilege is to reduce with this operator.
    ghost reduces: { (marker : Self) → Self.word marker ≡ privileges.Red (op marker) };
}

impl Privilege for Ro {
    ghost word = { λ _. privileges.Ro };

    fn word(&self) -> Priv {
        Priv::Ro
    }
}

impl Privilege for Rw {
    ghost word = { λ _. privileges.Rw };

    fn word(&self) -> Priv {
        Priv::Rw
    }
}

impl Privilege for Wd {
    ghost word = { λ _. privileges.Wd };

    fn word(&self) -> Priv {
        Priv::Wd
    }
}

impl Privilege for Red {
    ghost word = { λ marker. privileges.Red marker.op };

    fn word(&self) -> Priv {
        Priv::Red(self.op)
    }
}

impl Reads for Ro {
    ghost reads = { λ _. refl };
}

impl Reads for Rw {
    ghost reads = { λ _. refl };
}

impl Writes for Rw {
    ghost writes = { λ _. refl };
}

impl Writes for Wd {
    ghost writes = { λ _. refl };
}

impl Folds for Red {
    ghost op = { λ marker. marker.op };

    ghost reduces = { λ _. refl };

    fn op(&self) -> u32 {
        self.op
    }
}
