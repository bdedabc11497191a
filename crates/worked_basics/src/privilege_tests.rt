//! What a marker is known to be by its bound alone.

ghost use Rattle.std.specs.Prelude.{◌≡◌, true};
ghost use Rattle.vocabulary.specs.Prelude.{may_read, may_write};

use privilege::{Folds, Priv, Privilege, Reads, Red, Ro, Rw, Wd, Writes};

fn word_of<M: Privilege>(marker: &M) -> Priv
    ensures { result ≡ M.word marker.now }
{
    marker.word()
}

fn word_of_reader<M: Reads>(marker: &M) -> Priv
    ensures { may_read result ≡ true }
{
    marker.word()
}

fn word_of_writer<M: Writes>(marker: &M) -> Priv
    ensures { may_write result ≡ true }
{
    marker.word()
}

fn operator_of<M: Folds>(marker: &M) -> u32
    ensures { M.word marker.now ≡ Priv.Red result }
{
    marker.op()
}

#[test]
fn markers_stand_for_privileges(rt: HostRuntime) {
    assert!(rt; word_of_reader(&Ro) == Priv::Ro && word_of_reader(&Rw) == Priv::Rw);
    assert!(rt; word_of_writer(&Rw) == Priv::Rw && word_of_writer(&Wd) == Priv::Wd);
    assert!(rt; word_of(&Red { op: 7 }) == Priv::Red(7));
    assert_eq!(rt; operator_of(&Red { op: 7 }), 7);
}
