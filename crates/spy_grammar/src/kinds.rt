//! The first word of each kind of record.

ghost use Rattle.std.specs.Prelude.{◌≡◌};
ghost use Rattle.spy_grammar.specs.Rows.{entry, kind_in, plain_log};

use crate::kinds::RecordKind::*;
use spy_words::LineFault;

/// The kinds of record.
#[derive(Clone, Copy)]
pub enum RecordKind {
    Header,
    Ispace,
    Part,
    Sub,
    Fields,
    Tree,
    Redop,
    Task,
    Req,
    Fill,
    Serial,
    Inst,
    Map,
    Run,
    Copy,
    Put,
    Reset,
    Fold,
    Merge,
    End,
}

/// Every kind, in the order of the format's table.
#[rattlefmt::skip]
const KINDS: [RecordKind; 20] = [
    Header, Ispace, Part, Sub, Fields, Tree, Redop, Task, Req, Fill,
    Serial, Inst, Map, Run, Copy, Put, Reset, Fold, Merge, End,
];

/// The first word of a kind.
pub fn name_text(kind: RecordKind) -> &'static [u8]
    ensures { result.now ≡ (entry kind).name }
{
    match kind {
        Header => b"legion-spy",
        Ispace => b"ispace",
        Part => b"part",
        Sub => b"sub",
        Fields => b"fields",
        Tree => b"tree",
        Redop => b"redop",
        Task => b"task",
        Req => b"req",
        Fill => b"fill",
        Serial => b"serial",
        Inst => b"inst",
        Map => b"map",
        Run => b"run",
        Copy => b"copy",
        Put => b"put",
        Reset => b"reset",
        Fold => b"fold",
        Merge => b"merge",
        End => b"end",
    }
}

/// A kind of which a word may be the name, by its first two letters. Only how soon it is found rests on it.
#[inline]
fn likely_kind(word: &[u8]) -> RecordKind {
    match word {
        [b'i', b's', ..] => Ispace,
        [b'p', b'a', ..] => Part,
        [b's', b'u', ..] => Sub,
        [b'f', b'i', b'e', ..] => Fields,
        [b't', b'r', ..] => Tree,
        [b't', b'a', ..] => Task,
        [b'r', b'e', b'q', ..] => Req,
        [b'f', b'i', ..] => Fill,
        [b'i', b'n', ..] => Inst,
        [b'm', b'a', ..] => Map,
        [b'r', b'u', ..] => Run,
        [b'c', b'o', ..] => Copy,
        [b'p', b'u', ..] => Put,
        [b'r', b'e', b's', ..] => Reset,
        [b'f', b'o', ..] => Fold,
        [b'm', b'e', ..] => Merge,
        _ => End,
    }
}

/// The kind with this first word, found in the table.
#[tactic(auto, unfolding(crate::specs::Rows::kind_in))]
fn kind_in_table(word: &[u8]) -> Result<RecordKind, LineFault>
    ensures { result ≡ kind_in plain_log word.now }
{
    let mut rest = KINDS.as_slice();
    while let [kind, more @ ..] = rest {
        if word == name_text(*kind) {
            return Ok(*kind);
        }
        rest = more;
    }
    Err(LineFault::Word)
}

/// The kind with this first word.
pub fn kind_of(word: &[u8]) -> Result<RecordKind, LineFault>
    ensures { result ≡ kind_in plain_log word.now }
{
    let kind = likely_kind(word);
    if word == name_text(kind) {
        return Ok(kind);
    }
    kind_in_table(word)
}
