//! Codes, read.

ghost use Rattle.std.specs.Prelude.{◌≡◌};
ghost use Rattle.report_reading.specs.CodeReading.{code_at};

use findings::code_text;
use spy_grammar::Code;
use spy_grammar::Code::*;

/// Every code, in the order of the table.
#[rattlefmt::skip]
const CODES: [Code; 42] = [
    TooLong, Newline, Word, Form, Number, Order, Header, Ended, Count, TooManyRecords,
    RepeatedId, UnknownId, TooManyPoints, SpaceInTwo, LateSub, TooDeep, NotWithin, NotDisjoint,
    NotRoot, NotInTree, Fields, SelfInterference, WrongTree, WrongKind, NotCovered, MappedTwice,
    NoRun, TwoRuns, RepeatedEvent, UndefinedEvent, Serial, TooManyCells, TooManyAccesses,
    TooMuchLoad, SerialOrder, Unmapped, LaunchRange, LaunchInterference, TooManyGroups,
    Version, TooManyAtoms, TooManyReads,
];

/// The code with this text, or `Word` where no code has it.
#[tactic(auto, unfolding(crate::specs::CodeReading::code_at))]
pub fn code_of(word: &[u8]) -> Code
    ensures { result ≡ code_at word.now }
{
    let mut rest = CODES.as_slice();
    while let [code, more @ ..] = rest {
        if word == code_text(*code) {
            return *code;
        }
        rest = more;
    }
    Word
}
