//! The text of each code.

ghost use Rattle.std.specs.Prelude.{◌≡◌};
ghost use Rattle.findings.specs.Codes.{code_text};

use spy_grammar::Code;
use spy_grammar::Code::*;

/// The text of a code.
pub fn code_text(code: Code) -> &'static [u8]
    ensures { result.now ≡ code_text code }
{
    match code {
        TooLong => b"too-long",
        Newline => b"newline",
        Word => b"word",
        Form => b"form",
        Number => b"number",
        Order => b"order",
        Header => b"header",
        Ended => b"ended",
        Count => b"count",
        TooManyRecords => b"too-many-records",
        RepeatedId => b"repeated-id",
        UnknownId => b"unknown-id",
        TooManyPoints => b"too-many-points",
        SpaceInTwo => b"space-in-two",
        LateSub => b"late-sub",
        TooDeep => b"too-deep",
        NotWithin => b"not-within",
        NotDisjoint => b"not-disjoint",
        NotRoot => b"not-root",
        NotInTree => b"not-in-tree",
        Fields => b"fields",
        SelfInterference => b"self-interference",
        WrongTree => b"wrong-tree",
        WrongKind => b"wrong-kind",
        NotCovered => b"not-covered",
        MappedTwice => b"mapped-twice",
        NoRun => b"no-run",
        TwoRuns => b"two-runs",
        RepeatedEvent => b"repeated-event",
        UndefinedEvent => b"undefined-event",
        Serial => b"serial",
        TooManyCells => b"too-many-cells",
        TooManyAccesses => b"too-many-accesses",
        TooMuchLoad => b"too-much-load",
        SerialOrder => b"serial-order",
        Unmapped => b"unmapped",
        LaunchRange => b"launch-range",
        LaunchInterference => b"launch-interference",
        TooManyGroups => b"too-many-groups",
        Version => b"version",
        TooManyAtoms => b"too-many-atoms",
        TooManyReads => b"too-many-reads",
    }
}
