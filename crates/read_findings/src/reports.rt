//! What is found of a read, with what a text of it asks.

ghost use Rattle.std.specs.Prelude.{◌≡◌, true};
ghost use Rattle.findings.specs.declared.finding.Finding.TheVariants as findings;
ghost use Rattle.findings.specs.Texts.{Good, is_chain};
ghost use Rattle.outcomes.specs.Outcome.{ask_shown};

use findings::{Finding, WhyAsk, WhyList, lines_fit};
use semantics::Ask;

/// A read that is asked for, of which the log has none.
pub(crate) fn no_read_found(ask: Ask) -> Finding
    ensures finding { result ≡ findings.NoRead ask.task ask.req ask.point ask.field }
    ensures good { Good result }
{
    Finding::NoRead {
        task: ask.task,
        req: ask.req,
        point: ask.point,
        field: ask.field,
    }
}

/// The links of a read that is asked for.
pub(crate) fn why_found(ask: Ask, links: WhyList) -> Finding
    requires { is_chain links ≡ true }
    ensures finding { result ≡ findings.Why (ask_shown ask) links }
    ensures good { Good result }
{
    lines_fit(links.as_slice());
    let ask = WhyAsk {
        task: ask.task,
        req: ask.req,
        point: ask.point,
        field: ask.field,
    };
    Finding::Why { ask, links }
}
