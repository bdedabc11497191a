//! A law over the definitions alone. The function has nothing to do: its contract is the law.

ghost use Rattle.std.specs.Prelude.{◌≡◌, List};
ghost use Rattle.std.specs.List.{filter_map};
ghost use Rattle.spy_grammar.specs.declared.record.Lined.{Lined};
ghost use Rattle.semantics.specs.Records.{records_of};
ghost use Rattle.semantics.specs.Tables.{tables_of};
ghost use Rattle.semantics.specs.Events.{graph_of};
ghost use Rattle.semantics.specs.Rules.{node_of};

/// The nodes of a log are those of its records.
#[tactic(auto, using(crate::proofs::lemmas::Nodes::nodes_are))]
pub fn nodes_are_of_records()
    ensures { (log : List Lined) → graph_of (tables_of log).nodes ≡ filter_map node_of (records_of log) }
{}
