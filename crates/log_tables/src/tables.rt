//! Tables of a log, as they grow.

ghost use Rattle.std.specs.Prelude.{◌≡◌, ◌++◌, ◌∷◌, [], ◌^◌, ◌<◌, length, OnOk, OnErr};
ghost use Rattle.std.specs.List.Sorted.{IsStrictlyIncreasing};
ghost use Rattle.vocabulary.specs.Prelude.{no_tables, with_item, with_node, with_record};
ghost use Rattle.log_tables.specs.Ascending.{body_fields};
ghost use Rattle.log_tables.specs.Views.{Declares};
ghost use Rattle.spy_grammar.specs.declared.record.Record.TheVariants as records;

use crate::entries::{ById, ByRun, BySpace, ByTask};
use crate::maps::Maps;
use crate::regions::Decls;
use crate::reqs::Reqs;
use crate::rows::Rows;
use crate::two_rows::TwoRows;
use point_set::{PointSet, Rect};
use semantics::{FieldSpace, Inst, Item, ItemBody, LogNode, Map, Op, Req, Serial, Tree};
use spy_words::Nums;
use std::alloc::{AllocError, Global};
use std::marker::Model;

/// What the records of a log declare so far.
#[derive(Drop)]
pub struct LogTables<P: PointSet> {
    pub(crate) regions: Decls<P>,
    pub(crate) field_spaces: Rows<ById, FieldSpace>,
    pub(crate) trees: TwoRows<ById, BySpace, Tree>,
    pub(crate) operators: Rows<ById, u32>,
    pub(crate) items: TwoRows<ById, ByTask, Item>,
    pub(crate) reqs: Reqs,
    pub(crate) serials: Vec<Serial>,
    pub(crate) insts: Rows<ById, Inst>,
    pub(crate) maps: Maps,
    pub(crate) nodes: TwoRows<ById, ByRun, LogNode>,
    pub(crate) version: u32,
    pub(crate) rects: Vec<Rect>,
}

impl<P: PointSet> Model for LogTables<P> {
    ghost use Rattle.vocabulary.specs.Prelude.{Tables};
    ghost use Rattle.log_tables.specs.Ascending.{FieldsAscend};

    ghost Value = { Tables };

    ghost view = { λ d. record {
      version = d.version;
      rects = d.rects.items;
      spaces = d.regions.spaces;
      parts = d.regions.parts;
      subs = d.regions.subs;
      field_spaces = d.field_spaces;
      trees = d.trees;
      operators = d.operators;
      items = d.items;
      reqs = d.reqs;
      serials = d.serials.items;
      insts = d.insts;
      maps = d.maps;
      nodes = d.nodes;
    } };

    ghost invariant = { λ d. FieldsAscend d.field_spaces d.items d.reqs d.insts };
}

#[tactic(auto, using(crate::proofs::Ascending::space_more, crate::proofs::Ascending::item_more, crate::proofs::Ascending::req_more, crate::proofs::Ascending::inst_more))]
impl<P: PointSet> LogTables<P> {
    /// Nothing is declared.
    pub fn new(alloc: Global) -> LogTables<P>
        ensures { result ≡ no_tables }
    {
        LogTables {
            regions: Decls::new(alloc),
            field_spaces: Rows::new(alloc),
            trees: TwoRows::new(alloc),
            operators: Rows::new(alloc),
            items: TwoRows::new(alloc),
            reqs: Reqs::new(alloc),
            serials: Vec::new(alloc),
            insts: Rows::new(alloc),
            maps: Maps::new(alloc),
            nodes: TwoRows::new(alloc),
            version: 0,
            rects: Vec::new(alloc),
        }
    }

    pub(crate) fn add_field_space(&mut self, id: u32, fields: Nums) -> Result<(), AllocError>
        requires { IsStrictlyIncreasing fields }
        ensures ok { OnOk result (Declares self.old self.new (records.Fields id fields)) }
        ensures err { OnErr result (self.new ≡ self.old) }
    {
        self.field_spaces.push(FieldSpace { id, fields })
    }

    pub(crate) fn add_tree(&mut self, id: u32, space: u32, fspace: u32) -> Result<(), AllocError>
        ensures ok { OnOk result (Declares self.old self.new (records.Tree id space fspace)) }
        ensures err { OnErr result (self.new ≡ self.old) }
    {
        self.trees.push(Tree { id, space, fspace })
    }

    pub(crate) fn add_operator(&mut self, id: u32) -> Result<(), AllocError>
        ensures ok { OnOk result (Declares self.old self.new (records.Redop id)) }
        ensures err { OnErr result (self.new ≡ self.old) }
    {
        self.operators.push(id)
    }

    pub(crate) fn add_item(&mut self, id: u32, line: u32, body: ItemBody) -> Result<(), AllocError>
        requires { IsStrictlyIncreasing (body_fields body) }
        ensures ok { OnOk result (self.new ≡ with_item self.old line id body) }
        ensures err { OnErr result (self.new ≡ self.old) }
    {
        self.items.push(Item { id, line, body })
    }

    pub(crate) fn add_req(&mut self, req: Req) -> Result<(), AllocError>
        requires few { length self.old.reqs < 2 ^ 32 }
        requires ascend { IsStrictlyIncreasing req.fields }
        ensures ok { OnOk result (self.new ≡ record self.old { reqs = self.old.reqs ++ req ∷ [] }) }
        ensures err { OnErr result (self.new ≡ self.old) }
    {
        self.reqs.push(req)
    }

    pub(crate) fn add_serial(&mut self, line: u32, ids: Nums) -> Result<(), AllocError>
        ensures ok { OnOk result (self.new ≡ with_record self.old line (records.Serial ids)) }
        ensures err { OnErr result (self.new ≡ self.old) }
    {
        self.serials.push(Serial { line, ids })?;
        Ok(())
    }

    pub(crate) fn add_inst(&mut self, inst: Inst) -> Result<(), AllocError>
        requires { IsStrictlyIncreasing inst.fields }
        ensures ok { OnOk result (self.new ≡ record self.old { insts = self.old.insts ++ inst ∷ [] }) }
        ensures err { OnErr result (self.new ≡ self.old) }
    {
        self.insts.push(inst)
    }

    pub(crate) fn add_map(
        &mut self,
        item: usize,
        number: u32,
        fields: Nums,
        inst: u32,
    ) -> Result<(), AllocError>
        ensures ok { OnOk result (self.new ≡ record self.old {
          maps = self.old.maps
              ++ record { item = item; number = number; fields = fields; inst = inst } ∷ [];
        }) }
        ensures err { OnErr result (self.new ≡ self.old) }
    {
        self.maps.push(Map {
            item,
            number,
            fields,
            inst,
        })
    }

    pub(crate) fn add_node(
        &mut self,
        line: u32,
        done: u32,
        waits: Nums,
        op: Op,
    ) -> Result<(), AllocError>
        ensures ok { OnOk result (self.new ≡ with_node self.old line done waits op) }
        ensures err { OnErr result (self.new ≡ self.old) }
    {
        self.nodes.push(LogNode {
            line,
            done,
            waits,
            op,
        })
    }
}
