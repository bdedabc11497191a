//! The lines of the report of `deps`.

ghost use Rattle.std.specs.Prelude.{◌≡◌, ◌≤◌, ◌++◌, ◌∷◌, [], decimal, length, IfOk};
ghost use Rattle.findings.specs.declared.finding.Finding.TheVariants as findings;
ghost use Rattle.findings.specs.Texts.{dep_line, line_text, own_line};
ghost use Rattle.dep_lines.specs.Parts.{front_text, back_text};

use crate::parts::{renew_back, renew_front, spell_back, spell_front};
use crate::short_text::ShortText;
use findings::Dep;
use memory::Memory;
use std::alloc::Global;
use std::marker::Model;

/// The line that was spelled last. The parts of the last pair's line are kept, since most lines have them in common with the line before.
#[derive(Drop)]
pub struct DepLines {
    line: ShortText,
    last: Dep,
    front: ShortText,
    back: ShortText,
}

impl Model for DepLines {
    ghost use Rattle.std.specs.Prelude.{◌≡◌, ◌≤◌, length, List, ℕ};
    ghost use Rattle.dep_lines.specs.Parts.{front_text, back_text};

    ghost Value = { List ℕ };

    ghost view = { λ l. l.line };

    ghost invariant = { λ l. (l.front ≡ front_text l.last) × (length l.front ≤ 18)
        × (l.back ≡ back_text l.last) × (length l.back ≤ 61) };
}

/// A number between two texts.
fn join(line: &mut ShortText, front: &ShortText, number: u32, back: &ShortText)
    requires front { length front.now ≤ 18 }
    requires back { length back.now ≤ 61 }
    ensures { line.new ≡ front.now ++ decimal number ++ back.now }
{
    line.clear();
    line.push(front.as_slice());
    line.push_small(number);
    line.push(back.as_slice());
}

impl DepLines {
    /// No line is spelled yet. The memory for all lines is taken here, and no other call takes any.
    pub fn new(alloc: Global) -> Result<DepLines, Memory>
        ensures { IfOk result (λ lines. lines ≡ []) }
    {
        let last = Dep {
            before: true,
            a: 0,
            b: 0,
            tree: 0,
            point: 0,
            field: 0,
        };
        let line = ShortText::new(alloc)?;
        let mut front = ShortText::new(alloc)?;
        spell_front(&mut front, &last);
        let mut back = ShortText::new(alloc)?;
        spell_back(&mut back, &last);
        Ok(DepLines {
            line,
            last,
            front,
            back,
        })
    }

    /// The line, with its line feed.
    pub fn as_slice(&self) -> &[u8]
        ensures { result.now ≡ self.now }
    {
        self.line.as_slice()
    }

    /// Spells the line of a pair of items.
    #[tactic(auto, using(crate::proofs::Joined::joined_line))]
    pub fn spell(&mut self, dep: Dep)
        ensures { self.new ≡ line_text (dep_line dep) ++ 10 ∷ [] }
    {
        renew_front(&mut self.front, &self.last, &dep);
        renew_back(&mut self.back, &self.last, &dep);
        self.last = dep;
        join(&mut self.line, &self.front, dep.b, &self.back);
    }

    /// Spells the report's own line, which says nothing of what is listed.
    pub fn spell_counts(&mut self, items: u32, before: u64, turn: u64)
        ensures { self.new ≡ line_text (own_line (findings.Deps [] items before turn)) ++ 10 ∷ [] }
    {
        self.line.clear();
        self.line.push(b"deps items ");
        self.line.push_small(items);
        self.line.push(b" before ");
        self.line.push_large(before);
        self.line.push(b" turn ");
        self.line.push_large(turn);
        self.line.push(b"\n");
    }
}
