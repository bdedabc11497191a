//! The two parts of a line that stand around its second item.

ghost use Rattle.std.specs.Prelude.{◌≡◌, ◌≤◌, codes, length, if◌then◌else◌};
ghost use Rattle.dep_lines.specs.Parts.{front_text, back_text};

use crate::short_text::ShortText;
use findings::Dep;

/// The first word of a line, and the space behind it.
fn kind_word(before: bool) -> &'static [u8]
    ensures word { result.now ≡ (if before then codes "before " else codes "turn ") }
    ensures length { length result.now ≤ 7 }
{
    if before { b"before " } else { b"turn " }
}

/// Spells what stands in front of the second item.
pub(crate) fn spell_front(text: &mut ShortText, dep: &Dep)
    ensures text { text.new ≡ front_text dep.now }
    ensures length { length text.new ≤ 18 }
{
    text.clear();
    text.push(kind_word(dep.before));
    text.push_small(dep.a);
    text.push(b" ");
}

/// Spells what stands behind the second item.
pub(crate) fn spell_back(text: &mut ShortText, dep: &Dep)
    ensures text { text.new ≡ back_text dep.now }
    ensures length { length text.new ≤ 61 }
{
    text.clear();
    text.push(b" tree ");
    text.push_small(dep.tree);
    text.push(b" point ");
    text.push_large(dep.point);
    text.push(b" field ");
    text.push_small(dep.field);
    text.push(b"\n");
}

/// Makes the front part that of another line. Most often it is the same.
pub(crate) fn renew_front(text: &mut ShortText, last: &Dep, dep: &Dep)
    requires text { text.old ≡ front_text last.now }
    requires length { length text.old ≤ 18 }
    ensures text { text.new ≡ front_text dep.now }
    ensures length { length text.new ≤ 18 }
{
    if dep.before == last.before && dep.a == last.a {
        return;
    }
    spell_front(text, dep);
}

/// The same of the back part.
pub(crate) fn renew_back(text: &mut ShortText, last: &Dep, dep: &Dep)
    requires text { text.old ≡ back_text last.now }
    requires length { length text.old ≤ 61 }
    ensures text { text.new ≡ back_text dep.now }
    ensures length { length text.new ≤ 61 }
{
    if dep.tree == last.tree && dep.point == last.point && dep.field == last.field {
        return;
    }
    spell_back(text, dep);
}
