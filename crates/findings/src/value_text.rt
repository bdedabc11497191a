//! The text of a value.

ghost use Rattle.std.specs.Prelude.{◌≡◌, ◌++◌, OnOk, map};
ghost use Rattle.spy_words.specs.Classes.{follow};
ghost use Rattle.findings.specs.ValueTexts.{base_text, bag_text, entry_text, group_text, value_text};

use spy_words::push_u64;
use std::alloc::AllocError;
use value_terms::{Bag, Base, Contribution, Group, Value};

fn push_base(out: &mut Vec<u8>, base: Base) -> Result<(), AllocError>
    ensures { OnOk result (out.new.items ≡ out.old.items ++ base_text base) }
{
    match base {
        Base::Raw => out.extend_from_slice(b"raw"),
        Base::Init => out.extend_from_slice(b"init"),
        Base::Ident => out.extend_from_slice(b"ident"),
        Base::Const(n) => {
            out.extend_from_slice(b"const:")?;
            push_u64(out, u64::from(n))
        }
        Base::Out(task) => {
            out.extend_from_slice(b"out:")?;
            push_u64(out, u64::from(task))
        }
    }
}

fn push_entry(out: &mut Vec<u8>, entry: (Contribution, u64)) -> Result<(), AllocError>
    ensures { OnOk result (out.new.items ≡ out.old.items ++ entry_text entry) }
{
    let (Contribution { task, req }, count) = entry;
    push_u64(out, u64::from(task))?;
    out.push(b'.')?;
    push_u64(out, u64::from(req))?;
    out.push(b'*')?;
    push_u64(out, count)
}

/// Writes further entries of a bag, each after a comma.
fn push_more(out: &mut Vec<u8>, entries: &[(Contribution, u64)]) -> Result<(), AllocError>
    ensures { OnOk result (out.new.items ≡ out.old.items ++ follow 44 (map entry_text entries.now)) }
{
    let mut rest = entries;
    while let [entry, more @ ..] = rest {
        out.push(b',')?;
        push_entry(out, *entry)?;
        rest = more;
    }
    Ok(())
}

fn push_bag(out: &mut Vec<u8>, bag: &Bag) -> Result<(), AllocError>
    ensures { OnOk result (out.new.items ≡ out.old.items ++ bag_text bag.now) }
{
    let [first, rest @ ..] = bag.as_slice() else {
        return Ok(());
    };
    push_entry(out, *first)?;
    push_more(out, rest)
}

fn push_group(out: &mut Vec<u8>, group: &Group) -> Result<(), AllocError>
    ensures { OnOk result (out.new.items ≡ out.old.items ++ group_text group.now) }
{
    push_u64(out, u64::from(group.op))?;
    out.push(b'[')?;
    push_bag(out, &group.bag)?;
    out.push(b']')?;
    Ok(())
}

/// Writes groups, each after a plus sign.
fn push_groups(out: &mut Vec<u8>, groups: &[Group]) -> Result<(), AllocError>
    ensures { OnOk result (out.new.items ≡ out.old.items ++ follow 43 (map group_text groups.now)) }
{
    let mut rest = groups;
    while let [group, more @ ..] = rest {
        out.push(b'+')?;
        push_group(out, group)?;
        rest = more;
    }
    Ok(())
}

/// Writes a value.
#[tactic(auto, unfolding(crate::specs::ValueTexts::value_text))]
pub fn push_value(out: &mut Vec<u8>, value: &Value) -> Result<(), AllocError>
    ensures { OnOk result (out.new.items ≡ out.old.items ++ value_text value.now) }
{
    push_base(out, value.base())?;
    push_groups(out, value.groups())
}
