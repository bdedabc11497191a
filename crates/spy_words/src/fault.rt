//! What may be wrong with one line, and which fault is reported of several.

ghost use Rattle.std.specs.Prelude.{◌≡◌};
ghost use Rattle.spy_words.specs.declared.fault.LineFault.TheVariants.{Memory};
ghost use Rattle.spy_words.specs.Faults.{worse, met_with, kept, unless_met};

use std::alloc::AllocError;

/// Why a line could not be read. Of several faults the first in this order is reported.
#[derive(Clone, Copy, PartialEq, Eq)]
pub enum LineFault {
    /// The first word names no record.
    Word,
    /// The number of words is wrong, or a word does not have the shape of its class.
    Form,
    /// A number has a leading zero, or lies outside its range.
    Number,
    /// A set or a list of fields does not ascend.
    Order,
    /// Memory ran out. This says nothing of the line.
    Memory,
}

impl From<AllocError> for LineFault {
    ghost from_gives = { λ _ e. e ≡ Memory };

    fn from(_e: AllocError) -> LineFault {
        LineFault::Memory
    }
}

/// The fault that is reported of two.
pub fn worse_of(a: LineFault, b: LineFault) -> LineFault
    ensures { result ≡ worse a b }
{
    if (b as u8) < (a as u8) { b } else { a }
}

/// Meets a fault more.
pub fn meet(met: &mut Option<LineFault>, fault: LineFault)
    ensures { met.new ≡ met_with met.old fault }
{
    *met = Some(met.map_or(fault, |first| worse_of(first, fault)));
}

/// The value that was read, or a stand-in where a fault more is met.
pub fn keep<T: Drop>(met: &mut Option<LineFault>, read: Result<T, LineFault>, other: T) -> T
    ensures { kept met.old read other ≡ (result, met.new) }
{
    match read {
        Ok(value) => value,
        Err(fault) => {
            meet(met, fault);
            other
        }
    }
}

/// The value, unless a fault was met.
pub fn outcome_of<T: Drop>(met: Option<LineFault>, value: T) -> Result<T, LineFault>
    ensures { result ≡ unless_met met value }
{
    match met {
        None => Ok(value),
        Some(fault) => Err(fault),
    }
}
