//! Accesses in the order of their cells, and those of a cell in replay order.

ghost use Rattle.std.specs.Prelude.{◌≡◌, ◌+◌, ◌*◌, ◌^◌, All};
ghost use Rattle.std.specs.List.Sorted.{IsNonDecreasingBy, IsPermutation};
ghost use Rattle.cell_races.specs.CellAccesses.{AreByCell, AreDigits, AreInOrder};

use crate::cell_accesses::CellAccess;
use crate::scan::cell_end;
use semantics::Cell;

/// The key of a cell: one number, of which instance, point and field are the digits, so that two cells are compared at once.
fn key_of(cell: Cell) -> u128
    ensures key { result ≡ cell.inst * 2 ^ 96 + cell.point * 2 ^ 32 + cell.field }
    ensures digits { AreDigits cell }
{
    (u128::from(cell.inst) << 96) + (u128::from(cell.point) << 32) + u128::from(cell.field)
}

/// Reads all points and fields, since it is known only of what is read that it fits its type.
fn read_digits(cell_accesses: &[CellAccess])
    ensures { All (λ x. AreDigits x.cell) cell_accesses.now }
{
    for cell_access in cell_accesses {
        let _key = key_of(cell_access.cell);
    }
}

/// Puts accesses in the order of their cells, and those of a cell in any order.
fn sort_by_cell(cell_accesses: &mut [CellAccess])
    ensures permutation { IsPermutation cell_accesses.old cell_accesses.new }
    ensures order { AreByCell cell_accesses.new }
{
    cell_accesses.sort_unstable_by_key(|cell_access| key_of(cell_access.cell));
    read_digits(cell_accesses);
}

/// Puts accesses in replay order.
fn sort_by_place(cell_accesses: &mut [CellAccess])
    ensures permutation { IsPermutation cell_accesses.old cell_accesses.new }
    ensures order { IsNonDecreasingBy (λ x. x.place) cell_accesses.new }
{
    cell_accesses.sort_unstable_by_key(|cell_access| cell_access.place);
}

/// Puts those of each cell in replay order, of accesses in the order of their cells.
fn sort_each_cell(cell_accesses: &mut [CellAccess])
    requires { AreByCell cell_accesses.old }
    ensures permutation { IsPermutation cell_accesses.old cell_accesses.new }
    ensures order { AreInOrder cell_accesses.new }
{
    let mut from = 0;
    while from < cell_accesses.len() {
        let end = cell_end(cell_accesses, from);
        sort_by_place(&mut cell_accesses[from..end]);
        from = end;
    }
}

/// Puts accesses in the order of their cells, and those of a cell in replay order. Two sorts by one number each are faster than one by the four.
pub fn sort_cell_accesses(cell_accesses: &mut Vec<CellAccess>)
    ensures cell_accesses { IsPermutation cell_accesses.old.items cell_accesses.new.items }
    ensures order { AreInOrder cell_accesses.new.items }
{
    let cell_accesses = cell_accesses.as_mut_slice();
    sort_by_cell(cell_accesses);
    sort_each_cell(cell_accesses);
}
