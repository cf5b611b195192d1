//! The cell of an amount, kept from row to row.

ghost use Rattle.std.specs.Prelude.{◌≡◌, ◌≤◌, ◌+◌, ◌++◌, IfOk, codes, length};
ghost use Rattle.std.specs.Fmt.{decimal};
ghost use Rattle.ordup_lag.specs.declared.amount_cell.TheConstants.{CELL_BYTES};

use ordup_text::{MOST_DIGITS, TextBuffer, put_with_number};
use std::alloc::{AllocError, Allocator};
use std::marker::Model;

/// The bytes of a cell, in whole words: a comma, and the most digits of a number.
pub(crate) const CELL_BYTES: usize = MOST_DIGITS + 4;

/// The cell of an amount, as it was last written. Its digits are made where the amount changes, and not in each row.
#[derive(Drop)]
pub(crate) struct AmountCell {
    amount: u64,
    /// The text of the cell, and then bytes without meaning.
    bytes: [u8; CELL_BYTES],
    len: usize,
}

impl Model for AmountCell {
    ghost use Rattle.ordup_lag.specs.AmountCellInside.{IsAmountCell};
    ghost use Rattle.std.specs.Prelude.{ℕ};

    ghost Value = { ℕ };

    ghost view = { λ c. c.amount };

    ghost invariant = { IsAmountCell };
}

impl AmountCell {
    /// The cell of 0.
    pub(crate) fn new() -> Self {
        let mut bytes = [0; CELL_BYTES];
        bytes[0] = b',';
        bytes[1] = b'0';
        AmountCell {
            amount: 0,
            bytes,
            len: 2,
        }
    }

    /// Puts the cell of an amount. A cell must fit into the spare capacity.
    #[inline(always)]
    pub(crate) fn put<A: Allocator + Copy>(&mut self, out: &mut TextBuffer<A>, amount: u64)
        requires { CELL_BYTES ≤ out.old.spare }
        ensures text { out.new.text ≡ out.old.text ++ (codes "," ++ decimal amount) }
        ensures spare { out.old.spare ≤ out.new.spare + CELL_BYTES }
    {
        if self.amount != amount {
            self.put_other(out, amount);
            return;
        }
        out.put_prefix(&self.bytes, self.len);
    }

    /// Puts the cell of another amount, and keeps it.
    #[inline(never)]
    fn put_other<A: Allocator + Copy>(&mut self, out: &mut TextBuffer<A>, amount: u64)
        requires { CELL_BYTES ≤ out.old.spare }
        ensures text { out.new.text ≡ out.old.text ++ (codes "," ++ decimal amount) }
        ensures spare { out.old.spare ≤ out.new.spare + CELL_BYTES }
    {
        let before = out.len();
        put_with_number(out, b",", amount);
        self.keep(&out.as_slice()[before..], amount);
    }

    /// Keeps the text of a cell.
    fn keep(&mut self, text: &[u8], amount: u64)
        requires { text.now ≡ codes "," ++ decimal amount }
    {
        let len = text.len();
        if len <= CELL_BYTES {
            self.bytes[..len].copy_from_slice(text);
            self.amount = amount;
            self.len = len;
        }
    }
}

/// Cells of 0, as many as these.
pub(crate) fn amount_cells<A: Allocator + Copy>(
    alloc: A,
    count: usize,
) -> Result<Vec<AmountCell, A>, AllocError>
    ensures { IfOk result (λ cells. length cells.items ≡ count) }
{
    let mut cells = Vec::with_capacity(alloc, count)?;
    for _ in 0..count {
        cells.push_reserved(AmountCell::new());
    }
    Ok(cells)
}
