// What is put for the rows of a table.
ghost use Rattle.std.specs.Prelude.{List, ℕ, ◌*◌, ◌≤◌, length};
ghost use Rattle.lists.specs.inner.Stores.{Put};
ghost use Rattle.printing.specs.inner.Parts.{FitsAt};
ghost use Rattle.listing.specs.inner.Parts.{due_rows, OfRows};

// What is put for a row.
pub trait RowPart {
    // the bytes that are due for a row
    ghost bytes: { Self → List ℕ → List ℕ };

    // the rows that it is given
    ghost takes: { Self → List ℕ → Type 0 };

    // Puts them; the place behind them.
    fn put(&self, buf: &mut [u8], at: usize, row: &[u32]) -> usize
        requires takes { takes self.now row.now }
        requires fits_at { FitsAt buf.old at (bytes self.now row.now) }
        ensures { Put buf.old at (bytes self.now row.now) buf.new result };
}

// What is due for each of the first n rows of a table; the place behind it.
pub fn put_rows<P: RowPart>(
    part: &P,
    buf: &mut [u8],
    from: usize,
    table: &[u32],
    k: usize,
    n: usize,
) -> usize
    requires rows { OfRows (P.takes part.now) k n table.now × (k * n ≤ length table.now) }
    requires fits_at { FitsAt buf.old from (due_rows (P.bytes part.now) k n table.now) }
    ensures { Put buf.old from (due_rows (P.bytes part.now) k n table.now) buf.new result }
{
    let mut at = from;
    let mut rest = table;
    for _ in 0..n {
        let (row, behind) = rest.split_at(k);
        at = part.put(buf, at, row);
        rest = behind;
    }
    at
}
