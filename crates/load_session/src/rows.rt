// How many rows of the ledger are of a kind.
ghost use Rattle.std.specs.Prelude.{◌≡◌};
ghost use Rattle.load_session.specs.Sums.{is_kind, rows_with};

use attempt_ledger::{Row, RowKind};

/// How many rows are of a kind.
pub(crate) fn rows_with(rows: &[Row], kind: RowKind) -> u64
    ensures { result ≡ rows_with kind rows.now }
{
    let mut count = 0;
    for row in rows {
        if is_kind(kind, row.kind) {
            count += 1;
        }
    }
    count
}

fn is_kind(one: RowKind, other: RowKind) -> bool
    ensures { result ≡ is_kind one other }
{
    one == other
}
