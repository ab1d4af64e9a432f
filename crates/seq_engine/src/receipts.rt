//! The receipts of labels that were committed together.

ghost use Rattle.std.specs.Prelude.{◌≡◌, ◌+◌, ◌≤◌, ◌<◌, ◌^◌, ◌++◌, length, vec_len, vec_capacity};
ghost use Rattle.step_commit.specs.Receipts.{receipts_from};

use akl_model::{Label, Receipt};

/// The receipts of labels that were committed together come to a list with room for them: the first is the label of this
/// number, and all were planned by so many labels.
pub fn push_receipts(receipts: &mut Vec<Receipt>, first: u64, seen: u64, labels: &[Label])
    requires room { vec_len receipts.old + length labels.now ≤ vec_capacity receipts.old }
    requires numbers { first + length labels.now < 2 ^ 64 }
    ensures { receipts.new.items ≡ receipts.old.items ++ receipts_from first seen labels.now }
{
    let mut at = first;
    for label in labels {
        receipts.push_reserved(Receipt {
            at,
            seen,
            label: *label,
        });
        at += 1;
    }
}
