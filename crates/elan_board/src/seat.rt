//! The seat of one who commits.
ghost use Rattle.std.specs.Prelude.{◌≡◌};

use crate::watch::{Posted, Watch};
use std::sync::Arc;
use std::sync::ledger::{Ledger, Share};

/// The right to commit: a share of the ledger, and what the seat was shown of the progress words.
#[derive(Drop)]
pub struct Seat<L: Ledger> {
    pub(crate) share: Share<L>,
    pub(crate) watch: Watch,
    pub(crate) words: Arc<Posted>,
    ghost one_part: { share.parts ≡ 1 },
    ghost fits: { watch.mark.table_id ≡ words.value.words.shared.table_id },
}
