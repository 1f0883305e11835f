//! The desk.
ghost use Rattle.std.specs.Prelude.{◌≡◌, option_copied, option_map};
ghost use Rattle.std.specs.Arc.{arc_value};

use crate::bell::Bell;
use crate::floor::Floor;
use history_lock::{HistoryLock, Machine};
use status_board::Board;
use std::sync::Arc;

/// The most submitters; the fewest is 1.
pub const MOST_SUBMITTERS: u32 = 64;

/// One scheduler that threads share, each by its tokens.
pub struct DeskOf<M: Machine> {
    pub(crate) lock: HistoryLock<M>,
    pub(crate) bell: Bell,
    pub(crate) board: Option<Arc<Board>>,
}

/// A desk whose jobs are J and whose chooser is X.
pub type Desk<J, X> = DeskOf<Floor<J, X>>;

impl<M: Machine> DeskOf<M> {
    /// The board that shows the status of the desk's past, for readers that wait for nobody. There is one where the
    /// desk was opened by `open_shown`.
    pub fn board(&self) -> Option<&Board>
        ensures { option_copied result ≡ option_map arc_value self.now.board }
    {
        self.board.as_deref()
    }
}
