//! What the workers of a search share.
use job_board::Board;
use stop_word::StopWord;

/// State that the workers of a search share: the board and the stop word.
#[derive(Drop)]
pub(crate) struct SharedSearch {
    pub(crate) board: Board,
    pub(crate) word: StopWord,
}
