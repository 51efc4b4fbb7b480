//! What workers share: the dealing machine, the stop word, the board, the search, and the ledger's checker.

mod boards;
mod confirmations;
mod dealings;
mod long_derivations;
mod refused_memory;
mod searches;
mod seats;
mod stop_words;
mod talkers;
