//! Formulas, models, derivations, the variables of a trace, and the guide of the search.

mod clause_lists;
mod decodings;
mod derivations;
mod formulas;
mod guides;
mod layouts;
mod matching_hints;
mod said_clauses;
mod solver_texts;
mod state_models;
