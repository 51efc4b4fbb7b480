//! The solver against formulas of which the answer is known, and the checker beside a plain one.

mod answers;
mod budgets;
mod checkers;
mod cuts;
mod damage;
mod final_values;
mod formulas;
mod guides;
mod known_derivations;
mod locks;
mod plain_checker;
mod plain_solver;
mod preparations;
mod random_formulas;
mod reads;
mod refused_memory;
mod shared_derivations;
mod small_formulas;
mod traced;
mod whole_formulas;
mod whole_sets;
