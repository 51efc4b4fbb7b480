//! Derivations of which it is known what a checker says of them. Those of other solvers, and most that were edited, are short ones of
//! `tests/data/lrat`, whose README says where they come from. A text that is no formula or no derivation is not here: it reaches no
//! checker.

use lrat_check::refusal::{Refusal, StepFault};

/// The pieces of a derivation's text, and why it is refused, if it is.
pub type KnownDerivation = (&'static [&'static str], Option<Refusal>);

/// The text of a formula, the numbers of a cube's literals, and derivations that the formula has no model in the cube.
pub type Family = (&'static str, &'static [i32], &'static [KnownDerivation]);

/// A variable that is true and false.
const CONTRADICTION: &str = "p cnf 1 2\n1 0\n-1 0\n";

/// Derivations for it: with deletions, comments, the largest id, tautologies, and steps after the empty clause.
const OF_CONTRADICTION: [KnownDerivation; 13] = [
    (&["3 0 1 2 0\n"], None),
    (&["3 d 9 0\n3 0 1 2 0\n"], None),
    (
        &["0 d 2 0\n3 0 1 2 0\n"],
        Some(Refusal::At(StepFault::UnknownHint, 2)),
    ),
    (&["9223372036854775807 0 1 2 0\n"], None),
    (&["3 0 1 -2 0\n"], Some(Refusal::At(StepFault::NoPivot, 1))),
    (&["3 0 3 0\n"], Some(Refusal::At(StepFault::UnknownHint, 1))),
    (&["c by hand\n\n3 0 1 2 0\n4 0 99 0\n"], None),
    (&["3 1 -1 0 77 0\n4 0 1 2 0\n"], None),
    (&["3 2 -2 0 77 0\n4 0 1 2 0\n"], None),
    (&["3 0 1 1 2 99 0\n3 0 99 0\n"], None),
    (&["3 1 0 1 0\n9 d 3 0\n3 1 0 1 0\n4 0 3 2 0\n"], None),
    (
        &["0 d 2 0\n2 1 0 1 0\n0 d 1 2 0\n1 1 -1 0 0\n"],
        Some(Refusal::At(StepFault::NoEmptyClause, 5)),
    ),
    (&[""], Some(Refusal::At(StepFault::NoEmptyClause, 1))),
];

/// The clause without literals.
const EMPTY_CLAUSE: &str = "p cnf 1 1\n0\n";

/// Derivations for it, with its hint and without.
const OF_EMPTY_CLAUSE: [KnownDerivation; 2] = [
    (&["2 0 1 0\n"], None),
    (&["2 0 0\n"], Some(Refusal::At(StepFault::NoConflict, 1))),
];

/// A write and a read of it, with a variable for each ordered pair. It has a model.
const HAND_OFF_OF_PAIRS: &str = "p cnf 3 4\n1 2 0\n-1 -2 0\n3 0\n-3 1 0\n";

/// Derivations for it.
const OF_HAND_OFF_OF_PAIRS: [KnownDerivation; 2] = [
    (&["5 0 1 0\n"], Some(Refusal::At(StepFault::NotUnit, 1))),
    (
        &["5 1 0 3 4 0\n6 0 5 3 4 0\n"],
        Some(Refusal::At(StepFault::NoConflict, 2)),
    ),
];

/// The same with a variable for each pair.
const HAND_OFF: &str = "p cnf 2 2\n2 0\n-2 1 0\n";

/// Derivations for it.
const OF_HAND_OFF: [KnownDerivation; 2] = [
    (&["3 0 2 0\n"], Some(Refusal::At(StepFault::NotUnit, 1))),
    (
        &["3 1 0 1 2 0\n4 0 1 2 3 0\n"],
        Some(Refusal::At(StepFault::NoConflict, 2)),
    ),
];

/// A formula as old programs write it, with a line that ends it. It has a model.
const OLD: &str = "c old file\np cnf 2 2\n1\n -2 0 2 0\n%\n0\n";

/// Derivations for it.
const OF_OLD: [KnownDerivation; 3] = [
    (&[""], Some(Refusal::At(StepFault::NoEmptyClause, 1))),
    (
        &["3 1 0 2 1 0\n"],
        Some(Refusal::At(StepFault::NoEmptyClause, 2)),
    ),
    (
        &["3 -2 0 1 0\n"],
        Some(Refusal::At(StepFault::NoConflict, 1)),
    ),
];

/// Two variables that are not both true.
const NOT_BOTH: &str = "p cnf 2 1\n-1 -2 0\n";

/// Derivations where both are true in the cube.
const OF_BOTH: [KnownDerivation; 2] = [
    (&["4 0 2 3 1 0\n"], None),
    (&["3 0 2 3 1 0\n"], Some(Refusal::At(StepFault::IdInUse, 1))),
];

/// Store buffering: each of two processes writes one location, and then reads the initial value of the other one.
const STORE_BUFFERING: &str =
    "p cnf 8 14\n1 0\n6 0\n-1 -4 2 0\n1 4 -2 0\n-1 -5 3 0\n1 5 -3 0\n-2 -6 3 0\n2 6 -3 0\n-4 -6 5 0\n4 6 -5 0\n7 0\n-7 4 0\n8 0\n\
-8 -3 0\n";

/// Derivations for it.
const OF_STORE_BUFFERING: [KnownDerivation; 7] = [
    (&["15 0 1 2 11 12 3 7 13 14 0\n"], None),
    (
        &["15 0 1 2 11 12 3 7 13 0\n"],
        Some(Refusal::At(StepFault::NoConflict, 1)),
    ),
    (
        &["14 0 1 2 11 12 3 7 13 14 0\n"],
        Some(Refusal::At(StepFault::IdInUse, 1)),
    ),
    (&[""], Some(Refusal::At(StepFault::NoEmptyClause, 1))),
    (
        &["15 4 0 11 12 0\n16 -3 0 13 14 0\n"],
        Some(Refusal::At(StepFault::NoEmptyClause, 3)),
    ),
    (
        &["c\n0 d 1 0\n15 7 0 11 0\n"],
        Some(Refusal::At(StepFault::NoEmptyClause, 3)),
    ),
    // Of cryptominisat.
    (
        &[
            "15 4 0 12 11 0\n16 2 -4 0 3 1 0\n17 2 0 16 15 0\n18 -2 3 0 7 2 0\n19 3 0 18 17 0\n20 0 13 14 19 0\n",
        ],
        None,
    ),
];

/// Derivations where the first process writes before the second one reads. One begins with a new variable, and one is for another formula.
const OF_LEFT: [KnownDerivation; 3] = [
    (&["16 0 13 14 15 0\n"], None),
    (&["16 9 0 0\n17 0 13 14 15 0\n"], None),
    (
        &["44 0 41 42 43 8 0\n"],
        Some(Refusal::At(StepFault::UnknownHint, 1)),
    ),
];

/// Store buffering with a variable for each ordered pair, as other programs write it.
const BUFFERING_OF_PAIRS: &str =
    "p cnf 14 42\n1 0\n9 0\n1 4 0\n-1 -4 0\n2 7 0\n-2 -7 0\n3 10 0\n-3 -10 0\n5 8 0\n-5 -8 0\n6 11 0\n-6 -11 0\n9 12 0\n-9 -12 0\n\
-1 -5 2 0\n-1 -6 3 0\n-2 -8 1 0\n-2 -9 3 0\n-3 -11 1 0\n-3 -12 2 0\n-4 -2 5 0\n-4 -3 6 0\n-5 -7 4 0\n-5 -9 6 0\n-6 -10 4 0\n\
-6 -12 5 0\n-7 -1 8 0\n-7 -3 9 0\n-8 -4 7 0\n-8 -6 9 0\n-9 -10 7 0\n-9 -11 8 0\n-10 -1 11 0\n-10 -2 12 0\n-11 -4 10 0\n\
-11 -5 12 0\n-12 -7 10 0\n-12 -8 11 0\n13 0\n-13 5 0\n14 0\n-14 10 0\n";

/// What cadical drops of it first.
const DROPPED: &str =
    "42 d 3 4 5 6 7 8 9 10 11 12 13 16 17 18 19 20 21 22 23 24 25 26 27 28 29 30 31 32 33 35 36 37 38 0\n";

/// Derivations for it: by hand, and of cadical, edited.
const OF_BUFFERING_OF_PAIRS: [KnownDerivation; 22] = [
    (&["43 0 1 2 39 40 41 42 15 18 8 0\n"], None),
    (
        &["43 0 1 2 39 40 41 42 15 18 0\n"],
        Some(Refusal::At(StepFault::NoConflict, 1)),
    ),
    (
        &["42 0 1 2 39 40 41 42 15 18 8 0\n"],
        Some(Refusal::At(StepFault::IdInUse, 1)),
    ),
    (&[""], Some(Refusal::At(StepFault::NoEmptyClause, 1))),
    (
        &[
            DROPPED,
            "43 0 1 2 14 39 40 15 34 41 42 0\n1 1 0 0\n0 d 1 2 3 0\n",
        ],
        None,
    ),
    (
        &[
            "c comment\n\n \t\r\n42\t d\t 3\t 4\t 5\t 6\t 7\t 8\t 9\t 10\t 11\t 12\t 13\t 16\t 17\t 18\t 19\t 20\t 21\t 22\
\t 23\t 24\t 25\t 26\t 27\t 28\t 29\t 30\t 31\t 32\t 33\t 35\t 36\t 37\t 38\t 0\r\n43\t 0\t 1\t 2\t 14\t 39\t 40\
\t 15\t 34\t 41\t 42\t 0",
        ],
        None,
    ),
    (
        &[DROPPED, "0 d 1 0\n43 0 1 2 14 39 40 15 34 41 42 0\n"],
        Some(Refusal::At(StepFault::UnknownHint, 3)),
    ),
    (
        &[
            "0 d 9223372036854775807 9223372036854775806 0\n",
            DROPPED,
            "43 0 1 2 14 39 40 15 34 41 42 0\n",
        ],
        None,
    ),
    (
        &[
            DROPPED,
            "43 0 1 2 14 39 40 15 34 41 42 9223372036854775807 1 0\n",
        ],
        None,
    ),
    (&[DROPPED, "43 0 1 1 2 14 39 40 15 34 41 42 0\n"], None),
    (
        &[DROPPED, "1 0 1 2 14 39 40 15 34 41 42 0\n"],
        Some(Refusal::At(StepFault::IdInUse, 2)),
    ),
    (
        &[
            DROPPED,
            "43 0 1 2 14 39 40 15 34 41 42 0\n43 0 1 2 14 39 40 15 34 41 42 0\n",
        ],
        None,
    ),
    (&[DROPPED, "43 0 1 2 14 39 40 15 34 41 42 0\n"], None),
    (&[DROPPED], Some(Refusal::At(StepFault::NoEmptyClause, 2))),
    (
        &[DROPPED, "43 0 0\n"],
        Some(Refusal::At(StepFault::NoConflict, 2)),
    ),
    (
        &[DROPPED, "43 0 1 2 14 39 40 15 34 41 0\n"],
        Some(Refusal::At(StepFault::NoConflict, 2)),
    ),
    (
        &[DROPPED, "44 1 0 -43 0\n"],
        Some(Refusal::At(StepFault::UnknownHint, 2)),
    ),
    (
        &[DROPPED, "43 0 42 41 34 15 40 39 14 2 1 0\n"],
        Some(Refusal::At(StepFault::NotUnit, 2)),
    ),
    (
        &[DROPPED, "43 0 43 1 2 14 39 40 15 34 41 42 0\n"],
        Some(Refusal::At(StepFault::UnknownHint, 2)),
    ),
    (
        &[
            DROPPED,
            "9223372036854775807 1 -1 0 9223372036854775807 0\n43 0 1 2 14 39 40 15 34 41 42 0\n",
        ],
        None,
    ),
    (
        &[
            DROPPED,
            "43 0 1 2 14 39 40 15 34 41 9223372036854775807 0\n",
        ],
        Some(Refusal::At(StepFault::UnknownHint, 2)),
    ),
    (
        &["00", DROPPED, "0043 0 1 2 14 39 40 15 34 41 42 0\n"],
        None,
    ),
];

/// Two variables of which no values fit.
const NO_VALUES: &str = "p cnf 2 4\n1 2 0\n-1 2 0\n1 -2 0\n-1 -2 0\n";

/// Derivations for it with the definition of a new variable, in RAT lines.
const OF_NO_VALUES: [KnownDerivation; 13] = [
    (
        &["5 3 1 0 0\n6 -3 -1 0 -5 0\n7 -3 2 0 -5 1 0\n8 2 0 1 2 0\n9 0 8 3 4 0\n"],
        None,
    ),
    (
        &["5 3 1 0 0\n6 -3 -1 0 -5 0\n7 -3 2 0 -5 0\n8 2 0 1 2 0\n9 0 8 3 4 0\n"],
        Some(Refusal::At(StepFault::NoConflict, 3)),
    ),
    (
        &["5 3 1 0 0\n6 -3 -1 0 -5 0\n7 -3 2 0 -1 1 0\n8 2 0 1 2 0\n9 0 8 3 4 0\n"],
        Some(Refusal::At(StepFault::NotOpposed, 3)),
    ),
    (
        &["5 3 1 0 0\n6 -3 -1 0 0\n7 -3 2 0 -5 1 0\n8 2 0 1 2 0\n9 0 8 3 4 0\n"],
        Some(Refusal::At(StepFault::NoConflict, 2)),
    ),
    (
        &["5 3 1 0 0\n6 3 2 0 0\n7 -3 0 -5 3 1 0\n"],
        Some(Refusal::At(StepFault::GroupMissing, 3)),
    ),
    (&["5 0 -1 0\n"], Some(Refusal::At(StepFault::NoPivot, 1))),
    (
        &["5 3 1 0 0\n6 3 2 0 0\n7 -3 0 -5 3 1 -5 3 1 0\n"],
        Some(Refusal::At(StepFault::GroupMissing, 3)),
    ),
    (
        &["5 3 1 0 0\n6 -1 -3 0 -5 0\n"],
        Some(Refusal::At(StepFault::GroupMissing, 2)),
    ),
    (
        &["5 3 1 0 0\n6 d 5 0\n6 -3 -1 0 -5 0\n"],
        Some(Refusal::At(StepFault::UnknownHint, 3)),
    ),
    (
        &["5 3 4 0 0\n6 -3 5 0 -5 1 0\n"],
        Some(Refusal::At(StepFault::NotUnit, 2)),
    ),
    (
        &["5 3 1 0 0\n6 -3 -1 0 -5 -5 0\n8 2 0 1 2 0\n9 0 8 3 4 0\n"],
        None,
    ),
    (&["8 2 0 1 2 -99 0\n9 0 8 3 4 0\n"], None),
    (
        &["5 3 1 0 0\n6 3 2 0 0\n6 d 6 0\n7 -3 -1 0 -5 0\n8 2 0 1 2 0\n9 0 8 3 4 0\n"],
        None,
    ),
];

/// Independent reads of independent writes, with a variable for each ordered pair.
const INDEPENDENT_READS: &str =
    "p cnf 34 160\n13 0\n25 0\n1 6 0\n-1 -6 0\n2 11 0\n-2 -11 0\n3 16 0\n-3 -16 0\n4 21 0\n-4 -21 0\n5 26 0\n-5 -26 0\n7 12 0\n\
-7 -12 0\n8 17 0\n-8 -17 0\n9 22 0\n-9 -22 0\n10 27 0\n-10 -27 0\n13 18 0\n-13 -18 0\n14 23 0\n-14 -23 0\n15 28 0\n-15 -28 0\n\
19 24 0\n-19 -24 0\n20 29 0\n-20 -29 0\n25 30 0\n-25 -30 0\n-1 -7 2 0\n-1 -8 3 0\n-1 -9 4 0\n-1 -10 5 0\n-2 -12 1 0\n\
-2 -13 3 0\n-2 -14 4 0\n-2 -15 5 0\n-3 -17 1 0\n-3 -18 2 0\n-3 -19 4 0\n-3 -20 5 0\n-4 -22 1 0\n-4 -23 2 0\n-4 -24 3 0\n\
-4 -25 5 0\n-5 -27 1 0\n-5 -28 2 0\n-5 -29 3 0\n-5 -30 4 0\n-6 -2 7 0\n-6 -3 8 0\n-6 -4 9 0\n-6 -5 10 0\n-7 -11 6 0\n\
-7 -13 8 0\n-7 -14 9 0\n-7 -15 10 0\n-8 -16 6 0\n-8 -18 7 0\n-8 -19 9 0\n-8 -20 10 0\n-9 -21 6 0\n-9 -23 7 0\n-9 -24 8 0\n\
-9 -25 10 0\n-10 -26 6 0\n-10 -28 7 0\n-10 -29 8 0\n-10 -30 9 0\n-11 -1 12 0\n-11 -3 13 0\n-11 -4 14 0\n-11 -5 15 0\n\
-12 -6 11 0\n-12 -8 13 0\n-12 -9 14 0\n-12 -10 15 0\n-13 -16 11 0\n-13 -17 12 0\n-13 -19 14 0\n-13 -20 15 0\n-14 -21 11 0\n\
-14 -22 12 0\n-14 -24 13 0\n-14 -25 15 0\n-15 -26 11 0\n-15 -27 12 0\n-15 -29 13 0\n-15 -30 14 0\n-16 -1 17 0\n-16 -2 18 0\n\
-16 -4 19 0\n-16 -5 20 0\n-17 -6 16 0\n-17 -7 18 0\n-17 -9 19 0\n-17 -10 20 0\n-18 -11 16 0\n-18 -12 17 0\n-18 -14 19 0\n\
-18 -15 20 0\n-19 -21 16 0\n-19 -22 17 0\n-19 -23 18 0\n-19 -25 20 0\n-20 -26 16 0\n-20 -27 17 0\n-20 -28 18 0\n-20 -30 19 0\n\
-21 -1 22 0\n-21 -2 23 0\n-21 -3 24 0\n-21 -5 25 0\n-22 -6 21 0\n-22 -7 23 0\n-22 -8 24 0\n-22 -10 25 0\n-23 -11 21 0\n\
-23 -12 22 0\n-23 -13 24 0\n-23 -15 25 0\n-24 -16 21 0\n-24 -17 22 0\n-24 -18 23 0\n-24 -20 25 0\n-25 -26 21 0\n-25 -27 22 0\n\
-25 -28 23 0\n-25 -29 24 0\n-26 -1 27 0\n-26 -2 28 0\n-26 -3 29 0\n-26 -4 30 0\n-27 -6 26 0\n-27 -7 28 0\n-27 -8 29 0\n\
-27 -9 30 0\n-28 -11 26 0\n-28 -12 27 0\n-28 -13 29 0\n-28 -14 30 0\n-29 -16 26 0\n-29 -17 27 0\n-29 -18 28 0\n-29 -19 30 0\n\
-30 -21 26 0\n-30 -22 27 0\n-30 -23 28 0\n-30 -24 29 0\n31 0\n-31 2 0\n32 0\n-32 17 0\n33 0\n-33 9 0\n34 0\n-34 26 0\n";

/// A derivation of cryptominisat for it.
const OF_INDEPENDENT_READS: [KnownDerivation; 1] = [(
    &[
        "161 2 0 154 153 0\n162 -2 -16 0 8 38 1 0\n163 -16 0 162 161 0\n164 17 0 156 155 0\n165 -6 0 164 97 163 0\n\
166 9 0 158 157 0\n167 -21 0 166 65 165 0\n168 21 -26 0 12 9 48 2 0\n169 -26 0 168 167 0\n170 0 159 160 169 0\n",
    ],
    None,
)];

/// Five pigeons do not fit into four holes.
const PIGEONS: &str =
    "p cnf 20 45\n1 2 3 4 0\n5 6 7 8 0\n9 10 11 12 0\n13 14 15 16 0\n17 18 19 20 0\n-1 -5 0\n-1 -9 0\n-5 -9 0\n-1 -13 0\n-5 -13 0\n\
-9 -13 0\n-1 -17 0\n-5 -17 0\n-9 -17 0\n-13 -17 0\n-2 -6 0\n-2 -10 0\n-6 -10 0\n-2 -14 0\n-6 -14 0\n-10 -14 0\n-2 -18 0\n\
-6 -18 0\n-10 -18 0\n-14 -18 0\n-3 -7 0\n-3 -11 0\n-7 -11 0\n-3 -15 0\n-7 -15 0\n-11 -15 0\n-3 -19 0\n-7 -19 0\n-11 -19 0\n\
-15 -19 0\n-4 -8 0\n-4 -12 0\n-8 -12 0\n-4 -16 0\n-8 -16 0\n-12 -16 0\n-4 -20 0\n-8 -20 0\n-12 -20 0\n-16 -20 0\n";

/// How a derivation for it begins: with two clauses that define the first one of some new variables. Cadical has found it for a formula with these.
const DEFINED: &str = "46 21 -1 0 0\n47 21 -5 0 0\n";

/// What comes after the third clause: the other two of the definition.
const DEFINED_AFTER: &str =
    "49 -21 -13 0 9 10 -46 -47 0\n50 -21 -17 0 12 13 -46 -47 0\n50 d 7 8 9 10 12 13 0\n";

/// The rest, but for the last line.
const REST: &str =
    "51 22 -2 0 0\n52 22 -6 0 0\n53 -22 -10 0 17 18 -51 -52 0\n54 -22 -14 0 19 20 -51 -52 0\n55 -22 -18 0 22 23 -51 -52 0\n\
55 d 17 18 19 20 22 23 0\n56 23 -3 0 0\n57 23 -7 0 0\n58 -23 -11 0 27 28 -56 -57 0\n59 -23 -15 0 29 30 -56 -57 0\n\
60 -23 -19 0 32 33 -56 -57 0\n60 d 27 28 29 30 32 33 0\n61 24 -4 0 0\n62 24 -8 0 0\n63 -24 -12 0 37 38 -61 -62 0\n\
64 -24 -16 0 39 40 -61 -62 0\n65 -24 -20 0 42 43 -61 -62 0\n65 d 37 38 39 40 42 43 0\n\
66 -17 -23 -24 0 14 15 58 59 63 64 3 4 21 0\n67 -23 -24 0 58 59 60 66 63 64 65 5 24 25 3 4 11 0\n67 d 66 0\n\
68 21 22 23 0 46 47 51 52 56 57 1 2 36 0\n69 -18 -24 0 24 25 55 63 64 67 68 48 49 3 4 31 0\n\
70 -17 -24 0 14 15 50 63 64 67 68 53 54 3 4 31 0\n71 -10 -24 0 21 24 53 64 65 67 70 68 5 49 35 4 0\n\
72 -24 0 63 64 65 67 69 70 71 5 34 35 3 11 48 4 68 54 0\n73 -4 0 72 61 0\n74 -8 0 72 62 0\n\
75 21 23 0 73 74 46 47 56 57 1 2 16 0\n75 d 68 0\n76 -11 -22 -21 0 31 34 54 55 49 50 4 5 45 0\n\
77 -22 -21 0 53 54 55 76 48 49 50 3 41 44 4 5 35 0\n77 d 76 0\n78 23 0 73 74 56 57 75 77 51 52 1 2 6 0\n79 -11 0 78 58 0\n\
80 -15 0 78 59 0\n81 -19 0 78 60 0\n82 -12 -21 0 80 81 41 44 49 50 4 5 25 0\n83 -21 9 0 79 80 81 49 50 82 3 21 24 4 5 45 0\n\
84 22 21 0 73 74 51 52 46 47 1 2 26 0\n85 9 0 79 80 81 83 84 53 54 55 3 41 44 4 5 15 0\n86 -13 0 85 11 0\n87 -17 0 85 14 0\n\
88 -21 0 85 48 0\n89 22 0 88 84 0\n90 -14 0 89 54 0\n91 -18 0 89 55 0\n92 16 0 80 86 90 4 0\n93 20 0 81 87 91 5 0\n";

/// The derivation, and edited ones.
const OF_PIGEONS: [KnownDerivation; 14] = [
    (
        &[
            DEFINED,
            "48 -21 -9 0 7 8 -46 -47 0\n",
            DEFINED_AFTER,
            REST,
            "1000 d 48 49 50 77 82 83 88 0\n1001 21 -17 0 0\n94 0 92 93 45 0\n",
        ],
        None,
    ),
    (
        &[
            DEFINED,
            "48 -21 -9 0 7 8 -46 -47 0\n",
            DEFINED_AFTER,
            REST,
            "1000 d 48 49 50 77 82 83 0\n1000 d 48 49 50 77 82 83 0\n1001 21 -17 0 0\n94 0 92 93 45 0\n",
        ],
        Some(Refusal::At(StepFault::NoConflict, 58)),
    ),
    (
        &[
            DEFINED,
            "48 -21 -9 0 -46 7 -47 8 0\n",
            DEFINED_AFTER,
            REST,
            "94 0 92 93 45 0\n",
        ],
        None,
    ),
    (
        &[
            DEFINED,
            "48 -21 -9 0 -46 7 -47 0\n",
            DEFINED_AFTER,
            REST,
            "94 0 92 93 45 0\n",
        ],
        Some(Refusal::At(StepFault::NoConflict, 3)),
    ),
    (
        &[
            DEFINED,
            "48 -21 -9 0 -46 8 -47 7 0\n",
            DEFINED_AFTER,
            REST,
            "94 0 92 93 45 0\n",
        ],
        Some(Refusal::At(StepFault::NoConflict, 3)),
    ),
    (
        &[
            DEFINED,
            "48 -21 -9 0 7 8 -46 -47 0\n",
            DEFINED_AFTER,
            REST,
            "94 0 92 93 45 0\n",
        ],
        None,
    ),
    (
        &[
            DEFINED,
            "48 -21 -9 0 7 8 -46 -47 0\n",
            DEFINED_AFTER,
            "1000 21 -17 0 0\n",
            REST,
            "94 0 92 93 45 0\n",
        ],
        Some(Refusal::At(StepFault::NoConflict, 7)),
    ),
    (
        &[
            DEFINED,
            "48 -21 -9 0 7 8 -46 -47 0\n",
            DEFINED_AFTER,
            REST,
            "1000 d 48 49 50 77 82 83 0\n1001 21 -17 0 0\n94 0 92 93 45 0\n",
        ],
        Some(Refusal::At(StepFault::NoConflict, 57)),
    ),
    (
        &[
            DEFINED,
            "48 -21 -9 0 7 8 -46 0\n",
            DEFINED_AFTER,
            REST,
            "94 0 92 93 45 0\n",
        ],
        Some(Refusal::At(StepFault::GroupMissing, 3)),
    ),
    (
        &[
            DEFINED,
            "1000 21 -5 0 47 0\n1000 d 47 0\n48 -21 -9 0 7 8 -46 -47 0\n",
            DEFINED_AFTER,
            REST,
            "94 0 92 93 45 0\n",
        ],
        Some(Refusal::At(StepFault::UnknownHint, 5)),
    ),
    (
        &[
            DEFINED,
            "48 -9 -21 0 7 8 -46 -47 0\n",
            DEFINED_AFTER,
            REST,
            "94 0 92 93 45 0\n",
        ],
        Some(Refusal::At(StepFault::NotOpposed, 3)),
    ),
    (
        &[
            DEFINED,
            "1000 21 -5 0 47 0\n48 -21 -9 0 7 8 -46 -47 0\n",
            DEFINED_AFTER,
            REST,
            "94 0 92 93 45 0\n",
        ],
        Some(Refusal::At(StepFault::GroupMissing, 4)),
    ),
    (
        &[
            DEFINED,
            "1000 21 -5 0 47 0\n1000 d 1000 0\n48 -21 -9 0 7 8 -46 -47 0\n",
            DEFINED_AFTER,
            REST,
            "94 0 92 93 45 0\n",
        ],
        None,
    ),
    (
        &[
            DEFINED,
            "48 -21 -9 0 45 -46 7 -47 8 0\n",
            DEFINED_AFTER,
            REST,
            "94 0 92 93 45 0\n",
        ],
        Some(Refusal::At(StepFault::NotUnit, 3)),
    ),
];

/// Formulas with derivations for them.
pub const FAMILIES: [Family; 19] = [
    (CONTRADICTION, &[], &OF_CONTRADICTION),
    (EMPTY_CLAUSE, &[], &OF_EMPTY_CLAUSE),
    (HAND_OFF_OF_PAIRS, &[], &OF_HAND_OFF_OF_PAIRS),
    (HAND_OFF, &[], &OF_HAND_OFF),
    (OLD, &[], &OF_OLD),
    (
        "p cnf 4194304 0\n",
        &[],
        &[(&[""], Some(Refusal::At(StepFault::NoEmptyClause, 1)))],
    ),
    (
        NOT_BOTH,
        &[],
        &[(
            &["4 0 2 3 1 0\n"],
            Some(Refusal::At(StepFault::UnknownHint, 1)),
        )],
    ),
    (NOT_BOTH, &[1, 2], &OF_BOTH),
    (STORE_BUFFERING, &[], &OF_STORE_BUFFERING),
    (STORE_BUFFERING, &[3], &OF_LEFT),
    (
        STORE_BUFFERING,
        &[-3],
        &[(&["16 0 1 2 11 12 3 7 15 0\n"], None)],
    ),
    (BUFFERING_OF_PAIRS, &[], &OF_BUFFERING_OF_PAIRS),
    (
        BUFFERING_OF_PAIRS,
        &[3],
        &[(&["44 0 41 42 43 8 0\n"], None)],
    ),
    (
        BUFFERING_OF_PAIRS,
        &[-3],
        &[(&["44 0 1 2 39 40 15 18 43 0\n"], None)],
    ),
    (
        BUFFERING_OF_PAIRS,
        &[3, 3],
        &[(&["45 0 41 42 43 8 0\n"], None)],
    ),
    (BUFFERING_OF_PAIRS, &[3, -3], &[(&["45 0 43 44 0\n"], None)]),
    (NO_VALUES, &[], &OF_NO_VALUES),
    (INDEPENDENT_READS, &[], &OF_INDEPENDENT_READS),
    (PIGEONS, &[], &OF_PIGEONS),
];

/// Such with the largest variable.
pub const LARGEST: [Family; 3] = [
    (
        BUFFERING_OF_PAIRS,
        &[4194304],
        &[(&["44 0 1 2 39 40 41 42 15 18 8 0\n"], None)],
    ),
    (
        BUFFERING_OF_PAIRS,
        &[-4194304],
        &[(&["44 0 1 2 39 40 41 42 15 18 8 0\n"], None)],
    ),
    (
        NO_VALUES,
        &[],
        &[(
            &["5 4194304 1 0 0\n6 -4194304 -1 0 -5 0\n8 2 0 1 2 0\n9 0 8 3 4 0\n"],
            None,
        )],
    ),
];
