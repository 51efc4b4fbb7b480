//! The engine that decides long traces: with the survey of this program, and with surveyors that lie.

mod answers;
mod beams;
mod buffered_runs;
mod certified_surveys;
mod drawn_numbers;
mod failing_devices;
mod hints;
mod lying_surveyors;
mod refused_memory;
mod states;
mod surveys;
mod traces;
mod two_findings;
