//! What instructions of the BPF profile mean: their forms and encodings, the walk over code, the values
//! of operations (RFC 9669); and where addresses lie, the machine that executes programs, and the outcome
//! of a run. Definitions stand in `specs/`. The public functions have empty bodies: their contracts are
//! laws and worked examples of the definitions.
#![tactic(auto)]

mod addresses;
mod fields;
mod forms;
mod frames;
mod laws;
mod runs;
mod values;
mod walks;

pub use addresses::{Location, addresses_are_resolved, example_addresses};
pub use fields::Fields;
pub use forms::{example_forms, forms_are_encodings};
pub use frames::SavedFrame;
pub use laws::{runs_are_confined, runs_are_local, runs_depend_on_windows, runs_keep_sizes};
pub use runs::{example_runs, example_runs_on_read_only_ranges};
pub use values::{laws_of_values, values_by_example};
pub use walks::{code_ends_at_the_bad_place, example_walks};
