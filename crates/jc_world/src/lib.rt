//! What instructions and calls of the platform share: why code does not go on, the objects that references name, values and cells, arguments
//! and results.
#![tactic(auto)]

pub mod answers;
pub mod arguments;
pub mod arrays;
pub mod contexts;
pub mod instances;
pub mod making;
pub mod native_result;
pub mod numbers;
pub mod objects;
pub mod step_exit;
pub mod types;
pub mod values;

pub use answers::{boolean, short};
pub use arrays::{Stretch, bytes_argument, elements, put};
pub use instances::instance;
pub use native_result::{NativeResult, ServerCall};
pub use numbers::not_negative;
pub use step_exit::StepExit;
