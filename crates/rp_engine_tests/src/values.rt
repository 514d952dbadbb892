//! What no contract says of the values of measures and conditions: what a call costs. What the values are is shown by
//! cases/values.script.
mod cost;
mod long;
mod plans;
