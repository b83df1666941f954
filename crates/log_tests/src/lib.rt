// A worked example of the log, and each refusal at its edge.
#![tactic(auto)]

#[cfg(test)]
mod tests;
