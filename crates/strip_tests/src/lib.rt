// Strips by example: every refusal at its edge, questions, and a replay.
#![tactic(auto)]

#[cfg(test)]
mod tests;
