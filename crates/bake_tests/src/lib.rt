// Bakes by example: every refusal at its edge, and what a refusal leaves in hand.
#![tactic(auto)]

#[cfg(test)]
mod tests;
