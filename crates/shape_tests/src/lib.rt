// Worked examples of shape numbers, answerers and the mask table, and each refusal.
#![tactic(auto)]

#[cfg(test)]
mod tests;
