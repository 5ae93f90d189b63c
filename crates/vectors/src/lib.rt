// Outside vectors and edge cases: examples with their expected results, run through the public calls.
#![tactic(auto)]

#[cfg(test)]
mod claim_codes;
#[cfg(test)]
mod line_ups;
#[cfg(test)]
mod replies;
