#![tactic(auto)]

#[cfg(test)]
mod draws;
#[cfg(test)]
mod limits;
#[cfg(test)]
mod refusals;
#[cfg(test)]
mod strikes;
