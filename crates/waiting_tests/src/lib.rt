#![tactic(auto)]

#[cfg(test)]
mod absent;
#[cfg(test)]
mod layers;
#[cfg(test)]
mod limits;
#[cfg(test)]
mod lone;
