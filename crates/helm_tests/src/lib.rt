#![tactic(auto)]

#[cfg(test)]
mod charts;
#[cfg(test)]
mod crew;
#[cfg(test)]
mod limits;
#[cfg(test)]
mod refusals;
#[cfg(test)]
mod voyages;
