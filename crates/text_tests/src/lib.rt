#![tactic(auto)]

#[cfg(test)]
mod accepted;
#[cfg(test)]
mod generated;
#[cfg(test)]
mod helpers;
#[cfg(test)]
mod limits;
#[cfg(test)]
mod refused;
#[cfg(test)]
mod room;
