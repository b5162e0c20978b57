// Trials of the stores and of the sheets: the same tables for every kind of database.
#![tactic(auto)]

#[cfg(test)]
mod hall;
#[cfg(test)]
mod moments;
#[cfg(test)]
mod odd;
#[cfg(test)]
mod over_undo;
#[cfg(test)]
mod over_versions;
#[cfg(test)]
mod sheets;
#[cfg(test)]
mod stores;
